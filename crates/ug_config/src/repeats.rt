//! Names and sequence numbers that stand twice.

ghost use Rattle.std.specs.Prelude.{◌≡◌, ◌==◌};
ghost use Rattle.std.specs.List.{list_any};
ghost use Rattle.ug_policy.specs.Rules.{rule_seq};
ghost use Rattle.ug_config.specs.Checks.{repeated_name, repeated_sequence, repeated_in, stands_before};

use crate::checking::{Check, check_each, items_before, refuse_where, way_into};
use crate::items::Items;
use crate::names::is_name_among;
use crate::refusals::ConfigRefusal;
use crate::rule::Rule;
use std::alloc::Global;
use std::marker::PhantomData;
use ug_policy::Numbered;
use ug_types::{Name, Named};

impl Numbered for Rule {
    ghost number_of = { rule_seq };

    fn number(&self) -> u32 {
        self.entry.seq
    }
}

/// No name stands before itself.
#[derive(Drop)]
pub struct NameCheck<'a> {
    pub array: &'a str,
    pub names: &'a [Name],
}

impl<'a> Check for NameCheck<'a> {
    type Item = Name;

    ghost fault = { λ c. repeated_name c.array.now c.names.now };

    #[tactic(auto, unfolding(crate::specs::Checks::repeated_name))]
    fn check(&self, alloc: Global, place: usize, name: &Name) -> Result<(), ConfigRefusal> {
        let fails = is_name_among(items_before(self.names, place), name);
        refuse_where(fails, alloc, 5, self.array, place, "name")
    }
}

/// No sequence number stands before itself.
#[derive(Drop)]
pub struct SequenceCheck<'a, E> {
    pub array: &'a str,
    pub entries: &'a [E],
}

impl<'a, E: Numbered> Check for SequenceCheck<'a, E> {
    type Item = E;

    ghost fault = { λ c. repeated_sequence E.number_of c.array.now c.entries.now };

    #[tactic(auto, unfolding(crate::specs::Checks::repeated_sequence))]
    fn check(&self, alloc: Global, place: usize, entry: &E) -> Result<(), ConfigRefusal> {
        let fails = stands_before(self.entries, place, entry.number());
        refuse_where(fails, alloc, 5, self.array, place, "seq")
    }
}

fn stands_before<E: Numbered>(entries: &[E], place: usize, n: u32) -> bool
    ensures { result ≡ stands_before E.number_of entries.now place n }
{
    is_number_among(items_before(entries, place), n)
}

fn is_number_among<E: Numbered>(entries: &[E], n: u32) -> bool
    ensures { result ≡ list_any (λ e. E.number_of e == n) entries.now }
{
    for entry in entries {
        if entry.number() == n {
            return true;
        }
    }
    false
}

/// No name of a list or map, and no sequence number of its entries, stands before itself.
#[derive(Drop)]
pub struct RepeatCheck<'a, E> {
    pub array: &'a str,
    pub names: &'a [Name],
    pub entries: PhantomData<E>,
}

impl<'a, E: Numbered> Check for RepeatCheck<'a, E> {
    type Item = Named<Items<E>>;

    ghost fault = { λ c. repeated_in E.number_of c.array.now c.names.now };

    #[tactic(auto, using(crate::proofs::Faults::none_first), unfolding(crate::specs::Checks::repeated_in))]
    fn check(
        &self,
        alloc: Global,
        place: usize,
        table: &Named<Items<E>>,
    ) -> Result<(), ConfigRefusal> {
        let names = NameCheck {
            array: self.array,
            names: self.names,
        };
        names.check(alloc, place, &table.name)?;
        let way = way_into(alloc, self.array, place)?;
        let array = format!(in alloc; "{way}entry")?;
        let entries = table.value.as_slice();
        let sequences = SequenceCheck {
            array: array.as_str(),
            entries,
        };
        check_each(alloc, &sequences, entries)
    }
}
