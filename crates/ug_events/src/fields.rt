//! The fields of a path that have been read.

ghost use Rattle.std.specs.Prelude.{◌≡◌, true, [], IfOk, unwrap_or};
ghost use Rattle.std.specs.Option.{option_map};
ghost use Rattle.ug_events.specs.Events.{IsGiven};
ghost use Rattle.ug_events.specs.Fields.{no_fields, has, with_field, with_word, are_ipv4, path_of_fields};
ghost use Rattle.ug_text.specs.Lists.{items_of};
ghost use Rattle.ug_events.specs.Reads.{bad_words, bad_attribute, or_refused};
ghost use Rattle.ug_events.specs.Views.{Gives, fields_seen};

use crate::event::Given;
use crate::field::{Field, field_of};
use crate::names::source_of;
use crate::path_fields::PathFields;
use crate::refusal::LineRefusal;
use crate::sharing::share_path;
use std::alloc::Global;
use ug_text::{
    Spelled, read_address, read_aggregator, read_ipv4, read_number, read_numbers, read_origin,
    read_path, read_positive,
};
use ug_types::{Addr, AttrParts, Attrs, Family, NumberList, Sequence};

/// A value, where an attribute's text has one.
fn attribute<T>(value: Option<T>) -> Result<T, LineRefusal>
    ensures { Gives (λ x. x) result (or_refused bad_attribute value) }
{
    match value {
        Some(value) => Ok(value),
        None => Err(LineRefusal::of(24)),
    }
}

/// A field, where a path has it.
fn required<T>(field: Option<T>) -> Result<T, LineRefusal>
    ensures { Gives (λ x. x) result (or_refused bad_words field) }
{
    match field {
        Some(field) => Ok(field),
        None => Err(LineRefusal::of(22)),
    }
}

impl PathFields {
    /// None.
    pub fn new() -> PathFields
        ensures { fields_seen result ≡ no_fields }
    {
        PathFields {
            id: None,
            from: None,
            next_hop: None,
            origin: None,
            path: None,
            med: None,
            local_pref: None,
            atomic: false,
            aggregator: None,
            communities: None,
            originator: None,
            clusters: None,
        }
    }

    fn has(&self, field: Field) -> bool
        ensures { result ≡ has field (fields_seen self.now) }
    {
        match field {
            Field::Id => self.id.is_some(),
            Field::From => self.from.is_some(),
            Field::NextHop => self.next_hop.is_some(),
            Field::Origin => self.origin.is_some(),
            Field::AsPath => self.path.is_some(),
            Field::Med => self.med.is_some(),
            Field::LocalPref => self.local_pref.is_some(),
            Field::Atomic => self.atomic,
            Field::Aggregator => self.aggregator.is_some(),
            Field::Communities => self.communities.is_some(),
            Field::Originator => self.originator.is_some(),
            Field::Clusters => self.clusters.is_some(),
        }
    }

    /// Adds a field; what it was before is lost.
    fn put(
        &mut self,
        alloc: Global,
        family: Family,
        field: Field,
        value: &[u8],
    ) -> Result<(), LineRefusal>
        ensures { Gives (λ _. fields_seen self.new) result (with_field family field value.now (fields_seen self.old)) }
    {
        match field {
            Field::Id => self.id = Some(attribute(read_positive(value))?),
            Field::From => self.from = Some(source_of(alloc, value)?),
            Field::NextHop => self.next_hop = Some(attribute(read_address(family, value))?),
            Field::Origin => self.origin = Some(attribute(read_origin(value))?),
            Field::AsPath => self.path = Some(attribute(read_path(alloc, value)?)?),
            Field::Med => self.med = Some(attribute(read_number(value))?),
            Field::LocalPref => self.local_pref = Some(attribute(read_number(value))?),
            Field::Atomic => self.atomic = true,
            Field::Aggregator => self.aggregator = Some(attribute(read_aggregator(value))?),
            Field::Communities => {
                self.communities = Some(attribute(read_numbers(alloc, Spelled::Community, value)?)?)
            }
            Field::Originator => { self.originator = Some(Addr::v4(attribute(read_ipv4(value))?)) }
            Field::Clusters => {
                self.clusters = Some(attribute(read_numbers(alloc, Spelled::Address, value)?)?)
            }
        }
        Ok(())
    }

    /// Adds the field that a word is, which is to be known and new.
    #[tactic(auto, unfolding(crate::specs::Fields::with_word))]
    pub fn read(&mut self, alloc: Global, family: Family, word: &[u8]) -> Result<(), LineRefusal>
        ensures { Gives (λ _. fields_seen self.new) result (with_word family word.now (fields_seen self.old)) }
    {
        let Some((field, value)) = field_of(word) else {
            return Err(LineRefusal::of(22));
        };
        if self.has(field) {
            return Err(LineRefusal::of(22));
        }
        self.put(alloc, family, field, value)
    }

    /// The path of all its fields, where those that it must have are there and its attributes are within their bounds. It
    /// shares the attributes of a path near it that has equal ones.
    #[tactic(auto, unfolding(crate::specs::Fields::path_of_fields, ug_message::specs::Spellable::has_ipv4_addresses))]
    pub fn into_path(self, alloc: Global, near: &[Given]) -> Result<Given, LineRefusal>
        requires ipv4 { are_ipv4 (fields_seen self) ≡ true }
        ensures read { Gives (λ given. given) result (path_of_fields (fields_seen self)) }
        ensures given { IfOk result IsGiven }
    {
        let id = required(self.id)?;
        let from = required(self.from)?;
        let next_hop = required(self.next_hop)?;
        let origin = required(self.origin)?;
        let path = required(self.path)?;
        let parts = AttrParts {
            origin,
            path,
            next_hop,
            med: self.med,
            local_pref: self.local_pref,
            atomic: self.atomic,
            aggregator: self.aggregator,
            communities: or_none(alloc, self.communities),
            originator: self.originator,
            clusters: or_none(alloc, self.clusters),
        };
        match Attrs::new(parts) {
            Ok(attrs) => Ok(share_path(alloc, near, id, from, attrs)?),
            Err(_) => Err(LineRefusal::of(24)),
        }
    }
}

/// The numbers of a field, none where it isn't there.
fn or_none(alloc: Global, numbers: Option<NumberList>) -> NumberList
    ensures { result.items ≡ unwrap_or (option_map items_of numbers) [] }
{
    match numbers {
        Some(numbers) => numbers,
        None => Sequence::new(alloc),
    }
}
