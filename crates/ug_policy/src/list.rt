//! Prefix lists.

ghost use Rattle.std.specs.Prelude.{◌≡◌, None, IfOk, MatchResult};
ghost use Rattle.std.specs.List.{list_all};
ghost use Rattle.ug_policy.specs.Order.{ascending};
ghost use Rattle.ug_policy.specs.Lists.{seq_of, shortest, longest, is_match, permits, is_good, list_refusal, refusal_in_order, IsRefusal};

use crate::list_entry::{EntryList, ListEntry};
use crate::list_refusal::ListRefusal;
use crate::numbered::{Numbered, in_order, is_rising};
use std::alloc::Global;
use std::marker::Model;
use ug_types::{NoMemory, Prefix, Sequence};

/// A prefix list: at most 1,024 good entries, in ascending order of their sequence numbers, which are all different.
/// Contracts see the entries in that order.
#[derive(Drop)]
pub struct PrefixList {
    entries: EntryList,
}

impl Model for PrefixList {
    ghost use Rattle.std.specs.Prelude.{List};
    ghost use Rattle.ug_policy.specs.declared.list_entry.ListEntry.{ListEntry};
    ghost use Rattle.ug_policy.specs.Lists.{IsPrefixList};

    ghost Value = { List ListEntry };

    ghost view = { λ l. l.entries.items };

    ghost invariant = { λ l. IsPrefixList l.entries.items };
}

impl Numbered for ListEntry {
    ghost number_of = { λ e. e.seq };

    fn number(&self) -> u32 {
        self.seq
    }
}

impl PrefixList {
    #[tactic(auto, using(crate::proofs::Refusals::refusal_as_given))]
    /// The list of some entries, which may come in any order. The lowest number answers: 1 two entries have one
    /// sequence number, 2 an entry isn't good, 3 there are over 1,024. An entry is good where its prefix is IPv4, its
    /// length is at most `ge`, `ge` at most `le`, its length at most `le`, and both at most 32, as far as they are
    /// given.
    pub fn new(entries: EntryList) -> Result<PrefixList, ListRefusal>
        ensures { MatchResult result (λ list. (list_refusal entries.items ≡ None) × (list ≡ ascending seq_of entries.items))
            (λ e. IsRefusal e (list_refusal entries.items)) }
    {
        let Ok(sorted) = in_order(entries.into_vec()) else {
            return Err(ListRefusal::NoMemory);
        };
        if let Some(number) = refusal_in_order(sorted.as_slice()) {
            return Err(ListRefusal::Refused { number });
        }
        Ok(PrefixList {
            entries: Sequence::from_vec(sorted),
        })
    }

    /// Whether the list permits a prefix: the first entry that matches decides, and where none does it denies.
    pub fn permits(&self, prefix: &Prefix) -> bool
        ensures { result ≡ permits self.now prefix.now }
    {
        are_permitting(self.entries.as_slice(), prefix)
    }

    /// An equal list of its own.
    pub fn copy(&self, alloc: Global) -> Result<PrefixList, NoMemory>
        ensures { IfOk result (λ copy. copy ≡ self.now) }
    {
        Ok(PrefixList {
            entries: self.entries.copy(alloc)?,
        })
    }
}

/// Why entries that should be in ascending order are refused.
fn refusal_in_order(entries: &[ListEntry]) -> Option<u8>
    ensures { result ≡ refusal_in_order entries.now }
{
    if !is_rising(entries) {
        return Some(1);
    }
    if !are_good(entries) {
        return Some(2);
    }
    if entries.len() > 1024 {
        return Some(3);
    }
    None
}

/// What the first entry that matches a prefix says, or no.
pub fn are_permitting(entries: &[ListEntry], prefix: &Prefix) -> bool
    ensures { result ≡ permits entries.now prefix.now }
{
    for entry in entries {
        if is_match(entry, prefix) {
            return entry.permit;
        }
    }
    false
}

/// Whether an entry matches a prefix.
fn is_match(entry: &ListEntry, prefix: &Prefix) -> bool
    ensures { result ≡ is_match entry.now prefix.now }
{
    entry.prefix.covers(prefix) && shortest(entry) <= prefix.len && prefix.len <= longest(entry)
}

/// The least length that an entry matches.
fn shortest(entry: &ListEntry) -> u8
    ensures { result ≡ shortest entry.now.prefix.len entry.now.ge }
{
    entry.ge.unwrap_or(entry.prefix.len)
}

/// The greatest length that an entry matches.
fn longest(entry: &ListEntry) -> u8
    ensures { result ≡ longest entry.now.prefix.len entry.now.ge entry.now.le }
{
    match entry.le {
        Some(le) => le,
        None => if entry.ge.is_some() {
            32
        } else {
            entry.prefix.len
        },
    }
}

/// Whether each entry is good.
fn are_good(entries: &[ListEntry]) -> bool
    ensures { result ≡ list_all is_good entries.now }
{
    for entry in entries {
        if !entry.is_good() {
            return false;
        }
    }
    true
}
