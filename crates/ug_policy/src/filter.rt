//! What a peer filters its routes with (RFC 5292).

ghost use Rattle.std.specs.Prelude.{◌≡◌, [], IfOk};
ghost use Rattle.std.specs.Cmp.Lexicographic.{pointwise, lists_per, lists_equiv};
ghost use Rattle.ug_policy.specs.Filters.{IsFilter, filter_permits};
ghost use Rattle.ug_policy.specs.contracts.list_entry.ListEntryPartialEq.TheImpl.Laws as equal;
ghost use Rattle.ug_policy.specs.contracts.list_entry.ListEntryEq.TheImpl.Laws as equivalent;

use crate::list::are_permitting;
use crate::list_entry::{EntryList, ListEntry};
use std::alloc::Global;
use std::marker::Model;
use ug_types::{NoMemory, Prefix};

/// A peer's own filter: entries in ascending order of their sequence numbers, which are all different. Contracts see
/// the entries.
#[derive(Drop)]
pub struct Filter {
    entries: EntryList,
}

impl Model for Filter {
    ghost use Rattle.std.specs.Prelude.{List};
    ghost use Rattle.ug_policy.specs.declared.list_entry.ListEntry.{ListEntry};
    ghost use Rattle.ug_policy.specs.Filters.{IsFilter};

    ghost Value = { List ListEntry };

    ghost view = { λ f. f.entries.items };

    ghost invariant = { λ f. IsFilter f.entries.items };
}

impl Filter {
    /// The filter of these entries, in their memory.
    pub fn new(entries: EntryList) -> Filter
        requires rising { IsFilter entries.items }
        ensures { result ≡ entries.items }
    {
        Filter { entries }
    }

    /// The filter without entries, which permits everything. It takes no memory.
    pub fn none(alloc: Global) -> Filter
        ensures { result ≡ [] }
    {
        Filter {
            entries: EntryList::new(alloc),
        }
    }

    /// The entries.
    pub fn entries(&self) -> &EntryList
        ensures entries { result.now.items ≡ self.now }
        ensures rising { IsFilter self.now }
    {
        &self.entries
    }

    /// Whether a prefix is permitted: where there are entries the first that matches must permit it.
    pub fn permits(&self, prefix: &Prefix) -> bool
        ensures { result ≡ filter_permits self.now prefix.now }
    {
        let entries = self.entries.as_slice();
        match entries {
            [] => true,
            _ => are_permitting(entries, prefix),
        }
    }

    /// An equal filter of its own.
    pub fn copy(&self, alloc: Global) -> Result<Filter, NoMemory>
        ensures { IfOk result (λ copy. copy ≡ self.now) }
    {
        Ok(Filter {
            entries: self.entries.copy(alloc)?,
        })
    }
}

impl PartialEq for Filter {
    ghost eq = { pointwise ⟦<ListEntry as PartialEq>⟧.eq };

    ghost laws = { lists_per equal.lawful.laws };

    fn eq(&self, other: &Self) -> bool {
        self.entries == other.entries
    }
}

impl Eq for Filter {
    ghost laws = { lists_equiv equivalent.lawful.laws };
}
