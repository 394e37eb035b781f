//! The rows of the Loc-RIB, by family.

ghost use Rattle.std.specs.Prelude.{◌≡◌, ◌++◌, [], length, unwrap_or, option_copied, IfOk, OnOk, OnErr};
ghost use Rattle.std.specs.List.Sorted.{IsStrictlySortedBy};
ghost use Rattle.std.specs.Map.{lookup, remove_entry, keys_of};
ghost use Rattle.std.specs.BTreeMap.{insert_entry, is_at};
ghost use Rattle.ug_types.specs.declared.family.Family.TheVariants.{V4, V6};
ghost use Rattle.ug_types.specs.Keys.{prefix_cmp};
ghost use Rattle.ug_world.specs.Families.{AreOf};
ghost use Rattle.ug_world.specs.Rows.{rows_behind};

use crate::best::Best;
use crate::rows::Rows;
use crate::v4_prefix::V4Prefix;
use crate::v6_prefix::V6Prefix;
use std::alloc::{AllocError, Global};
use std::collections::BTreeMap;
use std::collections::btree_map::Range;
use std::marker::Model;
use std::ops::Bound;
use ug_types::{Family, NoMemory, Prefix};

/// Prefixes with their paths. Those of IPv4 stand in a tree of their own, which is searched by fewer bytes. Contracts see
/// one list of them all, in the order of the prefixes.
#[derive(Drop)]
pub struct RowTrees {
    v4: BTreeMap<V4Prefix, Best>,
    v6: BTreeMap<V6Prefix, Best>,
}

impl Model for RowTrees {
    ghost use Rattle.std.specs.Prelude.{List, ◌++◌};
    ghost use Rattle.ug_types.specs.Ip.{IpPrefix};
    ghost use Rattle.ug_types.specs.declared.route.Path.{Path};
    ghost use Rattle.ug_world.specs.Families.{AreByFamily};

    ghost Value = { List (IpPrefix × List Path) };

    ghost view = { λ t. t.v4.entries ++ t.v6.entries };

    ghost invariant = { λ t. AreByFamily t.v4.entries t.v6.entries };
}

impl RowTrees {
    /// No rows. It takes no memory.
    pub fn new(alloc: Global) -> RowTrees
        ensures { result ≡ [] }
    {
        RowTrees {
            v4: BTreeMap::new(alloc),
            v6: BTreeMap::new(alloc),
        }
    }

    /// How many prefixes there are.
    pub fn len(&self) -> usize
        ensures len { result ≡ length self.now }
        ensures ordered { IsStrictlySortedBy prefix_cmp (keys_of self.now) }
    {
        self.v4.len() + self.v6.len()
    }

    /// The paths of a prefix, if it has any.
    pub fn get(&self, prefix: &Prefix) -> Option<&Best>
        ensures { option_copied result ≡ lookup (is_at (prefix_cmp prefix.now)) self.now }
    {
        match prefix.family {
            Family::V4 => self.v4.get(&V4Prefix::narrow(prefix)),
            Family::V6 => self.v6.get(&V6Prefix::narrow(prefix)),
        }
    }

    /// Gives a prefix these paths, and hands back those before. Running out of memory changes nothing.
    pub fn insert(&mut self, prefix: Prefix, best: Best) -> Result<Option<Best>, NoMemory>
        ensures old { IfOk result (λ old. old ≡ lookup (is_at (prefix_cmp prefix)) self.old) }
        ensures entries { OnOk result (self.new ≡ insert_entry prefix_cmp self.old prefix best) }
        ensures err { OnErr result (self.new ≡ self.old) }
        ensures was_ordered { IsStrictlySortedBy prefix_cmp (keys_of self.old) }
    {
        match prefix.family {
            Family::V4 => Ok(self.v4.insert(V4Prefix::narrow(&prefix), best)?),
            Family::V6 => Ok(self.v6.insert(V6Prefix::narrow(&prefix), best)?),
        }
    }

    /// Takes a prefix out, and hands its paths back.
    pub fn remove(&mut self, prefix: &Prefix) -> Option<Best>
        ensures value { result ≡ lookup (is_at (prefix_cmp prefix.now)) self.old }
        ensures entries { self.new ≡ remove_entry (is_at (prefix_cmp prefix.now)) self.old }
    {
        match prefix.family {
            Family::V4 => self.v4.remove(&V4Prefix::narrow(prefix)),
            Family::V6 => self.v6.remove(&V6Prefix::narrow(prefix)),
        }
    }

    /// The rows behind a prefix, or all of them, in the order of their prefixes.
    pub fn rows_behind(&self, prefix: Option<&Prefix>) -> Rows<'_>
        ensures rows { result ≡ rows_behind (option_copied prefix.entry) self.now }
        ensures ordered { IsStrictlySortedBy prefix_cmp (keys_of self.now) }
    {
        Rows {
            v4: v4_behind(&self.v4, prefix),
            v6: v6_behind(&self.v6, prefix),
        }
    }
}

impl Clone for RowTrees {
    ghost is_clone = { λ rows copy. copy ≡ rows };

    fn clone(&self) -> Result<RowTrees, AllocError> {
        Ok(RowTrees {
            v4: self.v4.clone()?,
            v6: self.v6.clone()?,
        })
    }
}

/// The rows of IPv4 behind a prefix, or all of them; None where the prefix is of IPv6, since none of them stands behind it.
fn v4_behind<'a>(
    rows: &'a BTreeMap<V4Prefix, Best>,
    prefix: Option<&Prefix>,
) -> Option<Range<'a, V4Prefix, Best>>
    requires { AreOf V4 rows.now.entries }
    ensures { unwrap_or result [] ≡ rows_behind (option_copied prefix.entry) rows.now.entries }
{
    match prefix {
        None => Some(rows.range(..)),
        Some(prefix) => match prefix.family {
            Family::V4 => {
                let key = V4Prefix::narrow(prefix);
                Some(rows.range((Bound::Excluded(key), Bound::Unbounded)))
            },
            Family::V6 => None,
        },
    }
}

/// The rows of IPv6 behind a prefix, or all of them. They all stand behind a prefix of IPv4.
fn v6_behind<'a>(
    rows: &'a BTreeMap<V6Prefix, Best>,
    prefix: Option<&Prefix>,
) -> Range<'a, V6Prefix, Best>
    requires { AreOf V6 rows.now.entries }
    ensures { result ≡ rows_behind (option_copied prefix.entry) rows.now.entries }
{
    match prefix {
        None => rows.range(..),
        Some(prefix) => match prefix.family {
            Family::V4 => rows.range(..),
            Family::V6 => {
                let key = V6Prefix::narrow(prefix);
                rows.range((Bound::Excluded(key), Bound::Unbounded))
            },
        },
    }
}
