//! The routes that a speaker has.

ghost use Rattle.std.specs.Prelude.{◌≡◌, ◌≤◌, ◌||◌, nat_lt, if◌then◌else◌, List, [], length, is_some, true, false, None, IsSome, IfSome, IfNone, IfOk, OnOk, OnErr, option_copied, unwrap_or};
ghost use Rattle.std.specs.List.Sorted.{IsStrictlySortedBy};
ghost use Rattle.std.specs.Map.{lookup, remove_entry};
ghost use Rattle.std.specs.Map as maps;
ghost use Rattle.std.specs.BTreeMap.{insert_entry};
ghost use Rattle.ug_types.specs.Ip.{IpPrefix};
ghost use Rattle.ug_types.specs.Keys.{prefix_cmp, same_prefix};
ghost use Rattle.ug_types.specs.declared.route.Path as stored;
ghost use Rattle.ug_world.specs.World.{paths_to};
ghost use Rattle.ug_world.specs.Private.{keys_of};
ghost use Rattle.ug_world.specs.Verdicts.{path_count, is_overfull};
ghost use Rattle.ug_world.specs.Orders.{IsAfter, IsNotAfter};
ghost use Rattle.ug_world.specs.Rows.{rows_behind};

use crate::best::Best;
use crate::keys::put_keys;
use crate::row_trees::RowTrees;
use crate::rows::Rows;
use std::alloc::Global;
use std::marker::Model;
use ug_types::{Key, NoMemory, Path, Prefix};

/// The Loc-RIB: each prefix that has paths, with them. Contracts see the prefixes in their order, each with its paths.
#[derive(Drop)]
pub struct LocRib {
    rows: RowTrees,
    /// How many paths there are in all.
    paths: u64,
}

impl Model for LocRib {
    ghost use Rattle.std.specs.Prelude.{List};
    ghost use Rattle.ug_types.specs.Ip.{IpPrefix};
    ghost use Rattle.ug_types.specs.declared.route.Path.{Path};
    ghost use Rattle.ug_world.specs.Kept.{IsCounted};

    ghost Value = { List (IpPrefix × List Path) };

    ghost view = { λ r. r.rows };

    ghost invariant = { λ r. IsCounted r.paths r.rows };
}

impl LocRib {
    /// No routes. It takes no memory.
    pub fn new(alloc: Global) -> LocRib
        ensures { result ≡ [] }
    {
        LocRib {
            rows: RowTrees::new(alloc),
            paths: 0,
        }
    }

    /// The paths of a prefix, the best first; empty exactly where it has none.
    pub fn paths(&self, prefix: &Prefix) -> &[Path]
        ensures { result.now ≡ paths_to self.now prefix.now }
    {
        match self.rows.get(prefix) {
            Some(best) => best.as_slice(),
            None => &[],
        }
    }

    /// Whether a prefix has paths.
    pub fn contains(&self, prefix: &Prefix) -> bool
        ensures { result ≡ is_some (lookup (same_prefix prefix.now) self.now) }
    {
        self.rows.get(prefix).is_some()
    }

    /// Whether there would be over 1,048,576 prefixes, or over 2,097,152 paths, if this prefix had so many paths in place
    /// of those that it has.
    pub fn is_overfull_with(&self, prefix: &Prefix, count: usize) -> bool
        ensures { (given : List stored.Path) → length given ≡ count → result ≡ is_overfull (insert_entry prefix_cmp self.now prefix.now given) }
    {
        if self.has_room(count) {
            return false;
        }
        let (prefixes, paths) = self.counts_with(prefix, count);
        are_over(prefixes, paths)
    }

    /// Whether there is room for so many paths more of whatever prefix, which is most often so and asks for no look at
    /// the prefix.
    fn has_room(&self, count: usize) -> bool
        ensures { result ≡ true → (prefix : IpPrefix) → (given : List stored.Path) → length given ≡ count → is_overfull (insert_entry prefix_cmp self.now prefix given) ≡ false }
    {
        if self.rows.len() >= 1048576 {
            return false;
        }
        if self.paths as u128 + count as u128 > 2097152 {
            return false;
        }
        true
    }

    /// How many prefixes and how many paths there would be then.
    fn counts_with(&self, prefix: &Prefix, count: usize) -> (u128, u128)
        ensures prefixes { (given : List stored.Path) → length given ≡ count → result.0 ≡ length (insert_entry prefix_cmp self.now prefix.now given) }
        ensures paths { (given : List stored.Path) → length given ≡ count → result.1 ≡ path_count (insert_entry prefix_cmp self.now prefix.now given) }
    {
        let row = self.counts_of(prefix);
        let prefixes = self.rows.len() as u128 + 1 - row.0;
        let paths = self.paths as u128 + count as u128 - row.1;
        (prefixes, paths)
    }

    /// 1 where a prefix has paths, and 0 where it has none, and how many it has.
    fn counts_of(&self, prefix: &Prefix) -> (u128, u128)
        ensures one { result.0 ≡ (if is_some (lookup (same_prefix prefix.now) self.now) then 1 else 0) }
        ensures small { result.0 ≤ 1 }
        ensures paths { result.1 ≡ length (paths_to self.now prefix.now) }
    {
        match self.rows.get(prefix) {
            Some(best) => (1, best.as_slice().len() as u128),
            None => (0, 0),
        }
    }

    /// Gives a prefix these paths, in place of those before. Running out of memory changes nothing.
    pub fn set(&mut self, prefix: Prefix, best: Best) -> Result<(), NoMemory>
        requires room { is_overfull (insert_entry prefix_cmp self.old prefix best) ≡ false }
        ensures ok { OnOk result (self.new ≡ insert_entry prefix_cmp self.old prefix best) }
        ensures err { OnErr result (self.new ≡ self.old) }
    {
        let count = best.as_slice().len() as u64;
        let before = count_of(self.rows.insert(prefix, best)?);
        self.paths = self.paths - before + count;
        Ok(())
    }

    /// Takes the paths of a prefix away.
    pub fn remove(&mut self, prefix: &Prefix)
        ensures { self.new ≡ remove_entry (same_prefix prefix.now) self.old }
    {
        self.paths -= count_of(self.rows.remove(prefix));
    }

    /// The least prefix with paths above the given one, or the first; None exactly where there is none.
    pub fn prefix_after(&self, prefix: Option<&Prefix>) -> Option<Prefix>
        ensures there { IfSome result (λ p. IsSome (lookup (same_prefix p) self.now)) }
        ensures above { IfSome result (λ p. IsAfter (option_copied prefix.entry) p) }
        ensures least { IfSome result (λ p. (q : IpPrefix) → IsAfter (option_copied prefix.entry) q → IsSome (lookup (same_prefix q) self.now) → IsNotAfter p q) }
        ensures none { IfNone result ((q : IpPrefix) → IsAfter (option_copied prefix.entry) q → lookup (same_prefix q) self.now ≡ None) }
    {
        match self.rows.rows_behind(prefix).next() {
            Some(row) => Some(row.0),
            None => None,
        }
    }

    /// The rows behind a prefix, or all of them, in the order of their prefixes. No list of them is made.
    pub fn rows_behind(&self, prefix: Option<&Prefix>) -> Rows<'_>
        ensures rows { result ≡ rows_behind (option_copied prefix.entry) self.now }
        ensures ascending { IsStrictlySortedBy prefix_cmp (maps.keys_of self.now) }
    {
        self.rows.rows_behind(prefix)
    }

    /// The keys under which the paths can stand, in the order of the prefixes: identifier 0, or with ADD-PATH their own.
    pub fn keys(&self, alloc: Global, add_path: bool) -> Result<Vec<Key>, NoMemory>
        ensures { IfOk result (λ keys. keys.items ≡ keys_of add_path self.now) }
    {
        let mut keys = Vec::new(alloc);
        for (prefix, paths) in self.rows.rows_behind(None) {
            put_keys(&mut keys, alloc, add_path, &prefix, paths)?;
        }
        Ok(keys)
    }

    /// Equal routes, in memory of their own.
    pub fn copy(&self) -> Result<LocRib, NoMemory>
        ensures { IfOk result (λ copy. copy ≡ self.now) }
    {
        Ok(LocRib {
            rows: self.rows.clone()?,
            paths: self.paths,
        })
    }
}

/// Whether so many prefixes, or so many paths, are too many.
fn are_over(prefixes: u128, paths: u128) -> bool
    ensures { result ≡ (nat_lt 1048576 prefixes || nat_lt 2097152 paths) }
{
    prefixes > 1048576 || paths > 2097152
}

/// How many paths there are, if any.
fn count_of(best: Option<Best>) -> u64
    ensures { result ≡ length (unwrap_or best []) }
{
    match best {
        Some(best) => best.as_slice().len() as u64,
        None => 0,
    }
}
