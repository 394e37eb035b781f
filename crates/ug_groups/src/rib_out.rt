//! The Adj-RIB-Out of a subgroup.

ghost use Rattle.std.specs.Prelude.{◌≡◌, ◌<◌, ◌≤◌, ◌^◌, ◌+◌, ℕ, IsSome, nat_eq, true, Some, None, IfSome, IfOk, OnOk, OnErr, IsOk, not, slice_get, option_copied, length};
ghost use Rattle.ug_types.specs.declared.family.Family.TheVariants.{V4};
ghost use Rattle.ug_types.specs.Bytes.{is_empty};
ghost use Rattle.ug_adjout.specs.Tables.{has, value_at, rows_after};
ghost use Rattle.ug_adjout.specs.Pending.{IsExact, nothing_out, with_desired, with_all_forced, with_formatted};
ghost use Rattle.ug_intern.specs.Pools.{held, uses_of};
ghost use Rattle.ug_pack.specs.Ready.{key_order};
ghost use Rattle.ug_groups.specs.Values.{value_in};
ghost use Rattle.ug_groups.specs.Holders.{holds, rows_of, IsCounted, HasRoom};

use crate::holding::{hold_all, let_all_go, row_after};
use crate::side::Side;
use crate::table::Table;
use std::alloc::Global;
use std::marker::Model;
use ug_adjout::{AdjOut, Marked};
use ug_intern::{AttrId, Pool};
use ug_pack::Routes;
use ug_short_key::V4Key;
use ug_types::{Family, Key, KeyList, NoMemory, OutAttrs};

/// The Adj-RIB-Out of peers of one family: IPv4 routes have keys of 12 bytes. Contracts see the keys as all see them.
#[derive(Drop)]
pub struct RibOut {
    table: Table,
}

impl Model for RibOut {
    ghost use Rattle.ug_groups.specs.FamilyRibs.{FamilyRib, rib_of};

    ghost Value = { FamilyRib };

    ghost view = { λ o. rib_of o.table };
}

impl RibOut {
    /// The one without routes. It takes no memory.
    pub fn new(alloc: Global, family: Family) -> RibOut
        ensures { result ≡ record { family = family; adj = nothing_out } }
    {
        let table = match family {
            Family::V4 => Table::V4(AdjOut::new(alloc)),
            Family::V6 => Table::V6(AdjOut::new(alloc)),
        };
        RibOut { table }
    }

    /// The key is desired so from now on. What it was before. Running out of memory changes nothing.
    pub fn want(&mut self, key: &Key, id: Option<AttrId>) -> Result<Option<AttrId>, NoMemory>
        requires family { key.now.prefix.family ≡ self.old.family }
        ensures was { IfOk result (λ was. was ≡ value_at key_order self.old.adj.desired key.now) }
        ensures adj { OnOk result (self.new.adj ≡ with_desired key_order nat_eq self.old.adj key.now id) }
        ensures err { OnErr result (self.new ≡ self.old) }
        ensures family { self.new.family ≡ self.old.family }
    {
        match &mut self.table {
            Table::V4(adj) => {
                let key = V4Key::narrow(key);
                match id {
                    Some(id) => adj.set(key, id),
                    None => adj.clear(&key),
                }
            }
            Table::V6(adj) => match id {
                Some(id) => adj.set(*key, id),
                None => adj.clear(key),
            },
        }
    }

    /// A key that waits is formatted as it is desired, and forced no more. It takes no memory.
    pub fn mark(&mut self, key: &Key) -> Marked
        requires family { key.now.prefix.family ≡ self.old.family }
        requires pending { has key_order self.old.adj.pending key.now ≡ true }
        ensures was { result.was ≡ value_at key_order self.old.adj.formatted key.now }
        ensures now { result.now ≡ value_at key_order self.old.adj.desired key.now }
        ensures adj { self.new.adj ≡ with_formatted key_order nat_eq self.old.adj key.now }
        ensures family { self.new.family ≡ self.old.family }
    {
        let marked = match &mut self.table {
            Table::V4(adj) => adj.mark_formatted(&V4Key::narrow(key)),
            Table::V6(adj) => adj.mark_formatted(key),
        };
        let Ok(marked) = marked else { unreachable!() };
        marked
    }

    /// All keys of both tables are forced. After running out of memory some are.
    pub fn force_all(&mut self) -> Result<(), NoMemory>
        ensures adj { OnOk result (self.new.adj ≡ with_all_forced key_order nat_eq self.old.adj) }
        ensures family { self.new.family ≡ self.old.family }
    {
        match &mut self.table {
            Table::V4(adj) => adj.force_all(),
            Table::V6(adj) => adj.force_all(),
        }
    }

    /// What the key is desired with.
    pub fn desired(&self, key: &Key) -> Option<AttrId>
        requires family { key.now.prefix.family ≡ self.now.family }
        ensures { result ≡ value_at key_order self.now.adj.desired key.now }
    {
        match &self.table {
            Table::V4(adj) => adj.desired(&V4Key::narrow(key)),
            Table::V6(adj) => adj.desired(key),
        }
    }

    /// The least row of the table above the key, or the first one; None exactly where there is none.
    pub fn row_after(&self, side: Side, key: Option<&Key>) -> Option<(Key, AttrId)>
        requires family { IfSome (option_copied key) (λ q. q.prefix.family ≡ self.now.family) }
        ensures { result ≡ slice_get (rows_after key_order (option_copied key.entry) (rows_of side self.now.adj)) 0 }
    {
        match &self.table {
            Table::V4(adj) => widened(row_after(adj, side, narrowed(key).as_ref())),
            Table::V6(adj) => row_after(adj, side, key),
        }
    }

    /// How many keys have a row: no table has more.
    pub fn row_count(&self) -> usize
        ensures formatted { length self.now.adj.formatted ≤ result }
        ensures desired { length self.now.adj.desired ≤ result }
        ensures small { result < 2 ^ 64 }
    {
        match &self.table {
            Table::V4(adj) => adj.row_count(),
            Table::V6(adj) => adj.row_count(),
        }
    }

    /// Whether keys are pending.
    pub fn is_pending(&self) -> bool
        ensures { result ≡ not (is_empty self.now.adj.pending) }
    {
        match &self.table {
            Table::V4(adj) => adj.pending_len() > 0,
            Table::V6(adj) => adj.pending_len() > 0,
        }
    }

    /// Whether no key is forced.
    pub fn is_unforced(&self) -> bool
        ensures { result ≡ is_empty self.now.adj.forced }
    {
        match &self.table {
            Table::V4(adj) => !adj.has_forced(),
            Table::V6(adj) => !adj.has_forced(),
        }
    }

    /// Each of its ids is held once more.
    pub fn hold_ids(&self, pool: &mut Pool<OutAttrs>)
        requires exact { IsExact key_order nat_eq self.now.adj }
        requires counted { IsCounted pool.old self.now.adj }
        requires room { HasRoom (length self.now.adj.formatted + length self.now.adj.desired) pool.old }
        ensures uses { (id : ℕ) → uses_of (held pool.new id) ≡ uses_of (held pool.old id) + holds self.now.adj id }
        ensures values { (id : ℕ) → value_in pool.new id ≡ value_in pool.old id }
    {
        match &self.table {
            Table::V4(adj) => {
                hold_all(adj, Side::Formatted, pool);
                hold_all(adj, Side::Desired, pool);
            }
            Table::V6(adj) => {
                hold_all(adj, Side::Formatted, pool);
                hold_all(adj, Side::Desired, pool);
            }
        }
    }

    /// Each of its ids is held once less.
    pub fn let_ids_go(&self, pool: &mut Pool<OutAttrs>)
        requires exact { IsExact key_order nat_eq self.now.adj }
        requires counted { IsCounted pool.old self.now.adj }
        ensures uses { (id : ℕ) → uses_of (held pool.new id) + holds self.now.adj id ≡ uses_of (held pool.old id) }
        ensures values { (id : ℕ) → IsSome (held pool.new id) → value_in pool.new id ≡ value_in pool.old id }
    {
        match &self.table {
            Table::V4(adj) => {
                let_all_go(adj, Side::Formatted, pool);
                let_all_go(adj, Side::Desired, pool);
            }
            Table::V6(adj) => {
                let_all_go(adj, Side::Formatted, pool);
                let_all_go(adj, Side::Desired, pool);
            }
        }
    }

    /// An equal one of its own.
    pub fn copy(&self) -> Result<RibOut, NoMemory>
        ensures { IfOk result (λ copy. copy ≡ self.now) }
    {
        let table = match &self.table {
            Table::V4(adj) => Table::V4(adj.copy()?),
            Table::V6(adj) => Table::V6(adj.copy()?),
        };
        Ok(RibOut { table })
    }
}

/// The same key in few bytes, where there is one.
fn narrowed(key: Option<&Key>) -> Option<V4Key>
    requires { IfSome (option_copied key) (λ q. q.prefix.family ≡ V4) }
    ensures { result ≡ option_copied key.entry }
{
    match key {
        Some(key) => Some(V4Key::narrow(key)),
        None => None,
    }
}

/// The same row with its key as all see it.
fn widened(row: Option<(V4Key, AttrId)>) -> Option<(Key, AttrId)>
    ensures { result ≡ row }
{
    match row {
        Some((key, id)) => Some((key.widen(), id)),
        None => None,
    }
}

impl Routes for RibOut {
    ghost adj = { λ o. o.adj };

    fn first_withdrawal(&self) -> Option<Key> {
        match &self.table {
            Table::V4(adj) => Routes::first_withdrawal(adj),
            Table::V6(adj) => Routes::first_withdrawal(adj),
        }
    }

    fn first_withdrawals(&self, alloc: Global, budget: usize) -> Result<KeyList<Key>, NoMemory> {
        match &self.table {
            Table::V4(adj) => Routes::first_withdrawals(adj, alloc, budget),
            Table::V6(adj) => Routes::first_withdrawals(adj, alloc, budget),
        }
    }

    fn first_announcement(&self) -> Option<(Key, AttrId)> {
        match &self.table {
            Table::V4(adj) => Routes::first_announcement(adj),
            Table::V6(adj) => Routes::first_announcement(adj),
        }
    }

    fn first_alike(&self, alloc: Global, budget: usize) -> Result<KeyList<Key>, NoMemory> {
        match &self.table {
            Table::V4(adj) => Routes::first_alike(adj, alloc, budget),
            Table::V6(adj) => Routes::first_alike(adj, alloc, budget),
        }
    }
}
