//! A pool counts the holders of ids: one id in place of another, and all ids of a table.

ghost use Rattle.std.specs.Prelude.{◌≡◌, ◌≤◌, ◌+◌, ℕ, IsSome, length, slice_get, option_copied};
ghost use Rattle.ug_intern.specs.Pools.{held, uses_of};
ghost use Rattle.ug_adjout.specs.Tables.{IsTable, rows_after};
ghost use Rattle.ug_groups.specs.Values.{value_in};
ghost use Rattle.ug_groups.specs.Holders.{holders, rows_of, one_at, IsUsed, IsExchanged, HasRoom};

use crate::side::Side;
use ug_adjout::{AdjOut, OutKey};
use ug_intern::{AttrId, Pool};
use ug_types::OutAttrs;

/// An id, where there is one, is held once more.
fn hold(pool: &mut Pool<OutAttrs>, id: Option<AttrId>)
    requires used { IsUsed pool.old id }
    requires room { HasRoom 1 pool.old }
    ensures uses { (q : ℕ) → uses_of (held pool.new q) ≡ uses_of (held pool.old q) + one_at q id }
    ensures values { (q : ℕ) → value_in pool.new q ≡ value_in pool.old q }
{
    if let Some(id) = id {
        pool.share(id);
    }
}

/// An id, where there is one, is held once less.
fn let_go(pool: &mut Pool<OutAttrs>, id: Option<AttrId>)
    requires used { IsUsed pool.old id }
    ensures uses { (q : ℕ) → uses_of (held pool.new q) + one_at q id ≡ uses_of (held pool.old q) }
    ensures values { (q : ℕ) → IsSome (held pool.new q) → value_in pool.new q ≡ value_in pool.old q }
{
    if let Some(id) = id {
        pool.drop_one(id);
    }
}

/// One id is held in place of another.
pub fn exchange(pool: &mut Pool<OutAttrs>, was: Option<AttrId>, now: Option<AttrId>)
    requires was { IsUsed pool.old was }
    requires now { IsUsed pool.old now }
    requires room { HasRoom 1 pool.old }
    ensures exchanged { IsExchanged pool.old pool.new was now }
    ensures most { (q : ℕ) → uses_of (held pool.new q) ≤ uses_of (held pool.old q) + 1 }
{
    hold(pool, now);
    let_go(pool, was);
}

/// The least row of the table above the key, or the first one; None exactly where there is none.
pub fn row_after<K: OutKey>(adj: &AdjOut<K>, side: Side, key: Option<&K>) -> Option<(K, AttrId)>
    ensures { result ≡ slice_get (rows_after K.cmp (option_copied key.entry) (rows_of side adj.now)) 0 }
{
    match side {
        Side::Formatted => adj.formatted_after(key),
        Side::Desired => adj.desired_after(key),
    }
}

/// Each id of the table is held once more.
pub fn hold_all<K: OutKey>(adj: &AdjOut<K>, side: Side, pool: &mut Pool<OutAttrs>)
    requires sorted { IsTable K.cmp (rows_of side adj.now) }
    requires live { (id : ℕ) → holders id (rows_of side adj.now) ≤ uses_of (held pool.old id) }
    requires room { HasRoom (length (rows_of side adj.now)) pool.old }
    ensures uses { (id : ℕ) → uses_of (held pool.new id) ≡ uses_of (held pool.old id) + holders id (rows_of side adj.now) }
    ensures values { (id : ℕ) → value_in pool.new id ≡ value_in pool.old id }
{
    let mut at = None;
    while let Some(row) = row_after(adj, side, at.as_ref()) {
        pool.share(row.1);
        at = Some(row.0);
    }
}

/// Each id of the table is held once less.
pub fn let_all_go<K: OutKey>(adj: &AdjOut<K>, side: Side, pool: &mut Pool<OutAttrs>)
    requires sorted { IsTable K.cmp (rows_of side adj.now) }
    requires live { (id : ℕ) → holders id (rows_of side adj.now) ≤ uses_of (held pool.old id) }
    ensures uses { (id : ℕ) → uses_of (held pool.new id) + holders id (rows_of side adj.now) ≡ uses_of (held pool.old id) }
    ensures values { (id : ℕ) → IsSome (held pool.new id) → value_in pool.new id ≡ value_in pool.old id }
{
    let mut at = None;
    while let Some(row) = row_after(adj, side, at.as_ref()) {
        pool.drop_one(row.1);
        at = Some(row.0);
    }
}
