//! One subgroup desires what another one desires.

ghost use Rattle.std.specs.Prelude.{◌≡◌, ◌==◌, ℕ, Option, false, Some, None, IsSome, IfSome, OnOk, OnErr};
ghost use Rattle.std.specs.Option.{option_map};
ghost use Rattle.ug_pack.specs.Ready.{key_order, IsKeyOf};
ghost use Rattle.ug_adjout.specs.Tables.{value_at};
ghost use Rattle.ug_queue.specs.Spread.{value_of};
ghost use Rattle.ug_groups.specs.Holders.{IsCounted};
ghost use Rattle.ug_groups.specs.Sent.{session_of};
ghost use Rattle.ug_groups.specs.Standings.{seen, desiring};
ghost use Rattle.ug_groups.specs.declared.entry.Entry as entries;
ghost use Rattle.ug_groups.specs.Rows.{with_row, with_sub, tabled_row};
ghost use Rattle.ug_groups.specs.Entries.{key_of as group_of, row_in, rows_in, IsKept, AreKept, IsDone};
ghost use Rattle.ug_groups.specs.Walks.{IsNext, least, desired_in, IsWalked};

use crate::entry::Entry;
use crate::points;
use crate::side::Side;
use crate::subgroup::Subgroup;
use std::cmp::Ordering;
use ug_intern::{AttrId, Pool};
use ug_queue::Live;
use ug_types::{Key, NoMemory, OutAttrs};

/// The key of a row.
fn key_of(row: Option<(Key, AttrId)>) -> Option<Key>
    ensures { result ≡ option_map (λ r. r.0) row }
{
    match row {
        Some((key, _)) => Some(key),
        None => None,
    }
}

/// The lower one of two keys.
fn lower(a: Key, b: Key) -> Key
    ensures { Some result ≡ least (Some a) (Some b) }
{
    if b.cmp(&a) == Ordering::Less {
        return b;
    }
    a
}

/// The lower one of the keys that there are.
fn least(a: Option<Key>, b: Option<Key>) -> Option<Key>
    ensures { result ≡ least a b }
{
    match (a, b) {
        (Some(a), Some(b)) => Some(lower(a, b)),
        (Some(a), None) => Some(a),
        (None, b) => b,
    }
}

/// The first key behind `at` that one of the two desires.
fn next_key(
    one: &Subgroup,
    other: &Subgroup,
    pool: &Pool<OutAttrs>,
    at: &Option<Key>,
) -> Option<Key>
    requires alike { session_of other.now.point.key ≡ session_of one.now.point.key }
    requires family { IfSome at.now (λ q. q.prefix.family ≡ one.now.point.key.family) }
    requires counted_one { IsCounted pool.now one.now.point.adj }
    requires counted_other { IsCounted pool.now other.now.point.adj }
    ensures next { IsNext (seen pool.now one.now.point).out.desired (seen pool.now other.now.point).out.desired at.now result }
    ensures own { IfSome result (λ k. IsKeyOf one.now.point.key.family one.now.point.key.add_path k) }
{
    one.know_keys();
    other.know_keys();
    let first = key_of(one.row_after(Side::Desired, at.as_ref()));
    let second = key_of(other.row_after(Side::Desired, at.as_ref()));
    least(first, second)
}

/// A key is desired as the other one desires it.
fn desire_like(
    live: &mut Live<Entry>,
    pool: &mut Pool<OutAttrs>,
    g: u32,
    from: u32,
    key: &Key,
) -> Result<(), NoMemory>
    requires there { IsSome (value_of g live.old) }
    requires other { IsSome (value_of from live.old) }
    requires kept { AreKept pool.old live.old }
    requires own { IfSome (value_of g live.old) (λ e. IsKeyOf (group_of e).family (group_of e).add_path key.now) }
    requires family { IfSome (value_of from live.old) (λ f. key.now.prefix.family ≡ (group_of f).family) }
    ensures ok { OnOk result ((f : entries.Entry) → value_of from live.old ≡ Some f → IsDone pool.old pool.new live.old live.new g (with_sub (desiring key.now (value_at key_order (row_in pool.old f).sub.out.desired key.now)))) }
    ensures err { OnErr result (live.new ≡ live.old) }
    ensures pool { OnErr result (pool.new ≡ pool.old) }
{
    let other = &live.at(from).subgroup;
    other.know_keys();
    let id = other.desired(key);
    points::desire(live, pool, g, key, id)
}

/// The first key behind `at` that one of the two desires, by their numbers.
fn next_of(
    live: &Live<Entry>,
    pool: &Pool<OutAttrs>,
    g: u32,
    from: u32,
    at: &Option<Key>,
) -> Option<Key>
    requires there { IsSome (value_of g live.now) }
    requires other { IsSome (value_of from live.now) }
    requires kept { AreKept pool.now live.now }
    requires alike { (e f : entries.Entry) → value_of g live.now ≡ Some e → value_of from live.now ≡ Some f → session_of (group_of e) ≡ session_of (group_of f) }
    requires family { (f : entries.Entry) → value_of from live.now ≡ Some f → IfSome at.now (λ q. q.prefix.family ≡ (group_of f).family) }
    ensures next { (e f : entries.Entry) → value_of g live.now ≡ Some e → value_of from live.now ≡ Some f → IsNext (desired_in pool.now f) (desired_in pool.now e) at.now result }
    ensures own { (f : entries.Entry) → value_of from live.now ≡ Some f → IfSome result (λ k. IsKeyOf (group_of f).family (group_of f).add_path k) }
{
    let other = live.at(from);
    let mine = live.at(g);
    next_key(&other.subgroup, &mine.subgroup, pool, at)
}

/// Each key of both tables, in order, is desired as the other one desires it.
fn walk(
    live: &mut Live<Entry>,
    pool: &mut Pool<OutAttrs>,
    g: u32,
    from: u32,
) -> Result<(), NoMemory>
    requires apart { (g == from) ≡ false }
    requires there { IsSome (value_of g live.old) }
    requires other { IsSome (value_of from live.old) }
    requires kept { AreKept pool.old live.old }
    requires alike { (e f : entries.Entry) → value_of g live.old ≡ Some e → value_of from live.old ≡ Some f → session_of (group_of e) ≡ session_of (group_of f) }
    ensures kept { (next : ℕ) (hand : Option ℕ) → IsKept next hand pool.old live.old → IsKept next hand pool.new live.new }
    ensures ok { OnOk result (IsWalked pool.old pool.new live.old live.new g from) }
{
    let mut at = None;
    while let Some(key) = next_of(live, pool, g, from, &at) {
        desire_like(live, pool, g, from, &key)?;
        at = Some(key);
    }
    Ok(())
}

/// It desires what another one desires, and nothing else.
pub fn desire_as(
    live: &mut Live<Entry>,
    pool: &mut Pool<OutAttrs>,
    g: u32,
    from: u32,
) -> Result<(), NoMemory>
    requires there { IsSome (value_of g live.old) }
    requires other { IsSome (value_of from live.old) }
    requires kept { AreKept pool.old live.old }
    requires alike { (e f : entries.Entry) → value_of g live.old ≡ Some e → value_of from live.old ≡ Some f → session_of (group_of e) ≡ session_of (group_of f) }
    ensures kept { (next : ℕ) (hand : Option ℕ) → IsKept next hand pool.old live.old → IsKept next hand pool.new live.new }
    ensures rows { OnOk result ((f : entries.Entry) → value_of from live.old ≡ Some f → rows_in pool.new live.new ≡ with_row g (tabled_row (row_in pool.old f)) (rows_in pool.old live.old)) }
{
    live.at(g).subgroup.know_exact(pool);
    live.at(from).subgroup.know_exact(pool);
    if g == from {
        return Ok(());
    }
    walk(live, pool, g, from)
}
