//! New subgroups, and those that have another key.

ghost use Rattle.std.specs.Prelude.{◌≡◌, ◌+◌, ◌≤◌, Some, length, IfOk, IfSome, OnOk};
ghost use Rattle.ug_outbound.specs.declared.key.GroupKey as group_keys;
ghost use Rattle.ug_world.specs.Good.{IsGoodWorld};
ghost use Rattle.ug_groups.specs.Sent.{session_of};
ghost use Rattle.ug_groups.specs.Rows.{Row, HasRow, row_at, with_row, with_next};
ghost use Rattle.ug_groups.specs.TableChanges.{HasTableOf, IsFillable, asked_beside, key_at};
ghost use Rattle.ug_groups.specs.Entered.{AreKept, asking, fresh_row, rekeyed_to, retabled_row};

use crate::Subgroups;
use crate::entering::know_order;
use crate::reach::Reach;
use crate::walking::touch_world;
use std::alloc::Global;
use std::sync::ledger::Ledger;
use ug_outbound::GroupKey;
use ug_types::{NoMemory, Steps};
use ug_world::World;

/// A subgroup more, without members, of which every route is pending, and End-of-RIB due behind them. Its number is answered.
/// Where another has the key it takes that one's table, and else the outbound rules are run once for each path that is heeded.
pub fn add_fresh<L: Ledger>(
    alloc: Global,
    world: &World,
    subgroups: &mut Subgroups,
    key: GroupKey,
    steps: &mut Steps<L>,
) -> Result<u32, NoMemory>
    requires good { IsGoodWorld world.now }
    requires kept { AreKept world.now subgroups.old }
    ensures number { IfOk result (λ g. g ≡ length subgroups.old) }
    ensures rows { OnOk result (subgroups.new ≡ with_next (fresh_row key world.now) subgroups.old) }
    ensures steps { OnOk result (steps.new ≡ steps.old + asking world.now subgroups.old key) }
    ensures most { steps.new ≤ steps.old + asking world.now subgroups.old key }
    ensures counted { steps.old ≤ steps.new }
{
    let from = subgroups.of_key(&key);
    let limit = world.local().queue_limit as usize;
    let g = subgroups.add(key, limit)?;
    desire_wanted(alloc, world, subgroups, g, from, steps)?;
    Ok(g)
}

/// A subgroup has another key of the same sessions, and desires what peers of that key should have.
pub fn rekey_to<L: Ledger>(
    alloc: Global,
    world: &World,
    subgroups: &mut Subgroups,
    g: u32,
    key: GroupKey,
    steps: &mut Steps<L>,
) -> Result<(), NoMemory>
    requires there { HasRow g subgroups.old (λ r. session_of key ≡ session_of r.sub.key) }
    requires good { IsGoodWorld world.now }
    requires kept { AreKept world.now subgroups.old }
    ensures rows { OnOk result (subgroups.new ≡ with_row g (rekeyed_to key world.now) subgroups.old) }
    ensures steps { OnOk result (steps.new ≡ steps.old + asking world.now subgroups.old key) }
    ensures most { steps.new ≤ steps.old + asking world.now subgroups.old key }
    ensures counted { steps.old ≤ steps.new }
{
    let from = subgroups.of_key(&key);
    subgroups.rekey(g, key)?;
    desire_wanted(alloc, world, subgroups, g, from, steps)
}

/// It desires what its key should have: what another one of its key desires, or, where there is none, what goes out of all
/// paths of the world, among whose keys all stand that it desires.
fn desire_wanted<L: Ledger>(
    alloc: Global,
    world: &World,
    subgroups: &mut Subgroups,
    g: u32,
    from: Option<u32>,
    steps: &mut Steps<L>,
) -> Result<(), NoMemory>
    requires there { HasRow g subgroups.old (λ r. IsFillable world.now r.sub) }
    requires from { IfSome from (λ f. (r : Row) → row_at g subgroups.old ≡ Some r → HasTableOf world.now r.sub.key f subgroups.old) }
    requires good { IsGoodWorld world.now }
    ensures rows { OnOk result (subgroups.new ≡ with_row g (retabled_row world.now) subgroups.old) }
    ensures steps { OnOk result ((key : group_keys.GroupKey) → key_at g subgroups.old ≡ Some key → steps.new ≡ steps.old + asked_beside from world.now key) }
    ensures most { (key : group_keys.GroupKey) → key_at g subgroups.old ≡ Some key → steps.new ≤ steps.old + asked_beside from world.now key }
    ensures counted { steps.old ≤ steps.new }
{
    know_order(world);
    match from {
        Some(from) => subgroups.desire_as(g, from),
        None => touch_world(alloc, world, subgroups, Reach::One(g), steps),
    }
}
