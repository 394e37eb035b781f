//! An event, as far as what subgroups desire.

ghost use Rattle.std.specs.Prelude.{◌≡◌, ◌+◌, ◌<◌, ◌≤◌, ◌⊎◌, None, IfOk, OnOk, OnErr};
ghost use Rattle.std.specs.List.Sorted.{IsStrictlySortedBy};
ghost use Rattle.std.specs.Map.{keys_of};
ghost use Rattle.ug_types.specs.Keys.{prefix_cmp};
ghost use Rattle.ug_events.specs.Events.{IsEvent};
ghost use Rattle.ug_events.specs.Views.{event_of};
ghost use Rattle.ug_world.specs.Good.{IsGoodWorld};
ghost use Rattle.ug_world.specs.After.{after};
ghost use Rattle.ug_world.specs.Verdicts.{verdict};
ghost use Rattle.ug_groups.specs.Rows.{Rows, each_row, keys_in};
ghost use Rattle.ug_groups.specs.TableChanges.{HaveKeys, IsList, IsOfPeer, IsUnder, keys_before, keys_decided, some_add_path};
ghost use Rattle.ug_groups.specs.Entered.{AreKept, entering, retabled_row};

use crate::Subgroups;
use crate::walking::{touch_keys, touch_prefix};
use std::alloc::Global;
use std::sync::ledger::Ledger;
use ug_events::Event;
use ug_group_rules::decides_for;
use ug_types::{Key, Name, NoMemory, Prefix, Steps};
use ug_world::World;

/// The world is the one after the event, and each subgroup desires what its key should have in it. For each distinct key of
/// theirs and each path that the event touches the outbound rules are run once. After running out of memory
/// the world is one of both, and nothing is said of the subgroups.
pub fn enter<L: Ledger>(
    alloc: Global,
    world: &mut World,
    subgroups: &mut Subgroups,
    event: &Event,
    steps: &mut Steps<L>,
) -> Result<(), NoMemory>
    requires accepted { verdict world.old (event_of event.now) ≡ None }
    requires form { IsEvent (event_of event.now) }
    requires version { world.old.version < 4294967295 }
    requires good { IsGoodWorld world.old }
    requires kept { AreKept world.old subgroups.old }
    ensures world { OnOk result (world.new ≡ after world.old (event_of event.now)) }
    ensures err { OnErr result ((world.new ≡ world.old) ⊎ (world.new ≡ after world.old (event_of event.now))) }
    ensures rows { OnOk result (subgroups.new ≡ each_row (retabled_row (after world.old (event_of event.now))) subgroups.old) }
    ensures steps { OnOk result (steps.new ≡ steps.old + entering (event_of event.now) world.old subgroups.old) }
    ensures most { steps.new ≤ steps.old + entering (event_of event.now) world.old subgroups.old }
    ensures counted { steps.old ≤ steps.new }
{
    match event {
        Event::Paths { prefix, .. } | Event::Withdraw { prefix } => {
            enter_paths(alloc, world, subgroups, event, prefix, steps)
        }
        Event::List { name, .. } => enter_list(alloc, world, subgroups, event, name, steps),
        Event::Up { .. }
        | Event::Down { .. }
        | Event::Policy { .. }
        | Event::Refresh { .. }
        | Event::Receive { .. }
        | Event::Orf { .. } => enter_peer(alloc, world, event),
    }
}

/// The same of an event about the paths of a prefix.
fn enter_paths<L: Ledger>(
    alloc: Global,
    world: &mut World,
    subgroups: &mut Subgroups,
    event: &Event,
    prefix: &Prefix,
    steps: &mut Steps<L>,
) -> Result<(), NoMemory>
    requires about { IsUnder prefix.now (event_of event.now) }
    requires accepted { verdict world.old (event_of event.now) ≡ None }
    requires form { IsEvent (event_of event.now) }
    requires version { world.old.version < 4294967295 }
    requires good { IsGoodWorld world.old }
    requires kept { AreKept world.old subgroups.old }
    ensures world { OnOk result (world.new ≡ after world.old (event_of event.now)) }
    ensures err { OnErr result ((world.new ≡ world.old) ⊎ (world.new ≡ after world.old (event_of event.now))) }
    ensures rows { OnOk result (subgroups.new ≡ each_row (retabled_row (after world.old (event_of event.now))) subgroups.old) }
    ensures steps { OnOk result (steps.new ≡ steps.old + entering (event_of event.now) world.old subgroups.old) }
    ensures most { steps.new ≤ steps.old + entering (event_of event.now) world.old subgroups.old }
    ensures counted { steps.old ≤ steps.new }
{
    know_order(world);
    let groups = subgroups.groups()?;
    let groups = groups.as_slice();
    let before = keys_before(alloc, world, subgroups, groups, prefix)?;
    let row = world.row_of(alloc, event)?;
    let paths = row.as_slice();
    touch_prefix(
        alloc, world, subgroups, groups, prefix, &before, paths, steps,
    )?;
    world.take_row(alloc, event, row)
}

/// The same of new entries of the prefix list of that name. Where it decides for no key, no path is looked at.
fn enter_list<L: Ledger>(
    alloc: Global,
    world: &mut World,
    subgroups: &mut Subgroups,
    event: &Event,
    name: &Name,
    steps: &mut Steps<L>,
) -> Result<(), NoMemory>
    requires about { IsList name.now (event_of event.now) }
    requires accepted { verdict world.old (event_of event.now) ≡ None }
    requires form { IsEvent (event_of event.now) }
    requires version { world.old.version < 4294967295 }
    requires good { IsGoodWorld world.old }
    requires kept { AreKept world.old subgroups.old }
    ensures world { OnOk result (world.new ≡ after world.old (event_of event.now)) }
    ensures err { OnErr result ((world.new ≡ world.old) ⊎ (world.new ≡ after world.old (event_of event.now))) }
    ensures rows { OnOk result (subgroups.new ≡ each_row (retabled_row (after world.old (event_of event.now))) subgroups.old) }
    ensures steps { OnOk result (steps.new ≡ steps.old + entering (event_of event.now) world.old subgroups.old) }
    ensures most { steps.new ≤ steps.old + entering (event_of event.now) world.old subgroups.old }
    ensures counted { steps.old ≤ steps.new }
{
    world.take(alloc, event)?;
    know_order(world);
    let groups = subgroups.groups()?;
    let groups = decided(alloc, world, subgroups, groups.as_slice(), name)?;
    touch_keys(alloc, world, subgroups, &groups, steps)
}

/// The world is the one after an event of a peer, which changes nothing that subgroups desire and asks nothing.
fn enter_peer(alloc: Global, world: &mut World, event: &Event) -> Result<(), NoMemory>
    requires about { IsOfPeer (event_of event.now) }
    requires accepted { verdict world.old (event_of event.now) ≡ None }
    requires form { IsEvent (event_of event.now) }
    requires version { world.old.version < 4294967295 }
    ensures world { OnOk result (world.new ≡ after world.old (event_of event.now)) }
    ensures err { OnErr result ((world.new ≡ world.old) ⊎ (world.new ≡ after world.old (event_of event.now))) }
    ensures rows { (rows : Rows) → AreKept world.old rows → rows ≡ each_row (retabled_row (after world.old (event_of event.now))) rows }
    ensures steps { (rows : Rows) → entering (event_of event.now) world.old rows ≡ 0 }
{
    world.take(alloc, event)
}

/// The keys under which the paths of a prefix stand with ADD-PATH, if the key of one of these subgroups has it.
fn keys_before(
    alloc: Global,
    world: &World,
    subgroups: &Subgroups,
    groups: &[u32],
    prefix: &Prefix,
) -> Result<Vec<Key>, NoMemory>
    requires { HaveKeys groups.now subgroups.now (keys_in subgroups.now) }
    ensures { IfOk result (λ keys. keys.items ≡ keys_before (some_add_path (keys_in subgroups.now)) world.now prefix.now) }
{
    if some_add_path(subgroups, groups) {
        return world.keys_to(alloc, true, prefix);
    }
    Ok(Vec::new(alloc))
}

/// Whether the key of one of these subgroups has ADD-PATH.
fn some_add_path(subgroups: &Subgroups, groups: &[u32]) -> bool
    requires { HaveKeys groups.now subgroups.now (keys_in subgroups.now) }
    ensures { result ≡ some_add_path (keys_in subgroups.now) }
{
    for g in groups {
        if subgroups.key(*g).add_path {
            return true;
        }
    }
    false
}

/// Those of these subgroups for whose keys the prefix list of that name decides.
fn decided(
    alloc: Global,
    world: &World,
    subgroups: &Subgroups,
    groups: &[u32],
    name: &Name,
) -> Result<Vec<u32>, NoMemory>
    requires { HaveKeys groups.now subgroups.now (keys_in subgroups.now) }
    ensures { IfOk result (λ some. HaveKeys some.items subgroups.now (keys_decided world.now name.now (keys_in subgroups.now))) }
{
    let mut some = Vec::new(alloc);
    for g in groups {
        if decides_for(world.policies(), subgroups.key(*g), name) {
            some.push(*g)?;
        }
    }
    Ok(some)
}

/// The prefixes stand in their order.
pub fn know_order(world: &World)
    ensures { IsStrictlySortedBy prefix_cmp (keys_of world.now.routes) }
{
    let _rows = world.rows_behind(None);
}
