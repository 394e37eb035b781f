//! What goes out of the paths of a prefix to the peers of a group key. For each path the outbound rules are run once.

ghost use Rattle.std.specs.Prelude.{◌≡◌, ◌+◌, ◌≤◌, false, length, IfOk, OnOk};
ghost use Rattle.std.specs.BTreeMap.{insert_entry};
ghost use Rattle.ug_outbound.specs.Outbound.{out};
ghost use Rattle.ug_pack.specs.Ready.{key_order};
ghost use Rattle.ug_group_rules.specs.Evaluations.{paths_heeded};
ghost use Rattle.ug_groups.specs.TableChanges.{clearing, of_first, with_each_path};

use crate::desiring::Changes;
use std::alloc::Global;
use std::collections::BTreeMap;
use std::sync::ledger::Ledger;
use ug_outbound::{GroupKey, outbound};
use ug_types::{Key, NoMemory, OutAttrs, Path, Prefix, Steps};
use ug_world::World;

/// What goes out of the first path.
pub fn first_out<L: Ledger>(
    alloc: Global,
    group: &GroupKey,
    world: &World,
    prefix: &Prefix,
    paths: &[Path],
    steps: &mut Steps<L>,
) -> Result<Option<OutAttrs>, NoMemory>
    ensures value { IfOk result (λ o. o ≡ of_first group.now world.now prefix.now paths.now) }
    ensures steps { steps.new ≡ steps.old + paths_heeded false paths.now }
{
    match paths {
        [] => Ok(None),
        [path, ..] => path_out(alloc, group, world, prefix, path, steps),
    }
}

/// What goes out of each path, where these keys were there before.
pub fn each_out<L: Ledger>(
    alloc: Global,
    group: &GroupKey,
    world: &World,
    prefix: &Prefix,
    before: &[Key],
    paths: &[Path],
    steps: &mut Steps<L>,
) -> Result<Changes, NoMemory>
    ensures changes { IfOk result (λ changes. changes.entries ≡ with_each_path group.now world.now prefix.now (clearing before.now) paths.now) }
    ensures steps { OnOk result (steps.new ≡ steps.old + length paths.now) }
    ensures most { steps.new ≤ steps.old + length paths.now }
    ensures counted { steps.old ≤ steps.new }
{
    let mut changes = cleared(alloc, before)?;
    put_each(&mut changes, alloc, group, world, prefix, paths, steps)?;
    Ok(changes)
}

/// These keys are desired no more.
fn cleared(alloc: Global, keys: &[Key]) -> Result<Changes, NoMemory>
    ensures { IfOk result (λ changes. changes.entries ≡ clearing keys.now) }
{
    let mut changes = BTreeMap::new(alloc);
    for key in keys {
        put(&mut changes, *key, None)?;
    }
    Ok(changes)
}

/// Puts in what goes out of each path, the last path first.
fn put_each<L: Ledger>(
    changes: &mut Changes,
    alloc: Global,
    group: &GroupKey,
    world: &World,
    prefix: &Prefix,
    paths: &[Path],
    steps: &mut Steps<L>,
) -> Result<(), NoMemory>
    ensures changes { OnOk result (changes.new.entries ≡ with_each_path group.now world.now prefix.now changes.old.entries paths.now) }
    ensures steps { OnOk result (steps.new ≡ steps.old + length paths.now) }
    ensures most { steps.new ≤ steps.old + length paths.now }
    ensures counted { steps.old ≤ steps.new }
{
    match paths {
        [] => Ok(()),
        [path, rest @ ..] => {
            put_each(changes, alloc, group, world, prefix, rest, steps)?;
            let value = path_out(alloc, group, world, prefix, path, steps)?;
            let key = Key {
                prefix: *prefix,
                id: path.id,
            };
            put(changes, key, value)
        }
    }
}

fn put(changes: &mut Changes, key: Key, value: Option<OutAttrs>) -> Result<(), NoMemory>
    ensures { OnOk result (changes.new.entries ≡ insert_entry key_order changes.old.entries key value) }
{
    changes.insert(key, value)?;
    Ok(())
}

/// What goes out of a path.
fn path_out<L: Ledger>(
    alloc: Global,
    group: &GroupKey,
    world: &World,
    prefix: &Prefix,
    path: &Path,
    steps: &mut Steps<L>,
) -> Result<Option<OutAttrs>, NoMemory>
    ensures value { IfOk result (λ o. o ≡ out group.now world.now.tables world.now.local prefix.now path.now) }
    ensures step { steps.new ≡ steps.old + 1 }
{
    outbound(
        alloc,
        group,
        world.policies(),
        world.local(),
        prefix,
        path,
        steps,
    )
}
