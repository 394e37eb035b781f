//! Subgroups desire what goes out of paths.

ghost use Rattle.std.specs.Prelude.{◌≡◌, ◌+◌, ◌≤◌, ◌==◌, false, true, [], Some, OnOk};
ghost use Rattle.std.specs.List.{AllByRecursion};
ghost use Rattle.ug_types.specs.Ip.{same_family};
ghost use Rattle.ug_outbound.specs.declared.key.GroupKey as keys;
ghost use Rattle.ug_group_rules.specs.Evaluations.{paths_heeded};
ghost use Rattle.ug_groups.specs.TableChanges.{HasKey, IsOwnKey, changes_to, key_at, number_of, reached, with_changes};

use crate::Subgroups;
use crate::asking::{each_out, first_out};
use crate::desiring::{desire, desire_each};
use crate::reach::Reach;
use std::alloc::Global;
use std::sync::ledger::Ledger;
use ug_outbound::GroupKey;
use ug_types::{Key, NoMemory, Path, Prefix, Steps};
use ug_world::World;

/// They desire what goes out of the paths of a prefix, which with ADD-PATH had these keys before.
pub fn touch<L: Ledger>(
    alloc: Global,
    world: &World,
    subgroups: &mut Subgroups,
    reach: Reach,
    prefix: &Prefix,
    before: &[Key],
    paths: &[Path],
    steps: &mut Steps<L>,
) -> Result<(), NoMemory>
    requires there { HasKey (number_of reach) subgroups.old (λ key. Unit {0}) }
    requires before { AllByRecursion (IsOwnKey prefix.now) before.now }
    requires paths { AllByRecursion (λ p. (p.id == 0) ≡ false) paths.now }
    ensures rows { OnOk result ((key : keys.GroupKey) → key_at (number_of reach) subgroups.old ≡ Some key →
        subgroups.new ≡ reached reach key (with_changes (changes_to world.now prefix.now before.now paths.now key)) subgroups.old) }
    ensures steps { OnOk result ((key : keys.GroupKey) → key_at (number_of reach) subgroups.old ≡ Some key → steps.new ≡ steps.old + paths_heeded key.add_path paths.now) }
    ensures most { (key : keys.GroupKey) → key_at (number_of reach) subgroups.old ≡ Some key → steps.new ≤ steps.old + paths_heeded key.add_path paths.now }
    ensures counted { steps.old ≤ steps.new }
{
    if subgroups.key(reach.number()).add_path {
        return touch_each(alloc, world, subgroups, reach, prefix, before, paths, steps);
    }
    touch_first(alloc, world, subgroups, reach, prefix, paths, steps)
}

/// The same without ADD-PATH, where the first path alone goes out.
fn touch_first<L: Ledger>(
    alloc: Global,
    world: &World,
    subgroups: &mut Subgroups,
    reach: Reach,
    prefix: &Prefix,
    paths: &[Path],
    steps: &mut Steps<L>,
) -> Result<(), NoMemory>
    requires { HasKey (number_of reach) subgroups.old (λ key. key.add_path ≡ false) }
    ensures rows { OnOk result ((key : keys.GroupKey) → key_at (number_of reach) subgroups.old ≡ Some key →
        subgroups.new ≡ reached reach key (with_changes (changes_to world.now prefix.now [] paths.now key)) subgroups.old) }
    ensures steps { steps.new ≡ steps.old + paths_heeded false paths.now }
{
    let group = subgroups.key(reach.number());
    let value = first_out(alloc, group, world, prefix, paths, steps)?;
    if !is_own(group, prefix) {
        return Ok(());
    }
    let key = Key {
        prefix: *prefix,
        id: 0,
    };
    desire(subgroups, reach, &key, value)
}

/// The same with ADD-PATH, where each path goes out.
fn touch_each<L: Ledger>(
    alloc: Global,
    world: &World,
    subgroups: &mut Subgroups,
    reach: Reach,
    prefix: &Prefix,
    before: &[Key],
    paths: &[Path],
    steps: &mut Steps<L>,
) -> Result<(), NoMemory>
    requires there { HasKey (number_of reach) subgroups.old (λ key. key.add_path ≡ true) }
    requires before { AllByRecursion (IsOwnKey prefix.now) before.now }
    requires paths { AllByRecursion (λ p. (p.id == 0) ≡ false) paths.now }
    ensures rows { OnOk result ((key : keys.GroupKey) → key_at (number_of reach) subgroups.old ≡ Some key →
        subgroups.new ≡ reached reach key (with_changes (changes_to world.now prefix.now before.now paths.now key)) subgroups.old) }
    ensures steps { OnOk result (steps.new ≡ steps.old + paths_heeded true paths.now) }
    ensures most { steps.new ≤ steps.old + paths_heeded true paths.now }
    ensures counted { steps.old ≤ steps.new }
{
    let group = subgroups.key(reach.number());
    let changes = each_out(alloc, group, world, prefix, before, paths, steps)?;
    if !is_own(group, prefix) {
        return Ok(());
    }
    desire_each(subgroups, reach, changes)
}

/// Whether the prefix is of the key's family.
fn is_own(group: &GroupKey, prefix: &Prefix) -> bool
    ensures { result ≡ same_family group.now.family prefix.now.family }
{
    group.family == prefix.family
}
