//! Each group key is asked anew what goes out of paths.

ghost use Rattle.std.specs.Prelude.{◌≡◌, ◌+◌, ◌≤◌, Some, List, OnOk};
ghost use Rattle.std.specs.List.{AllByRecursion, sum_by};
ghost use Rattle.ug_outbound.specs.declared.key.GroupKey as group_keys;
ghost use Rattle.ug_world.specs.Good.{IsGoodWorld};
ghost use Rattle.ug_group_rules.specs.Evaluations.{all_heeded, paths_heeded};
ghost use Rattle.ug_groups.specs.Rows.{keys_in};
ghost use Rattle.ug_groups.specs.TableChanges.{AreKeys, AreNumbered, HasKey, HaveKeys, IsOwnKey, by_keys, changes_of, changes_to, each_by_key, key_at, number_of, reached, with_changes};

use crate::Subgroups;
use crate::reach::Reach;
use crate::touching::touch;
use std::alloc::Global;
use std::sync::ledger::Ledger;
use ug_types::{Key, NoMemory, Path, Prefix, Steps};
use ug_world::World;

/// Each subgroup desires what goes out of the paths of a prefix, which with ADD-PATH had these keys before, to the peers of its
/// key. The first subgroup of each key is given.
pub fn touch_prefix<L: Ledger>(
    alloc: Global,
    world: &World,
    subgroups: &mut Subgroups,
    groups: &[u32],
    prefix: &Prefix,
    before: &[Key],
    paths: &[Path],
    steps: &mut Steps<L>,
) -> Result<(), NoMemory>
    requires groups { HaveKeys groups.now subgroups.old (keys_in subgroups.old) }
    requires before { AllByRecursion (IsOwnKey prefix.now) before.now }
    requires paths { AreNumbered paths.now }
    ensures rows { OnOk result (subgroups.new ≡ each_by_key (λ key. with_changes (changes_to world.now prefix.now before.now paths.now key)) subgroups.old) }
    ensures steps { OnOk result (steps.new ≡ steps.old + sum_by (λ (key : group_keys.GroupKey). paths_heeded key.add_path paths.now) (keys_in subgroups.old)) }
    ensures most { steps.new ≤ steps.old + sum_by (λ (key : group_keys.GroupKey). paths_heeded key.add_path paths.now) (keys_in subgroups.old) }
    ensures counted { steps.old ≤ steps.new }
{
    for g in groups {
        let reach = Reach::Alike(*g);
        touch(alloc, world, subgroups, reach, prefix, before, paths, steps)?;
    }
    Ok(())
}

/// The subgroups of some keys desire what goes out of all paths of the world to the peers of their key. The first subgroup of
/// each of these keys is given.
pub fn touch_keys<L: Ledger>(
    alloc: Global,
    world: &World,
    subgroups: &mut Subgroups,
    groups: &[u32],
    steps: &mut Steps<L>,
) -> Result<(), NoMemory>
    requires keys { AreKeys groups.now subgroups.old }
    requires good { IsGoodWorld world.now }
    ensures rows { OnOk result ((keys : List group_keys.GroupKey) → HaveKeys groups.now subgroups.old keys →
        subgroups.new ≡ by_keys (λ key. with_changes (changes_of world.now world.now.routes key)) keys subgroups.old) }
    ensures steps { OnOk result ((keys : List group_keys.GroupKey) → HaveKeys groups.now subgroups.old keys →
        steps.new ≡ steps.old + sum_by (λ (key : group_keys.GroupKey). all_heeded key.add_path world.now.routes) keys) }
    ensures most { (keys : List group_keys.GroupKey) → HaveKeys groups.now subgroups.old keys →
        steps.new ≤ steps.old + sum_by (λ (key : group_keys.GroupKey). all_heeded key.add_path world.now.routes) keys }
    ensures counted { steps.old ≤ steps.new }
{
    for g in groups {
        touch_world(alloc, world, subgroups, Reach::Alike(*g), steps)?;
    }
    Ok(())
}

/// They desire what goes out of all paths of the world.
pub fn touch_world<L: Ledger>(
    alloc: Global,
    world: &World,
    subgroups: &mut Subgroups,
    reach: Reach,
    steps: &mut Steps<L>,
) -> Result<(), NoMemory>
    requires there { HasKey (number_of reach) subgroups.old (λ key. Unit {0}) }
    requires good { IsGoodWorld world.now }
    ensures rows { OnOk result ((key : group_keys.GroupKey) → key_at (number_of reach) subgroups.old ≡ Some key →
        subgroups.new ≡ reached reach key (with_changes (changes_of world.now world.now.routes key)) subgroups.old) }
    ensures steps { OnOk result ((key : group_keys.GroupKey) → key_at (number_of reach) subgroups.old ≡ Some key → steps.new ≡ steps.old + all_heeded key.add_path world.now.routes) }
    ensures most { (key : group_keys.GroupKey) → key_at (number_of reach) subgroups.old ≡ Some key → steps.new ≤ steps.old + all_heeded key.add_path world.now.routes }
    ensures counted { steps.old ≤ steps.new }
{
    for (prefix, paths) in world.rows_behind(None) {
        touch(alloc, world, subgroups, reach, &prefix, &[], paths, steps)?;
    }
    Ok(())
}
