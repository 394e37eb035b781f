//! Keys that subgroups desire from now on.

ghost use Rattle.std.specs.Prelude.{◌≡◌, Some, OnOk};
ghost use Rattle.std.specs.List.{AllByRecursion};
ghost use Rattle.ug_outbound.specs.declared.key.GroupKey as keys;
ghost use Rattle.ug_pack.specs.Ready.{IsKeyOf};
ghost use Rattle.ug_groups.specs.Standings.{desiring};
ghost use Rattle.ug_groups.specs.TableChanges.{HasKey, key_at, number_of, reached, with_changes};

use crate::Subgroups;
use crate::reach::Reach;
use std::collections::BTreeMap;
use ug_types::{Key, NoMemory, OutAttrs};

/// Keys in key order, each with the value with which it is desired from now on, or with none.
pub type Changes = BTreeMap<Key, Option<OutAttrs>>;

/// The keys are desired so, one after the other.
pub fn desire_each(
    subgroups: &mut Subgroups,
    reach: Reach,
    changes: Changes,
) -> Result<(), NoMemory>
    requires { HasKey (number_of reach) subgroups.old (λ key. AllByRecursion (λ c. IsKeyOf key.family key.add_path c.0) changes.entries) }
    ensures { OnOk result ((key : keys.GroupKey) → key_at (number_of reach) subgroups.old ≡ Some key → subgroups.new ≡ reached reach key (with_changes changes.entries) subgroups.old) }
{
    for (key, value) in changes {
        desire(subgroups, reach, &key, value)?;
    }
    Ok(())
}

/// A key is desired with this value from now on, or no more.
#[tactic(auto, using(crate::proofs::Reached::has_row))]
pub fn desire(
    subgroups: &mut Subgroups,
    reach: Reach,
    key: &Key,
    value: Option<OutAttrs>,
) -> Result<(), NoMemory>
    requires { HasKey (number_of reach) subgroups.old (λ group. IsKeyOf group.family group.add_path key.now) }
    ensures { OnOk result ((group : keys.GroupKey) → key_at (number_of reach) subgroups.old ≡ Some group → subgroups.new ≡ reached reach group (desiring key.now value) subgroups.old) }
{
    match reach {
        Reach::One(g) => subgroups.desire_alone(g, key, value),
        Reach::Alike(g) => subgroups.desire(g, key, value),
    }
}
