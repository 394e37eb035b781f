//! Format: one packet is appended to a queue.

ghost use Rattle.std.specs.Prelude.{◌≡◌, ◌+◌, true, false, OnOk};
ghost use Rattle.ug_group_rules.specs.Machine.{format_of, subgroup_at};
ghost use Rattle.ug_groups.specs.Rows.{row_at, any_at, may_format_row};
ghost use Rattle.ug_groups.specs.Members.{system};
ghost use Rattle.ug_groups.specs.Kept.{IsKept};
ghost use Rattle.ug_groups.specs.Done.{IsAt};

use crate::Subgroups;
use crate::member::Member;
use ug_group_rules::wanted_laws;
use ug_types::NoMemory;
use ug_world::{World, sendable_laws};

/// A packet is formatted for a subgroup, and each member has it to take.
pub fn format(
    world: &World,
    made: u64,
    subgroups: &mut Subgroups,
    members: &[Member],
    sub: u32,
) -> Result<(), NoMemory>
    requires kept { IsKept world.now false made subgroups.old members.now }
    requires may { any_at may_format_row (row_at sub subgroups.old) ≡ true }
    ensures { OnOk result (IsAt (format_of sub (subgroup_at sub (system world.now false made subgroups.old members.now)) (system world.now false made subgroups.old members.now)) world.now false (made + 1) subgroups.new members.now) }
{
    sendable_laws();
    wanted_laws();
    subgroups.know_rows();
    subgroups.format(sub, made)
}
