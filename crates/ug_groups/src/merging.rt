//! Merge: the members of one subgroup move to the end of another's queue.

ghost use Rattle.std.specs.Prelude.{◌≡◌, ◌==◌, map, true, false, OnOk};
ghost use Rattle.std.specs.Option.{option_map};
ghost use Rattle.ug_group_rules.specs.Machine.{merge};
ghost use Rattle.ug_groups.specs.Rows.{row_at, any_at, may_merge_rows};
ghost use Rattle.ug_groups.specs.Changes.{moved_sub, moved_member};
ghost use Rattle.ug_groups.specs.Members.{system};
ghost use Rattle.ug_groups.specs.Kept.{IsKept};
ghost use Rattle.ug_groups.specs.Done.{IsAt};

use crate::Subgroups;
use crate::member::Member;
use ug_types::NoMemory;
use ug_world::World;

/// The members of the second move to the end of the first one's queue, and the second is gone.
pub fn merge(
    world: &World,
    made: u64,
    subgroups: &mut Subgroups,
    members: &mut [Member],
    sub: u32,
    other: u32,
) -> Result<(), NoMemory>
    requires kept { IsKept world.now false made subgroups.old members.old }
    requires other { (sub == other) ≡ false }
    requires may { any_at (λ r. any_at (λ s. may_merge_rows r s) (row_at other subgroups.old)) (row_at sub subgroups.old) ≡ true }
    ensures { OnOk result (IsAt (merge sub other (system world.now false made subgroups.old members.old)) world.now false made subgroups.new members.new) }
{
    subgroups.know_rows();
    subgroups.merge(sub, other)?;
    move_all(other, sub, members);
    Ok(())
}

/// Those who sat in one subgroup sit in another.
#[tactic(auto, using(crate::proofs::ListFacts::map_step, crate::proofs::ListFacts::map_end))]
fn move_all(from: u32, to: u32, members: &mut [Member])
    ensures { members.new ≡ map (moved_member from to) members.old }
{
    for member in members.iter_mut() {
        move_one(from, to, member);
    }
}

fn move_one(from: u32, to: u32, member: &mut Member)
    ensures { member.new ≡ moved_member from to member.old }
{
    member.sub = moved_from(from, to, member.sub);
}

fn moved_from(from: u32, to: u32, sub: Option<u32>) -> Option<u32>
    ensures { result ≡ option_map (moved_sub from to) sub }
{
    match sub {
        None => None,
        Some(sub) => { if sub == from { Some(to) } else { Some(sub) } }
    }
}
