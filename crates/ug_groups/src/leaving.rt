//! A peer leaves its subgroup.

ghost use Rattle.std.specs.Prelude.{◌≡◌, None, Some};
ghost use Rattle.ug_groups.specs.Rows.{Sits};
ghost use Rattle.ug_speaker.specs.Places.{change_at};
ghost use Rattle.ug_groups.specs.Changes.{with_sub, left_rows};
ghost use Rattle.ug_groups.specs.Members.{sub_at};
ghost use Rattle.ug_groups.specs.Kept.{AreSeated};

use crate::Subgroups;
use crate::member::Member;
use crate::places::{seat_at, sub_at};
use ug_types::PeerId;

/// A peer leaves: what it hasn't taken isn't sent. A subgroup without members is gone. It takes no memory.
#[tactic(auto, using(crate::proofs::Left::unseated))]
pub fn leave(subgroups: &mut Subgroups, members: &mut [Member], peer: PeerId)
    requires { AreSeated subgroups.old members.old }
    ensures rows { subgroups.new ≡ left_rows peer (sub_at peer members.old) subgroups.old }
    ensures members { members.new ≡ change_at (with_sub None) peer members.old }
{
    let Some(sub) = sub_at(members, peer as usize) else {
        return;
    };
    part(subgroups, sub, peer);
    seat_at(members, peer as usize, None);
}

/// A member leaves a subgroup, which is gone if it was the last.
fn part(subgroups: &mut Subgroups, sub: u32, peer: PeerId)
    requires { Sits peer sub subgroups.old }
    ensures { subgroups.new ≡ left_rows peer (Some sub) subgroups.old }
{
    subgroups.leave(sub, peer);
    if subgroups.member_count(sub) == 0 {
        subgroups.retire(sub);
    }
}
