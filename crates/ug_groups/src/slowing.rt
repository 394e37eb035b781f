//! Slow: those at the front of a full queue leave it together, with a copy.

ghost use Rattle.std.specs.Prelude.{◌≡◌, ◌+◌, ◌≤◌, ◌<◌, true, false, length, Some, OnOk, IfOk};
ghost use Rattle.ug_group_rules.specs.Machine.{slow_of, subgroup_at};
ghost use Rattle.ug_queue.specs.Queues.{place_of};
ghost use Rattle.ug_groups.specs.Rows.{Row, row_at, any_at, must_part_row};
ghost use Rattle.ug_groups.specs.Changes.{seat_listed};
ghost use Rattle.ug_groups.specs.Fronts.{is_first, AreCollected};
ghost use Rattle.ug_groups.specs.Members.{system};
ghost use Rattle.ug_groups.specs.Kept.{AreSeated, IsKept};
ghost use Rattle.ug_groups.specs.Done.{IsAt};

use crate::Subgroups;
use crate::member::Member;
use crate::places::{seat_at, sub_at};
use std::alloc::Global;
use ug_types::{NoMemory, PeerId, PeerList, Sequence};
use ug_world::World;

/// Those at the front of a subgroup's queue leave it together, with a copy, whose number is answered.
pub fn slow(
    alloc: Global,
    world: &World,
    made: u64,
    subgroups: &mut Subgroups,
    members: &mut [Member],
    sub: u32,
) -> Result<u32, NoMemory>
    requires kept { IsKept world.now false made subgroups.old members.old }
    requires may { any_at (must_part_row world.now.local.slow_after) (row_at sub subgroups.old) ≡ true }
    ensures number { IfOk result (λ n. n ≡ length subgroups.old) }
    ensures done { OnOk result (IsAt (slow_of sub (subgroup_at sub (system world.now false made subgroups.old members.old)) (system world.now false made subgroups.old members.old)) world.now false made subgroups.new members.new) }
{
    subgroups.know_rows();
    let front = front_of(alloc, world, subgroups, members, sub)?;
    subgroups.unstick(sub);
    let new = subgroups.split(sub, &front)?;
    seat_all(members, front.as_slice(), new);
    Ok(new)
}

/// Those who stand at the front of its queue.
fn front_of(
    alloc: Global,
    world: &World,
    subgroups: &Subgroups,
    members: &[Member],
    sub: u32,
) -> Result<PeerList, NoMemory>
    requires { AreSeated subgroups.now members.now }
    ensures { IfOk result (λ front. (r : Row) → row_at sub subgroups.now ≡ Some r → AreCollected r.queue (length world.now.peers) front.items) }
{
    let mut front = Sequence::new(alloc);
    for id in 0..world.peers() {
        add_first(subgroups, members, sub, id, &mut front)?;
    }
    Ok(front)
}

/// Adds a peer, if it stands there.
fn add_first(
    subgroups: &Subgroups,
    members: &[Member],
    sub: u32,
    id: PeerId,
    front: &mut PeerList,
) -> Result<(), NoMemory>
    requires { AreSeated subgroups.now members.now }
    ensures { OnOk result ((r : Row) → row_at sub subgroups.now ≡ Some r → AreCollected r.queue id front.old.items → AreCollected r.queue (id + 1) front.new.items) }
{
    if !is_first(subgroups, members, sub, id) {
        return Ok(());
    }
    let Ok(()) = front.push(id) else {
        return Err(NoMemory);
    };
    Ok(())
}

/// Whether a peer sits in the subgroup, at the front of its queue.
fn is_first(subgroups: &Subgroups, members: &[Member], sub: u32, id: PeerId) -> bool
    requires { AreSeated subgroups.now members.now }
    ensures { (r : Row) → row_at sub subgroups.now ≡ Some r → result ≡ is_first (place_of r.queue id) }
{
    let Some(own) = sub_at(members, id as usize) else {
        return false;
    };
    if own != sub {
        return false;
    }
    subgroups.at_front(sub, id)
}

/// Those listed sit there now.
fn seat_all(members: &mut [Member], listed: &[PeerId], sub: u32)
    ensures { members.new ≡ seat_listed sub listed.now members.old }
{
    let [first, rest @ ..] = listed else {
        return;
    };
    seat_at(members, *first as usize, Some(sub));
    seat_all(members, rest, sub);
}
