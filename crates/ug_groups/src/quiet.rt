//! What is left to be done by lanes.

ghost use Rattle.std.specs.Prelude.{◌≡◌, ◌+◌, ◌*◌, ◌-◌, ◌^◌, ◌<◌, ◌≤◌, nat_lt, not, ◌&&◌, ◌==◌, length};
ghost use Rattle.ug_group_rules.specs.Machine.{owes, are_quiet};
ghost use Rattle.ug_groups.specs.Rows.{must_part_row, some_row, has_packets, some_merge};
ghost use Rattle.ug_group_rules.specs.Rules.{due, rest_due};
ghost use Rattle.std.specs.Option.{option_map};
ghost use Rattle.ug_groups.specs.Members.{seat_in, members_from, sub_at};
ghost use Rattle.ug_groups.specs.Kept.{AreSeated};
ghost use Rattle.ug_groups.specs.Steps.{WereKept};

use crate::Subgroups;
use crate::member::Member;
use crate::places::sub_at;
use crate::settling::is_ordered;
use ug_types::PeerId;
use ug_world::World;

/// How many packets a peer has still to take.
fn left(subgroups: &Subgroups, members: &[Member], peer: PeerId) -> usize
    requires { AreSeated subgroups.now members.now }
    ensures { result ≡ rest_due (option_map (seat_in subgroups.now peer) (sub_at peer members.now)) }
{
    match sub_at(members, peer as usize) {
        None => 0,
        Some(sub) => subgroups.left(sub, peer),
    }
}

/// The same, where `held` says whether any queue holds a packet: no member is looked up where none does.
fn left_of(held: bool, subgroups: &Subgroups, members: &[Member], peer: PeerId) -> usize
    requires seated { AreSeated subgroups.now members.now }
    requires held { held ≡ some_row has_packets subgroups.now }
    ensures { result ≡ rest_due (option_map (seat_in subgroups.now peer) (sub_at peer members.now)) }
{
    if held {
        return left(subgroups, members, peer);
    }
    0
}

/// How many steps of lanes are due at most.
pub fn due_of(world: &World, subgroups: &Subgroups, members: &[Member]) -> u64
    requires { WereKept world.now subgroups.now members.now }
    ensures { result ≡ due world.now.peers (members_from subgroups.now 0 members.now) }
{
    subgroups.know_rows();
    let limit = world.local().queue_limit;
    let held = subgroups.some_have_packets();
    let mut due: u64 = 0;
    for place in 0..members.len() {
        let peer = place as PeerId;
        let left = left_of(held, subgroups, members, peer);
        due += due_at(&members[place], world.session(peer), left, limit);
    }
    due
}

/// How many are due at a peer, which has had so many sessions, and has so many packets to take.
fn due_at(member: &Member, sessions: u32, left: usize, limit: u32) -> u64
    requires few { length member.now.unlost.items ≤ member.now.begun }
    requires short { left ≤ limit }
    ensures due { result ≡ 2 * (sessions - member.now.begun) + left + length member.now.unlost.items }
    ensures bounded { result ≤ 2 ^ 35 }
{
    let begins = 2 * (sessions.saturating_sub(member.begun) as u64);
    begins + left as u64 + member.unlost.len() as u64
}

/// Whether each peer's sessions are all begun, and it has taken all packets.
pub fn are_quiet(world: &World, subgroups: &Subgroups, members: &[Member]) -> bool
    requires { WereKept world.now subgroups.now members.now }
    ensures { result ≡ are_quiet world.now.peers (members_from subgroups.now 0 members.now) }
{
    for place in 0..members.len() {
        let peer = place as PeerId;
        let left = left(subgroups, members, peer);
        if !is_quiet(&members[place], world.session(peer), left) {
            return false;
        }
    }
    true
}

fn is_quiet(member: &Member, sessions: u32, left: usize) -> bool
    ensures { result ≡ (not (nat_lt member.now.begun sessions) && (left == 0)) }
{
    member.begun >= sessions && left == 0
}

/// Whether everything is told.
pub fn is_drained(world: &World, subgroups: &Subgroups, members: &[Member]) -> bool
    requires { WereKept world.now subgroups.now members.now }
    ensures { result ≡ ((not (some_merge subgroups.now) && not (some_row (must_part_row world.now.local.slow_after) subgroups.now)) && (not (some_row (λ r. owes r.sub) subgroups.now) && are_quiet world.now.peers (members_from subgroups.now 0 members.now))) }
{
    is_ordered(world, subgroups) && (!subgroups.some_owes() && are_quiet(world, subgroups, members))
}
