//! Lanes: what is next for a peer, and the loss of a session.

ghost use Rattle.std.specs.Prelude.{◌≡◌, ◌<◌, ◌≤◌, length, slice_get, Some};
ghost use Rattle.ug_board.specs.Rules.{buffer_size};
ghost use Rattle.ug_group_rules.specs.Machine as machine;
ghost use Rattle.ug_group_rules.specs.Machine.{has_unlost};
ghost use Rattle.ug_groups.specs.Rows.{Rows};
ghost use Rattle.ug_group_rules.specs.Rules.{at_rest};
ghost use Rattle.ug_groups.specs.Members.{system, members_from};
ghost use Rattle.ug_groups.specs.Kept.{IsKept};
ghost use Rattle.ug_groups.specs.Steps.{IsStepped, WereKept, IsLost, IsNoted};

use crate::Subgroups;
use crate::leaving::leave;
use crate::member::{Member, begin, forget, has_unlost};
use ug_board::LaneSaid;
use ug_types::PeerId;
use ug_world::World;

/// What is next for a peer: the first session that was started and not begun, or else the packet at its cursor. It takes no
/// memory.
pub fn next(
    world: &World,
    closed: bool,
    made: u64,
    subgroups: &mut Subgroups,
    members: &mut [Member],
    peer: PeerId,
    buf: &mut [u8],
) -> LaneSaid
    requires kept { IsKept world.now closed made subgroups.old members.old }
    requires room { buffer_size ≤ length buf.old }
    ensures { IsStepped world.now closed made peer (system world.now closed made subgroups.old members.old) result subgroups.new members.new buf.new }
{
    let place = peer as usize;
    if place >= members.len() {
        return at_rest(closed);
    }
    let sessions = world.session(peer);
    let member = &members[place];
    let begun = member.begun;
    let sub = member.sub;
    if begun < sessions {
        let member = &mut members[place];
        begin(member, sessions);
        return LaneSaid::Begun {
            session: member.begun,
        };
    }
    if begun == 0 {
        return at_rest(closed);
    }
    let Some(sub) = sub else {
        return at_rest(closed);
    };
    let ends = world.peer(peer).ends();
    let Some(handed) = subgroups.take(sub, peer, &ends, buf) else {
        return at_rest(closed);
    };
    let member = &mut members[place];
    member.handed += 1;
    LaneSaid::Hand {
        session: begun,
        made: handed.made,
        len: handed.len,
    }
}

/// Notes the loss of a session. In the present one nothing more is handed out. It takes no memory.
#[tactic(auto, using(crate::proofs::ListFacts::get_none))]
pub fn lose(
    world: &World,
    subgroups: &mut Subgroups,
    members: &mut [Member],
    peer: PeerId,
    session: u32,
)
    requires { WereKept world.now subgroups.old members.old }
    ensures { IsLost world.now peer session subgroups.old members.old subgroups.new members.new }
{
    let place = peer as usize;
    if place >= members.len() {
        return;
    }
    subgroups.know_rows();
    let sessions = world.session(peer);
    note(members, place, session);
    if session == sessions {
        leave(subgroups, members, peer);
    }
}

/// The loss is noted.
fn note(members: &mut [Member], place: usize, session: u32)
    requires { place < length members.old }
    ensures { IsNoted place session members.old members.new }
{
    let member = &mut members[place];
    forget(member, session);
}

/// Whether the loss of this session may be noted.
pub fn may_lose(members: &[Member], place: usize, session: u32) -> bool
    ensures { (rows : Rows) → result ≡ has_unlost session (slice_get (members_from rows 0 members.now) place) }
{
    if place >= members.len() {
        return false;
    }
    let member = &members[place];
    has_unlost(member, session)
}

/// What is said where nothing is to be done.
fn at_rest(closed: bool) -> LaneSaid
    ensures { result ≡ at_rest closed }
{
    if closed {
        LaneSaid::Stop
    } else {
        LaneSaid::Idle
    }
}
