//! Marks of how much peers were told.

ghost use Rattle.std.specs.Prelude.{◌≡◌, ℕ, ◌<◌, ◌&&◌, [], ◌∷◌, ◌++◌, Bool, Some, true, is_some, length, slice_get, IfOk, OnOk, ◌==◌, if◌then◌else◌};
ghost use Rattle.ug_board.specs.Deeds.{when};
ghost use Rattle.ug_events.specs.Views.{event_of};
ghost use Rattle.ug_world.specs.declared.peer_state.PeerState as peers;
ghost use Rattle.ug_world.specs.Touches.{is_about};
ghost use Rattle.ug_speaker.specs.Speech.{is_request};
ghost use Rattle.ug_group_rules.specs.Machine.{handed_now, mark_at, marks_at, seat_at};
ghost use Rattle.ug_groups.specs.Rows.{Rows};
ghost use Rattle.ug_groups.specs.Members.{members_from, system};

use crate::member::Member;
use crate::places::sub_at;
use std::alloc::Global;
use ug_events::Event;
use ug_types::{Mark, MarkList, Name, NoMemory, PeerId, Sequence};
use ug_world::World;

/// How much each live peer was told in its present session.
pub fn marks_of_all(alloc: Global, world: &World, members: &[Member]) -> Result<MarkList, NoMemory>
    ensures { IfOk result (λ marks. (closed : Bool) (made : ℕ) (rows : Rows) → marks.items ≡ marks_at (λ _. true) 0 world.now.peers (system world.now closed made rows members.now)) }
{
    let mut marks = Sequence::new(alloc);
    for id in 0..world.peers() {
        add_mark(world, members, id, &mut marks)?;
    }
    Ok(marks)
}

/// The mark of the live peer that asks for all routes by this event, or none. Peers are looked at only where the event asks for
/// routes.
pub fn marks_of_asker(
    alloc: Global,
    world: &World,
    event: &Event,
    members: &[Member],
) -> Result<MarkList, NoMemory>
    ensures { IfOk result (λ marks. (closed : Bool) (made : ℕ) (rows : Rows) → marks.items ≡ marks_at (λ s. is_request (event_of event.now) && is_about (event_of event.now) s) 0 world.now.peers (system world.now closed made rows members.now)) }
{
    if is_request(event) {
        return marks_of_each_asker(alloc, world, event, members);
    }
    Ok(Sequence::new(alloc))
}

/// The same, of all peers that the event is about: there is one at most.
fn marks_of_each_asker(
    alloc: Global,
    world: &World,
    event: &Event,
    members: &[Member],
) -> Result<MarkList, NoMemory>
    ensures { IfOk result (λ marks. (closed : Bool) (made : ℕ) (rows : Rows) → marks.items ≡ marks_at (λ s. is_request (event_of event.now) && is_about (event_of event.now) s) 0 world.now.peers (system world.now closed made rows members.now)) }
{
    let mut marks = Sequence::new(alloc);
    for id in 0..world.peers() {
        add_asker(world, event, members, id, &mut marks)?;
    }
    Ok(marks)
}

/// Adds the mark of a peer, where it is live and asks for all routes by this event.
fn add_asker(
    world: &World,
    event: &Event,
    members: &[Member],
    id: PeerId,
    marks: &mut MarkList,
) -> Result<(), NoMemory>
    requires { id < length world.now.peers }
    ensures { OnOk result ((closed : Bool) (made : ℕ) (rows : Rows) (s : peers.PeerState) → slice_get world.now.peers id ≡ Some s →
        marks.new.items ≡ marks.old.items ++ when ((is_request (event_of event.now) && is_about (event_of event.now) s) && is_some (seat_at id (system world.now closed made rows members.now))) (mark_at id s (system world.now closed made rows members.now) ∷ [])) }
{
    if asks_again(event, &world.peer(id).name) {
        add_mark(world, members, id, marks)?;
    }
    Ok(())
}

/// Adds the mark of a peer, where it is live.
#[tactic(auto, using(crate::proofs::MarkedPeers::mark_none, crate::proofs::MarkedPeers::mark_some))]
fn add_mark(
    world: &World,
    members: &[Member],
    id: PeerId,
    marks: &mut MarkList,
) -> Result<(), NoMemory>
    requires { id < length world.now.peers }
    ensures { OnOk result ((closed : Bool) (made : ℕ) (rows : Rows) (s : peers.PeerState) → slice_get world.now.peers id ≡ Some s →
        marks.new.items ≡ marks.old.items ++ when (is_some (seat_at id (system world.now closed made rows members.now))) (mark_at id s (system world.now closed made rows members.now) ∷ [])) }
{
    let Some(_sub) = sub_at(members, id as usize) else {
        return Ok(());
    };
    let session = world.session(id);
    let mark = Mark {
        version: world.version(),
        peer: id,
        session,
        handed: handed_now(members, id as usize, session),
    };
    let Ok(()) = marks.push(mark) else {
        return Err(NoMemory);
    };
    Ok(())
}

/// How many messages a peer was handed in that session.
fn handed_now(members: &[Member], place: usize, session: u32) -> u64
    ensures { (rows : Rows) → result ≡ handed_now session (slice_get (members_from rows 0 members.now) place) }
{
    if place >= members.len() {
        return 0;
    }
    let member = &members[place];
    handed_in(member, session)
}

fn handed_in(member: &Member, session: u32) -> u64
    ensures { result ≡ if member.now.begun == session then member.now.handed else 0 }
{
    if member.begun == session {
        member.handed
    } else {
        0
    }
}

/// Whether an event asks for all routes again.
fn is_request(event: &Event) -> bool
    ensures { result ≡ is_request (event_of event.now) }
{
    match event {
        Event::Refresh { .. } | Event::Receive { .. } => true,
        Event::Orf { message, .. } => message.now,
        Event::Paths { .. }
        | Event::Withdraw { .. }
        | Event::List { .. }
        | Event::Up { .. }
        | Event::Down { .. }
        | Event::Policy { .. } => false,
    }
}

/// Whether an event asks for all routes of the peer of that name again.
fn asks_again(event: &Event, name: &Name) -> bool
    ensures { (s : peers.PeerState) → s.peer.name ≡ name.now → result ≡ (is_request (event_of event.now) && is_about (event_of event.now) s) }
{
    match event {
        Event::Refresh { peer } | Event::Receive { peer } => name == peer,
        Event::Orf { peer, message } => message.now && name == peer,
        Event::Paths { .. }
        | Event::Withdraw { .. }
        | Event::List { .. }
        | Event::Up { .. }
        | Event::Down { .. }
        | Event::Policy { .. } => false,
    }
}
