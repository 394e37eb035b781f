//! An entry as it is stored, in few bytes.

ghost use Rattle.std.specs.Prelude.{◌≡◌, ◌<◌, List, length, slice_get, Some};
ghost use Rattle.ug_board.specs.Kept.{entry_of, IsWithin};
ghost use Rattle.ug_board.specs.Seen.{seen_step, seen_said, seen_entry};

use crate::entry::BoardEntry;
use crate::steps::{BoardSaid, BoardStep, LaneSaid, LaneStep};
use std::mem::size_of;
use ug_segchain::SegChain;
use ug_types::PeerId;

/// A job that was done, and what was said to it.
#[derive(Drop)]
pub(crate) struct Done<J, R> {
    pub(crate) job: J,
    pub(crate) said: R,
}

/// A packet that was handed out, whose numbers may each be the largest of its type.
#[derive(Clone, Copy, Drop)]
pub(crate) struct Packet {
    pub(crate) peer: PeerId,
    pub(crate) session: u32,
    pub(crate) len: u32,
    pub(crate) made: u64,
}

/// An entry. A packet whose session, length and number are small stands here; another stands in a list beside, and
/// here its place there.
#[derive(Drop)]
pub(crate) enum Kept<J, R> {
    Job {
        pass: u32,
        done: Box<Done<J, R>>,
    },
    Begun {
        pass: u32,
        peer: PeerId,
        session: u32,
    },
    Hand {
        session: u8,
        len: u16,
        pass: u32,
        peer: PeerId,
        made: u32,
    },
    Beside {
        pass: u32,
        place: usize,
    },
    Lost {
        pass: u32,
        peer: PeerId,
        session: u32,
    },
}

// A step of a lane takes 16 bytes, and a job as many beside what stands behind its pointer.
const _: () = prove!(size_of::<Kept<u64, u64>>() == 16);

/// The pass that made it.
fn pass_of<J, R>(kept: &Kept<J, R>) -> u32
    ensures { (packets : List Packet) → result ≡ (entry_of packets kept.now).pass }
{
    match kept {
        Kept::Job { pass, .. } => *pass,
        Kept::Begun { pass, .. } => *pass,
        Kept::Hand { pass, .. } => *pass,
        Kept::Beside { pass, .. } => *pass,
        Kept::Lost { pass, .. } => *pass,
    }
}

/// The packet in a place.
fn packet_at(packets: &SegChain<Packet>, place: usize) -> Packet
    requires { place < length packets.now.items }
    ensures { slice_get packets.now.items place ≡ Some result }
{
    *packets.at(place)
}

/// The step. Packets that are not small stand in the list.
fn step_of<'a, J, R>(packets: &SegChain<Packet>, kept: &'a Kept<J, R>) -> BoardStep<&'a J>
    requires { IsWithin (length packets.now.items) kept.now }
    ensures { seen_step result ≡ (entry_of packets.now.items kept.now).step }
{
    match kept {
        Kept::Job { done, .. } => BoardStep::Job(&done.job),
        Kept::Begun { peer, .. } => BoardStep::Lane(LaneStep::Next { peer: *peer }),
        Kept::Hand { peer, .. } => BoardStep::Lane(LaneStep::Next { peer: *peer }),
        Kept::Beside { place, .. } => BoardStep::Lane(LaneStep::Next {
            peer: packet_at(packets, *place).peer,
        }),
        Kept::Lost { peer, session, .. } => BoardStep::Lane(LaneStep::Lost {
            peer: *peer,
            session: *session,
        }),
    }
}

/// What is said of a packet.
fn handed(packet: Packet) -> LaneSaid
    ensures { result ≡ LaneSaid.Hand packet.session packet.made packet.len }
{
    LaneSaid::Hand {
        session: packet.session,
        made: packet.made,
        len: packet.len as usize,
    }
}

/// What was said to the step.
fn said_of<'a, J, R>(packets: &SegChain<Packet>, kept: &'a Kept<J, R>) -> BoardSaid<&'a R>
    requires { IsWithin (length packets.now.items) kept.now }
    ensures { seen_said result ≡ (entry_of packets.now.items kept.now).said }
{
    match kept {
        Kept::Job { done, .. } => BoardSaid::Job(&done.said),
        Kept::Begun { session, .. } => BoardSaid::Lane(LaneSaid::Begun { session: *session }),
        Kept::Hand {
            session,
            len,
            made,
            ..
        } => BoardSaid::Lane(LaneSaid::Hand {
            session: *session as u32,
            made: *made as u64,
            len: *len as usize,
        }),
        Kept::Beside { place, .. } => BoardSaid::Lane(handed(packet_at(packets, *place))),
        Kept::Lost { .. } => BoardSaid::Lane(LaneSaid::Noted),
    }
}

/// The entry that is stored so. Packets that are not small stand in the list.
pub(crate) fn look<'a, J, R>(
    packets: &SegChain<Packet>,
    kept: &'a Kept<J, R>,
) -> BoardEntry<&'a J, &'a R>
    requires { IsWithin (length packets.now.items) kept.now }
    ensures { seen_entry result ≡ entry_of packets.now.items kept.now }
{
    BoardEntry {
        pass: pass_of(kept),
        step: step_of(packets, kept),
        said: said_of(packets, kept),
    }
}
