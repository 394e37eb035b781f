//! The steps of a machine, and what it says to them.

use ug_types::PeerId;

/// A step of a lane, which sends to one peer.
#[derive(Clone, Copy, PartialEq, Eq)]
pub enum LaneStep {
    /// What is next to be done on the wire to the peer?
    Next { peer: PeerId },
    /// A call of the wire to the peer failed in this session.
    Lost { peer: PeerId, session: u32 },
}

/// What a machine says to the step of a lane.
#[derive(Clone, Copy, PartialEq, Eq)]
pub enum LaneSaid {
    /// This session begins.
    Begun { session: u32 },
    /// The first `len` bytes of the buffer are to be sent in this session. `made` is the number of the step that
    /// formatted them, counted from 0.
    Hand { session: u32, made: u64, len: usize },
    /// There is nothing to send for now.
    Idle,
    /// There is nothing more to send.
    Stop,
    /// The loss is noted.
    Noted,
}

/// A step of a board: a job, or a step of a lane.
#[derive(Clone, Copy, Drop, PartialEq, Eq)]
pub enum BoardStep<J> {
    Job(J),
    Lane(LaneStep),
}

/// What was said to a step of a board.
#[derive(Clone, Copy, Drop, PartialEq, Eq)]
pub enum BoardSaid<R> {
    Job(R),
    Lane(LaneSaid),
}
