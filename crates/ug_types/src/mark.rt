use crate::route::PeerId;
use crate::sequence::Sequence;

/// How much a session was told at some time: the version of the world, the peer, the number of its session, counted
/// from 1, and how many messages were handed out in it so far.
#[derive(Clone, Copy, PartialEq, Eq)]
pub struct Mark {
    pub version: u64,
    pub peer: PeerId,
    pub session: u32,
    pub handed: u64,
}

pub type MarkList = Sequence<Mark>;
