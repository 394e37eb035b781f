use ug_outbound::Peer;
use ug_policy::Filter;

/// A peer with what its sessions made of it.
#[derive(Drop)]
pub struct PeerState {
    pub peer: Peer,
    pub up: bool,
    /// How many sessions it has had, the present one among them.
    pub sessions: u32,
    /// The filter in force.
    pub filter: Filter,
    /// The filter that the next request puts in force.
    pub waiting: Filter,
}
