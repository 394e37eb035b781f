//! Peers before any session.

ghost use Rattle.std.specs.Prelude.{◌≡◌, map, IfOk};
ghost use Rattle.ug_world.specs.Parts.{fresh};

use crate::peer_state::PeerState;
use std::alloc::Global;
use ug_outbound::Peer;
use ug_policy::Filter;
use ug_types::NoMemory;

/// These peers, each before its first session.
pub fn fresh_peers(alloc: Global, peers: Vec<Peer>) -> Result<Vec<PeerState>, NoMemory>
    ensures { IfOk result (λ seats. seats.items ≡ map fresh peers.items) }
{
    let mut seats = Vec::with_capacity(alloc, peers.len())?;
    for peer in peers {
        seats.push(fresh(alloc, peer))?;
    }
    Ok(seats)
}

fn fresh(alloc: Global, peer: Peer) -> PeerState
    ensures { result ≡ fresh peer }
{
    PeerState {
        peer,
        up: false,
        sessions: 0,
        filter: Filter::none(alloc),
        waiting: Filter::none(alloc),
    }
}
