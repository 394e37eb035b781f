//! What is kept of the world to which the events lead.

ghost use Rattle.std.specs.Prelude.{◌≡◌, ◌<◌, ◌==◌, ◌&&◌, Some, length, slice_get, IfOk};
ghost use Rattle.std.specs.Option.{option_map};
ghost use Rattle.ug_audit_rules.specs.Audited.{opened_with};
ghost use Rattle.ug_audit.specs.Last.{last_peer, IsLast};

use std::alloc::Global;
use ug_outbound::Peer;
use ug_types::{Capabilities, Name, NoMemory, PeerId};
use ug_world::World;

/// A peer as the events left it: its name, what its sessions are opened with, whether it is up, and how many sessions it has had.
#[derive(Drop)]
pub struct LastPeer {
    pub name: Name,
    pub capabilities: Capabilities,
    pub up: bool,
    pub sessions: u32,
}

impl LastPeer {
    /// Whether it is up with the session of that number.
    pub fn is_up_with(&self, number: u32) -> bool
        ensures { result ≡ (self.now.up && (self.now.sessions == number)) }
    {
        self.up && self.sessions == number
    }
}

/// The peers in configured order, and the version. The routes of the world aren't kept.
#[derive(Drop)]
pub struct Last {
    pub peers: Vec<LastPeer>,
    pub version: u64,
}

impl Last {
    /// What is kept of a world.
    pub fn of(alloc: Global, world: World) -> Result<Last, NoMemory>
        ensures { IfOk result (IsLast world) }
    {
        let version = world.version();
        let mut peers = Vec::with_capacity(alloc, world.peers() as usize)?;
        for id in 0..world.peers() {
            let peer = last_peer(alloc, &world, id)?;
            peers.push(peer)?;
        }
        Ok(Last { peers, version })
    }

    /// A peer.
    pub fn peer(&self, id: PeerId) -> &LastPeer
        requires { id < length self.now.peers.items }
        ensures { slice_get self.now.peers.items id ≡ Some result.now }
    {
        &self.peers[id as usize]
    }
}

/// What is kept of a peer.
fn last_peer(alloc: Global, world: &World, id: PeerId) -> Result<LastPeer, NoMemory>
    requires { id < length world.now.peers }
    ensures { IfOk result (λ kept. option_map last_peer (slice_get world.now.peers id) ≡ Some kept) }
{
    let peer = world.peer(id);
    let name = peer.name.copy(alloc)?;
    Ok(LastPeer {
        name,
        capabilities: opened_with(peer),
        up: world.is_up(id),
        sessions: world.session(id),
    })
}

/// What the sessions of a peer are opened with.
fn opened_with(peer: &Peer) -> Capabilities
    ensures { result ≡ opened_with peer.now }
{
    Capabilities {
        family: peer.family,
        add_path: peer.add_path,
        extended: peer.extended,
    }
}
