ghost use Rattle.std.specs.Prelude.{◌≡◌};
ghost use Rattle.ug_outbound.specs.Keys.{ends_of};

use ug_types::{Addr, Family, Name, PeerEnds, Prefix, RouterId, Sequence};

/// A peer as it is configured, with its present policy.
#[derive(Drop)]
pub struct Peer {
    pub name: Name,
    /// Its AS: an internal peer has the local one.
    pub asn: u32,
    pub router_id: RouterId,
    /// The family of its addresses and of the routes that it is sent.
    pub family: Family,
    /// Its own address.
    pub address: Addr,
    /// The speaker's address towards it.
    pub local_address: Addr,
    /// The subnet that connects both.
    pub subnet: Prefix,
    /// The name of its policy; without one it has no prefix list and no route map.
    pub policy: Option<Name>,
    /// A client of the speaker as a route reflector.
    pub client: bool,
    pub next_hop_self: bool,
    pub as_override: bool,
    pub remove_private_as: bool,
    pub send_community: bool,
    /// ADD-PATH is in use (RFC 7911).
    pub add_path: bool,
    /// Extended messages are in use (RFC 8654).
    pub extended: bool,
    /// Enhanced refresh is in use (RFC 7313).
    pub enhanced_refresh: bool,
    /// It may send a filter of its own (RFC 5291).
    pub orf: bool,
}

impl Peer {
    /// The ends of the link to it.
    pub fn ends(&self) -> PeerEnds
        ensures { result ≡ ends_of self.now }
    {
        PeerEnds {
            address: self.address,
            local: self.local_address,
            subnet: self.subnet,
        }
    }
}

pub type PeerTable = Sequence<Peer>;
