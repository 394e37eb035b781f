//! Paths, and the attributes with which they go out.

ghost use Rattle.std.specs.Prelude.{◌≡◌, IfOk};

use crate::address::Addr;
use crate::attrs::Attrs;
use crate::memory::NoMemory;
use crate::prefix::Prefix;
use crate::router_id::RouterId;
use crate::sequence::Sequence;
use crate::shared::Shared;
use std::alloc::Global;

/// The place of a peer among the configured ones, counted from 0.
pub type PeerId = u32;

pub type PeerList = Sequence<PeerId>;

/// Which next hop a route goes out with (RFC 4271 section 5.1.3): the one it has, the speaker's own address, its
/// own unless the one it has lies in the subnet that both share, or the one that a policy fixed.
#[derive(Clone, Copy, PartialEq, Eq, Hash)]
pub enum NhKind {
    Keep,
    Own,
    Auto,
    Fixed,
}

/// The attributes of a route for all peers of equal outbound policy: NEXT_HOP is still the raw one, and the
/// kind says which each peer is told.
#[derive(PartialEq, Eq, Hash, Drop)]
pub struct OutAttrs {
    pub attrs: Attrs,
    pub nh_kind: NhKind,
}

/// The ends of the link to a peer: its address, the speaker's own, and the subnet that both share.
#[derive(Clone, Copy, PartialEq, Eq)]
pub struct PeerEnds {
    pub address: Addr,
    pub local: Addr,
    pub subnet: Prefix,
}

/// Where a path comes from: the speaker itself, an external peer, or an internal one with its router id.
#[derive(Clone, Copy)]
pub enum Learned {
    Local,
    External,
    Internal { client: bool, router: RouterId },
}

/// A path to a prefix. Its attributes are shared with whoever has the same.
#[derive(Drop)]
pub struct Path {
    pub id: u32,
    pub learned: Learned,
    pub attrs: Shared<Attrs>,
}

impl OutAttrs {
    /// Equal attributes of their own.
    pub fn copy(&self, alloc: Global) -> Result<OutAttrs, NoMemory>
        ensures { IfOk result (λ copy. copy ≡ self.now) }
    {
        let attrs = self.attrs.copy(alloc)?;
        Ok(OutAttrs {
            attrs,
            nh_kind: self.nh_kind,
        })
    }
}
