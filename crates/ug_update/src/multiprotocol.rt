//! What a message says whose routes stand among its attributes, as those of IPv6 do (RFC 4760).

ghost use Rattle.std.specs.Prelude.{◌≡◌, ◌+◌, ◌≤◌, true, List, ℕ, length};
ghost use Rattle.ug_types.specs.declared.family.Family.TheVariants.{V6};
ghost use Rattle.ug_message.specs.Values.{is_ipv6_unicast};
ghost use Rattle.ug_message.specs.AttributesRead.{has_routes, is_alone_in, withdrawn_in, announced_in, next_hop_in};
ghost use Rattle.ug_update.specs.AttrsViews.{so_far, placed_of};

use crate::attributes::mp_unreach_nlri::MpUnreachNlri;
use crate::found::Found;
use crate::row::Known;
use ug_types::{Addr, Attrs};

/// AFI 2, SAFI 1: IPv6 unicast.
pub const IPV6_UNICAST: [u8; 3] = [0, 2, 1];

/// Where routes stand: the place of the first, counted from the first byte of the attributes, and how many bytes they
/// have.
#[derive(Clone, Copy)]
pub struct Placed {
    pub place: usize,
    pub size: usize,
}

/// Routes that are announced, and their next hop.
#[derive(Clone, Copy)]
pub struct Reach {
    pub next_hop: Addr,
    pub routes: Placed,
}

/// What the attributes of an UPDATE of IPv6 routes say: the attributes of the announced ones, where there are any; the
/// withdrawn and the announced routes; and whether a withdrawal of none is all there is, which is End-of-RIB.
#[derive(Drop)]
pub struct Multiprotocol {
    pub attrs: Option<Attrs>,
    pub withdrawn: Placed,
    pub announced: Placed,
    pub is_alone: bool,
}

/// No routes.
pub const NOWHERE: Placed = Placed { place: 0, size: 0 };

/// Whether a value begins with AFI 2 and SAFI 1.
pub fn is_ipv6_unicast(bytes: &[u8]) -> bool
    ensures is { result ≡ is_ipv6_unicast bytes.now }
    ensures long { result ≡ true → 3 ≤ length bytes.now }
{
    match bytes {
        [0, 2, 1, ..] => true,
        _ => false,
    }
}

/// Whether there are routes.
#[tactic(auto, using(crate::proofs::ValueParts::length_part))]
pub fn has_routes(p: Placed) -> bool
    ensures { (all : List ℕ) → p.place + p.size ≤ length all → result ≡ has_routes (placed_of all p) }
{
    p.size > 0
}

/// Whether these are the types of a message that withdraws nothing, and says nothing else.
pub fn is_alone(types: &[u8], withdrawn: Placed) -> bool
    ensures { (all : List ℕ) → withdrawn.place + withdrawn.size ≤ length all → result ≡ is_alone_in types.now (placed_of all withdrawn) }
{
    match types {
        [kind] => *kind == MpUnreachNlri::NUMBER && !has_routes(withdrawn),
        _ => false,
    }
}

/// The routes that are withdrawn.
pub fn withdrawn_in(found: &Found) -> Placed
    ensures is { (all : List ℕ) → placed_of all result ≡ withdrawn_in (so_far all found.now) }
    ensures within { result.place + result.size ≤ found.now.limit }
{
    match found.unreach {
        Some(routes) => routes,
        None => NOWHERE,
    }
}

/// The routes that are announced.
pub fn announced_in(found: &Found) -> Placed
    ensures is { (all : List ℕ) → placed_of all result ≡ announced_in (so_far all found.now) }
    ensures within { result.place + result.size ≤ found.now.limit }
{
    match found.reach {
        Some(reach) => reach.routes,
        None => NOWHERE,
    }
}

/// The next hop of the announced routes.
pub fn next_hop_in(found: &Found) -> Option<Addr>
    ensures { (all : List ℕ) → result ≡ next_hop_in V6 (so_far all found.now) }
{
    match found.reach {
        Some(reach) => Some(reach.next_hop),
        None => None,
    }
}
