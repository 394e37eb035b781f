//! NEXT_HOP (RFC 4271 section 5.1.3).

ghost use Rattle.std.specs.Prelude.{◌≡◌};
ghost use Rattle.ug_message.specs.NextHops.{address_alone, next_hop};

use ug_types::{Addr, NhKind, PeerEnds, Prefix};

/// The next hop that the peer at these ends is told of a route with that raw one. It takes no memory.
pub fn next_hop(kind: NhKind, raw: Addr, ends: &PeerEnds) -> Addr
    ensures { result ≡ next_hop kind raw ends.now }
{
    match kind {
        NhKind::Fixed | NhKind::Keep => raw,
        NhKind::Own => ends.local,
        NhKind::Auto => {
            if ends.subnet.covers(&address_alone(raw)) && raw != ends.address {
                return raw;
            }
            ends.local
        }
    }
}

/// The prefix that is one address.
fn address_alone(address: Addr) -> Prefix
    ensures { result ≡ address_alone address }
{
    Prefix {
        family: address.family,
        bits: address.bits,
        len: address.family.width(),
    }
}
