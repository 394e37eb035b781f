//! MP_REACH_NLRI: announced routes of IPv6 among the attributes, with their next hop (RFC 4760).

ghost use Rattle.std.specs.Prelude.{◌≡◌, ◌+◌, ◌≤◌, ◌++◌, refl, length, OnOk, OnErr, IfOk, IfErr};
ghost use Rattle.ug_types.specs.declared.family.Family.TheVariants.{V6};
ghost use Rattle.ug_message.specs.AttributeTable.{mp_reach_nlri_kind, reach_in};
ghost use Rattle.ug_message.specs.Heads.{reach_head, reach_place};
ghost use Rattle.ug_update.specs.AttrsViews.{reach_of, StandsAt, GivesOne, HasNumber};

use crate::attrs_fault::AttributeFault;
use crate::found::{Found, Standing};
use crate::head::put_head;
use crate::multiprotocol::{IPV6_UNICAST, Placed, Reach, is_ipv6_unicast};
use crate::row::{Known, OPTIONAL};
use crate::values::sixteen_bytes;
use byteorder::{BigEndian, ByteOrder};
use std::alloc::Global;
use ug_message::put;
use ug_types::{Addr, ByteList, Family, NoMemory};

pub struct MpReachNlri;

impl Known for MpReachNlri {
    ghost kind = { mp_reach_nlri_kind };

    ghost NUMBER = { 14 };

    ghost FLAGS = { 128 };

    const NUMBER: u8 = 14;

    const FLAGS: u8 = OPTIONAL;

    ghost number_is = { refl };

    ghost flags_are = { refl };

    fn is_length(_len: usize) -> bool {
        true
    }

    fn read(
        _alloc: Global,
        found: &mut Found,
        all: &[u8],
        a: Standing<'_>,
    ) -> Result<(), AttributeFault> {
        found.reach = Some(reach_in(all, a.place, a.value)?);
        Ok(())
    }
}

/// The value of MP_REACH_NLRI, which stands at that place of all attributes. Of a next hop of two addresses the first
/// counts.
#[tactic(auto, using(crate::proofs::ValueParts::behind), unfolding(ug_message::specs::AttributeTable::reach_in))]
fn reach_in(all: &[u8], place: usize, bytes: &[u8]) -> Result<Reach, AttributeFault>
    requires within { place + length bytes.now ≤ length all.now }
    requires stands { StandsAt all.now place bytes.now }
    ensures exact { GivesOne (reach_of all.now) result (reach_in place bytes.now) }
    ensures number { IfErr result HasNumber }
    ensures within { IfOk result (λ x. x.routes.place + x.routes.size ≤ length all.now) }
{
    let malformed = AttributeFault::Refused(9);
    if !is_ipv6_unicast(bytes) {
        return Err(malformed);
    }
    if bytes.len() < 4 {
        return Err(malformed);
    }
    let length = bytes[3];
    if length != 16 && length != 32 {
        return Err(malformed);
    }
    let before = 5 + length as usize;
    if bytes.len() < before {
        return Err(malformed);
    }
    let (_, rest) = bytes.split_at(4);
    let next_hop = ipv6_address(BigEndian::read_u128(rest));
    let routes = Placed {
        place: place + before,
        size: bytes.len() - before,
    };
    Ok(Reach { next_hop, routes })
}

/// The IPv6 address of a number.
fn ipv6_address(bits: u128) -> Addr
    ensures { result ≡ record { family = V6; bits = bits } }
{
    Addr {
        family: Family::V6,
        bits,
    }
}

/// Adds MP_REACH_NLRI up to its routes, which have so many bytes, and answers where the next hop stands in the list.
/// Running out of memory leaves the list as it was.
#[tactic(auto, using(ug_message::proofs::Heads::length_head), unfolding(ug_message::specs::Heads::reach_head))]
pub fn write_reach(out: &mut ByteList, next_hop: &Addr, routes: usize) -> Result<usize, NoMemory>
    requires { 21 + routes ≤ 65535 }
    ensures ok { OnOk result (out.new.items ≡ out.old.items ++ reach_head next_hop.now routes) }
    ensures place { IfOk result (λ place. place ≡ length out.old.items + reach_place routes) }
    ensures err { OnErr result (out.new.items ≡ out.old.items) }
{
    out.reserve(25)?;
    put_head(out, MpReachNlri::FLAGS, MpReachNlri::NUMBER, 21 + routes);
    put(out, &IPV6_UNICAST);
    put(out, &[16]);
    let place = out.len();
    put(out, &sixteen_bytes(next_hop));
    put(out, &[0]);
    Ok(place)
}
