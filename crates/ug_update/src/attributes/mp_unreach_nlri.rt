//! MP_UNREACH_NLRI: withdrawn routes of IPv6 among the attributes (RFC 4760).

ghost use Rattle.std.specs.Prelude.{◌≡◌, ◌+◌, ◌≤◌, ◌++◌, refl, length, OnOk, OnErr, IfOk, IfErr};
ghost use Rattle.ug_message.specs.AttributeTable.{mp_unreach_nlri_kind, unreach_in};
ghost use Rattle.ug_message.specs.Heads.{unreach_head};
ghost use Rattle.ug_update.specs.AttrsViews.{placed_of, StandsAt, GivesOne, HasNumber};

use crate::attrs_fault::AttributeFault;
use crate::found::{Found, Standing};
use crate::head::put_head;
use crate::multiprotocol::{IPV6_UNICAST, Placed, is_ipv6_unicast};
use crate::row::{Known, OPTIONAL};
use std::alloc::Global;
use ug_message::put;
use ug_types::{ByteList, NoMemory};

pub struct MpUnreachNlri;

impl Known for MpUnreachNlri {
    ghost kind = { mp_unreach_nlri_kind };

    ghost NUMBER = { 15 };

    ghost FLAGS = { 128 };

    const NUMBER: u8 = 15;

    const FLAGS: u8 = OPTIONAL;

    ghost number_is = { refl };

    ghost flags_are = { refl };

    fn is_length(_len: usize) -> bool {
        true
    }

    fn read(
        _alloc: Global,
        found: &mut Found,
        all: &[u8],
        a: Standing<'_>,
    ) -> Result<(), AttributeFault> {
        found.unreach = Some(unreach_in(all, a.place, a.value)?);
        Ok(())
    }
}

/// The value of MP_UNREACH_NLRI, which stands at that place of all attributes.
#[tactic(auto, using(crate::proofs::ValueParts::behind), unfolding(ug_message::specs::AttributeTable::unreach_in))]
fn unreach_in(all: &[u8], place: usize, bytes: &[u8]) -> Result<Placed, AttributeFault>
    requires within { place + length bytes.now ≤ length all.now }
    requires stands { StandsAt all.now place bytes.now }
    ensures exact { GivesOne (placed_of all.now) result (unreach_in place bytes.now) }
    ensures number { IfErr result HasNumber }
    ensures within { IfOk result (λ x. x.place + x.size ≤ length all.now) }
{
    if !is_ipv6_unicast(bytes) {
        return Err(AttributeFault::Refused(9));
    }
    Ok(Placed {
        place: place + 3,
        size: bytes.len() - 3,
    })
}

/// Adds MP_UNREACH_NLRI up to its routes, which have so many bytes. Running out of memory leaves the list as it was.
#[tactic(auto, using(ug_message::proofs::Heads::length_head), unfolding(ug_message::specs::Heads::unreach_head))]
pub fn write_unreach(out: &mut ByteList, routes: usize) -> Result<(), NoMemory>
    requires { 3 + routes ≤ 65535 }
    ensures ok { OnOk result (out.new.items ≡ out.old.items ++ unreach_head routes) }
    ensures err { OnErr result (out.new.items ≡ out.old.items) }
{
    out.reserve(7)?;
    put_head(out, MpUnreachNlri::FLAGS, MpUnreachNlri::NUMBER, 3 + routes);
    put(out, &IPV6_UNICAST);
    Ok(())
}
