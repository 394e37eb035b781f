//! ORIGIN: where the path comes from, one byte.

ghost use Rattle.std.specs.Prelude.{◌≤◌, refl, length, IfOk, IfErr};
ghost use Rattle.ug_message.specs.AttributeTable.{origin_kind, origin, origin_in};
ghost use Rattle.ug_update.specs.AttrsViews.{GivesOne, HasNumber};

use crate::attrs_fault::AttributeFault;
use crate::found::{Found, Standing};
use crate::head::{put_attribute, size_around};
use crate::row::{Known, Spelled, WELL_KNOWN};
use std::alloc::Global;
use ug_types::{AttrParts, ByteList};

pub struct Origin;

impl Known for Origin {
    ghost kind = { origin_kind };

    ghost NUMBER = { 1 };

    ghost FLAGS = { 64 };

    const NUMBER: u8 = 1;

    const FLAGS: u8 = WELL_KNOWN;

    ghost number_is = { refl };

    ghost flags_are = { refl };

    fn is_length(len: usize) -> bool {
        len == 1
    }

    fn read(
        _alloc: Global,
        found: &mut Found,
        _all: &[u8],
        a: Standing<'_>,
    ) -> Result<(), AttributeFault> {
        found.origin = Some(origin_in(a.value)?);
        Ok(())
    }
}

impl Spelled for Origin {
    ghost spelled = { origin };

    #[tactic(auto, using(ug_message::proofs::Heads::size_steps))]
    fn size(_parts: &AttrParts) -> usize {
        size_around(1)
    }

    fn put(out: &mut ByteList, parts: &AttrParts) {
        put_attribute(out, Self::FLAGS, Self::NUMBER, &[parts.origin]);
    }
}

/// 5 where it is none of the three origins.
fn origin_in(bytes: &[u8]) -> Result<u8, AttributeFault>
    requires { 1 ≤ length bytes.now }
    ensures exact { GivesOne (λ n. n) result (origin_in bytes.now) }
    ensures number { IfErr result HasNumber }
    ensures sound { IfOk result (λ n. n ≤ 2) }
{
    if bytes[0] > 2 {
        return Err(AttributeFault::Refused(5));
    }
    Ok(bytes[0])
}
