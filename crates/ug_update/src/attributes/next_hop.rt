//! NEXT_HOP: the IPv4 address of the next router.

ghost use Rattle.std.specs.Prelude.{refl};
ghost use Rattle.ug_message.specs.AttributeTable.{next_hop_kind, next_hop};

use crate::attrs_fault::AttributeFault;
use crate::found::{Found, Standing};
use crate::head::{put_attribute, size_around};
use crate::row::{Known, Spelled, WELL_KNOWN};
use crate::values::{address_in, four_bytes};
use std::alloc::Global;
use ug_types::{AttrParts, ByteList};

pub struct NextHop;

impl Known for NextHop {
    ghost kind = { next_hop_kind };

    ghost NUMBER = { 3 };

    ghost FLAGS = { 64 };

    const NUMBER: u8 = 3;

    const FLAGS: u8 = WELL_KNOWN;

    ghost number_is = { refl };

    ghost flags_are = { refl };

    fn is_length(len: usize) -> bool {
        len == 4
    }

    fn read(
        _alloc: Global,
        found: &mut Found,
        _all: &[u8],
        a: Standing<'_>,
    ) -> Result<(), AttributeFault> {
        found.next_hop = Some(address_in(a.value));
        Ok(())
    }
}

impl Spelled for NextHop {
    ghost spelled = { next_hop };

    #[tactic(auto, using(ug_message::proofs::Heads::size_steps))]
    fn size(_parts: &AttrParts) -> usize {
        size_around(4)
    }

    fn put(out: &mut ByteList, parts: &AttrParts) {
        put_attribute(out, Self::FLAGS, Self::NUMBER, &four_bytes(&parts.next_hop));
    }
}
