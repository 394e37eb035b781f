//! ORIGINATOR_ID: who brought the route into the own AS.

ghost use Rattle.std.specs.Prelude.{refl};
ghost use Rattle.ug_message.specs.AttributeTable.{originator_id_kind, originator_id};

use crate::attrs_fault::AttributeFault;
use crate::found::{Found, Standing};
use crate::head::{put_attribute, size_around};
use crate::row::{Known, OPTIONAL, Spelled};
use crate::values::{address_in, four_bytes};
use std::alloc::Global;
use ug_types::{AttrParts, ByteList};

pub struct OriginatorId;

impl Known for OriginatorId {
    ghost kind = { originator_id_kind };

    ghost NUMBER = { 9 };

    ghost FLAGS = { 128 };

    const NUMBER: u8 = 9;

    const FLAGS: u8 = OPTIONAL;

    ghost number_is = { refl };

    ghost flags_are = { refl };

    fn is_length(len: usize) -> bool {
        len == 4
    }

    fn read(
        _alloc: Global,
        found: &mut Found,
        _all: &[u8],
        a: Standing<'_>,
    ) -> Result<(), AttributeFault> {
        found.originator = Some(address_in(a.value));
        Ok(())
    }
}

impl Spelled for OriginatorId {
    ghost spelled = { originator_id };

    #[tactic(auto, using(ug_message::proofs::Heads::size_steps))]
    fn size(parts: &AttrParts) -> usize {
        if parts.originator.is_some() {
            size_around(4)
        } else {
            0
        }
    }

    fn put(out: &mut ByteList, parts: &AttrParts) {
        if let Some(originator) = parts.originator {
            put_attribute(out, Self::FLAGS, Self::NUMBER, &four_bytes(&originator));
        }
    }
}
