//! ATOMIC_AGGREGATE: that more specific routes were left out, no bytes.

ghost use Rattle.std.specs.Prelude.{refl};
ghost use Rattle.ug_message.specs.AttributeTable.{atomic_aggregate_kind, atomic_aggregate};

use crate::attrs_fault::AttributeFault;
use crate::found::{Found, Standing};
use crate::head::{put_attribute, size_around};
use crate::row::{Known, Spelled, WELL_KNOWN};
use std::alloc::Global;
use ug_types::{AttrParts, ByteList};

pub struct AtomicAggregate;

impl Known for AtomicAggregate {
    ghost kind = { atomic_aggregate_kind };

    ghost NUMBER = { 6 };

    ghost FLAGS = { 64 };

    const NUMBER: u8 = 6;

    const FLAGS: u8 = WELL_KNOWN;

    ghost number_is = { refl };

    ghost flags_are = { refl };

    fn is_length(len: usize) -> bool {
        len == 0
    }

    fn read(
        _alloc: Global,
        found: &mut Found,
        _all: &[u8],
        _a: Standing<'_>,
    ) -> Result<(), AttributeFault> {
        found.atomic = true;
        Ok(())
    }
}

impl Spelled for AtomicAggregate {
    ghost spelled = { atomic_aggregate };

    #[tactic(auto, using(ug_message::proofs::Heads::size_steps))]
    fn size(parts: &AttrParts) -> usize {
        if parts.atomic { size_around(0) } else { 0 }
    }

    fn put(out: &mut ByteList, parts: &AttrParts) {
        if parts.atomic {
            put_attribute(out, Self::FLAGS, Self::NUMBER, &[]);
        }
    }
}
