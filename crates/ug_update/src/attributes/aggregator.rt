//! AGGREGATOR: the AS and the IPv4 address of who made the route out of more specific ones.

ghost use Rattle.std.specs.Prelude.{◌≡◌, ◌≤◌, refl, length};
ghost use Rattle.ug_message.specs.AttributeTable.{aggregator_kind, aggregator, aggregator_in};

use crate::attrs_fault::AttributeFault;
use crate::found::{Found, Standing};
use crate::head::{put_head, size_around};
use crate::row::{Known, OPTIONAL_TRANSITIVE, Spelled};
use crate::values::{address_in, four_bytes, number_in};
use std::alloc::Global;
use ug_message::{put, put_u32};
use ug_types::{AttrParts, ByteList};

pub struct Aggregator;

impl Known for Aggregator {
    ghost kind = { aggregator_kind };

    ghost NUMBER = { 7 };

    ghost FLAGS = { 192 };

    const NUMBER: u8 = 7;

    const FLAGS: u8 = OPTIONAL_TRANSITIVE;

    ghost number_is = { refl };

    ghost flags_are = { refl };

    fn is_length(len: usize) -> bool {
        len == 8
    }

    fn read(
        _alloc: Global,
        found: &mut Found,
        _all: &[u8],
        a: Standing<'_>,
    ) -> Result<(), AttributeFault> {
        found.aggregator = Some(aggregator_in(a.value));
        Ok(())
    }
}

impl Spelled for Aggregator {
    ghost spelled = { aggregator };

    #[tactic(auto, using(ug_message::proofs::Heads::size_steps))]
    fn size(parts: &AttrParts) -> usize {
        if parts.aggregator.is_some() {
            size_around(8)
        } else {
            0
        }
    }

    #[tactic(auto, using(ug_message::proofs::Heads::attribute_steps))]
    fn put(out: &mut ByteList, parts: &AttrParts) {
        if let Some(aggregator) = parts.aggregator {
            put_head(out, Self::FLAGS, Self::NUMBER, 8);
            put_u32(out, aggregator.asn);
            put(out, &four_bytes(&aggregator.addr));
        }
    }
}

fn aggregator_in(bytes: &[u8]) -> ug_types::Aggregator
    requires { 8 ≤ length bytes.now }
    ensures { result ≡ aggregator_in bytes.now }
{
    ug_types::Aggregator {
        asn: number_in(bytes),
        addr: address_in(&bytes[4..]),
    }
}
