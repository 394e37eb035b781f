//! MULTI_EXIT_DISC: a number by which a neighbour tells its links apart.

ghost use Rattle.std.specs.Prelude.{refl};
ghost use Rattle.ug_message.specs.AttributeTable.{multi_exit_disc_kind, multi_exit_disc};

use crate::attrs_fault::AttributeFault;
use crate::found::{Found, Standing};
use crate::head::{put_number, size_around};
use crate::row::{Known, OPTIONAL, Spelled};
use crate::values::number_in;
use std::alloc::Global;
use ug_types::{AttrParts, ByteList};

pub struct MultiExitDisc;

impl Known for MultiExitDisc {
    ghost kind = { multi_exit_disc_kind };

    ghost NUMBER = { 4 };

    ghost FLAGS = { 128 };

    const NUMBER: u8 = 4;

    const FLAGS: u8 = OPTIONAL;

    ghost number_is = { refl };

    ghost flags_are = { refl };

    fn is_length(len: usize) -> bool {
        len == 4
    }

    fn read(
        _alloc: Global,
        found: &mut Found,
        _all: &[u8],
        a: Standing<'_>,
    ) -> Result<(), AttributeFault> {
        found.med = Some(number_in(a.value));
        Ok(())
    }
}

impl Spelled for MultiExitDisc {
    ghost spelled = { multi_exit_disc };

    #[tactic(auto, using(ug_message::proofs::Heads::size_steps))]
    fn size(parts: &AttrParts) -> usize {
        if parts.med.is_some() {
            size_around(4)
        } else {
            0
        }
    }

    fn put(out: &mut ByteList, parts: &AttrParts) {
        if let Some(number) = parts.med {
            put_number(out, Self::FLAGS, Self::NUMBER, number);
        }
    }
}
