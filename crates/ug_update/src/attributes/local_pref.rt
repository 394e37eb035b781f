//! LOCAL_PREF: how much the own AS prefers the route.

ghost use Rattle.std.specs.Prelude.{refl};
ghost use Rattle.ug_message.specs.AttributeTable.{local_pref_kind, local_pref};

use crate::attrs_fault::AttributeFault;
use crate::found::{Found, Standing};
use crate::head::{put_number, size_around};
use crate::row::{Known, Spelled, WELL_KNOWN};
use crate::values::number_in;
use std::alloc::Global;
use ug_types::{AttrParts, ByteList};

pub struct LocalPref;

impl Known for LocalPref {
    ghost kind = { local_pref_kind };

    ghost NUMBER = { 5 };

    ghost FLAGS = { 64 };

    const NUMBER: u8 = 5;

    const FLAGS: u8 = WELL_KNOWN;

    ghost number_is = { refl };

    ghost flags_are = { refl };

    fn is_length(len: usize) -> bool {
        len == 4
    }

    fn read(
        _alloc: Global,
        found: &mut Found,
        _all: &[u8],
        a: Standing<'_>,
    ) -> Result<(), AttributeFault> {
        found.local_pref = Some(number_in(a.value));
        Ok(())
    }
}

impl Spelled for LocalPref {
    ghost spelled = { local_pref };

    #[tactic(auto, using(ug_message::proofs::Heads::size_steps))]
    fn size(parts: &AttrParts) -> usize {
        if parts.local_pref.is_some() {
            size_around(4)
        } else {
            0
        }
    }

    fn put(out: &mut ByteList, parts: &AttrParts) {
        if let Some(number) = parts.local_pref {
            put_number(out, Self::FLAGS, Self::NUMBER, number);
        }
    }
}
