//! COMMUNITIES, four bytes each.

ghost use Rattle.std.specs.Prelude.{refl};
ghost use Rattle.ug_message.specs.AttributeTable.{communities_kind, communities};

use crate::attrs_fault::AttributeFault;
use crate::found::{Found, Standing};
use crate::head::{list_size, put_list};
use crate::row::{Known, OPTIONAL_TRANSITIVE, Spelled};
use crate::values::numbers_in;
use std::alloc::Global;
use ug_types::{AttrParts, ByteList};

pub struct Communities;

impl Known for Communities {
    ghost kind = { communities_kind };

    ghost NUMBER = { 8 };

    ghost FLAGS = { 192 };

    const NUMBER: u8 = 8;

    const FLAGS: u8 = OPTIONAL_TRANSITIVE;

    ghost number_is = { refl };

    ghost flags_are = { refl };

    fn is_length(len: usize) -> bool {
        len % 4 == 0
    }

    fn read(
        alloc: Global,
        found: &mut Found,
        _all: &[u8],
        a: Standing<'_>,
    ) -> Result<(), AttributeFault> {
        found.communities = numbers_in(alloc, a.value)?;
        Ok(())
    }
}

impl Spelled for Communities {
    ghost spelled = { communities };

    #[tactic(auto, using(ug_message::proofs::Heads::size_steps))]
    fn size(parts: &AttrParts) -> usize {
        list_size(parts.communities.as_slice())
    }

    fn put(out: &mut ByteList, parts: &AttrParts) {
        put_list(out, Self::FLAGS, Self::NUMBER, parts.communities.as_slice());
    }
}
