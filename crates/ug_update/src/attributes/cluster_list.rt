//! CLUSTER_LIST: the clusters that reflected the route, four bytes each.

ghost use Rattle.std.specs.Prelude.{refl};
ghost use Rattle.ug_message.specs.AttributeTable.{cluster_list_kind, cluster_list};

use crate::attrs_fault::AttributeFault;
use crate::found::{Found, Standing};
use crate::head::{list_size, put_list};
use crate::row::{Known, OPTIONAL, Spelled};
use crate::values::numbers_in;
use std::alloc::Global;
use ug_types::{AttrParts, ByteList};

pub struct ClusterList;

impl Known for ClusterList {
    ghost kind = { cluster_list_kind };

    ghost NUMBER = { 10 };

    ghost FLAGS = { 128 };

    const NUMBER: u8 = 10;

    const FLAGS: u8 = OPTIONAL;

    ghost number_is = { refl };

    ghost flags_are = { refl };

    fn is_length(len: usize) -> bool {
        len % 4 == 0
    }

    fn read(
        alloc: Global,
        found: &mut Found,
        _all: &[u8],
        a: Standing<'_>,
    ) -> Result<(), AttributeFault> {
        found.clusters = numbers_in(alloc, a.value)?;
        Ok(())
    }
}

impl Spelled for ClusterList {
    ghost spelled = { cluster_list };

    #[tactic(auto, using(ug_message::proofs::Heads::size_steps))]
    fn size(parts: &AttrParts) -> usize {
        list_size(parts.clusters.as_slice())
    }

    fn put(out: &mut ByteList, parts: &AttrParts) {
        put_list(out, Self::FLAGS, Self::NUMBER, parts.clusters.as_slice());
    }
}
