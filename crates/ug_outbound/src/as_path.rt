//! AS_PATH as it goes out.

ghost use Rattle.std.specs.Prelude.{◌≡◌, map, IfOk};
ghost use Rattle.ug_types.specs.Attributes.{segment_of};
ghost use Rattle.ug_outbound.specs.Outbound.{privates_removed, as_overridden, prepended_towards, path_out};

use crate::key::GroupKey;
use crate::kind::Kind;
use crate::settings::Local;
use std::alloc::Global;
use ug_policy::{drop_private, override_as, prepend};
use ug_types::{NoMemory, SegmentList};

/// Private numbers go and the peer's own becomes the local one, where the key says so; then the local AS stands in
/// front towards an external peer.
pub fn path_out(
    alloc: Global,
    key: &GroupKey,
    local: &Local,
    path: SegmentList,
) -> Result<SegmentList, NoMemory>
    ensures { IfOk result (λ out. map segment_of out.items ≡ path_out key.now local.now (map segment_of path.items)) }
{
    let path = privates_removed(key.remove_private_as, path);
    let path = as_overridden(key.as_override, local.asn, path);
    prepended_towards(alloc, key.kind, local.asn, path)
}

fn privates_removed(remove: bool, path: SegmentList) -> SegmentList
    ensures { map segment_of result.items ≡ privates_removed remove (map segment_of path.items) }
{
    if !remove {
        return path;
    }
    let mut path = path;
    drop_private(&mut path);
    path
}

fn as_overridden(old: Option<u32>, asn: u32, path: SegmentList) -> SegmentList
    ensures { map segment_of result.items ≡ as_overridden old asn (map segment_of path.items) }
{
    let Some(old) = old else {
        return path;
    };
    let mut path = path;
    override_as(&mut path, old, asn);
    path
}

fn prepended_towards(
    alloc: Global,
    kind: Kind,
    asn: u32,
    path: SegmentList,
) -> Result<SegmentList, NoMemory>
    ensures { IfOk result (λ out. map segment_of out.items ≡ prepended_towards kind asn (map segment_of path.items)) }
{
    if kind != Kind::External {
        return Ok(path);
    }
    let mut path = path;
    prepend(alloc, &mut path, asn)?;
    Ok(path)
}
