//! Route reflection (RFC 4456).

ghost use Rattle.std.specs.Prelude.{◌≡◌, [], None, IfOk};
ghost use Rattle.ug_types.specs.Attributes.{attributes_of};
ghost use Rattle.ug_outbound.specs.Outbound.{reflection_allows, number_of_address, with_reflection, reflected_from, reflected};

use crate::kind::Kind;
use crate::settings::Local;
use std::alloc::Global;
use ug_types::{Addr, AttrParts, Learned, NoMemory, Sequence};

/// Whether a path goes out: one from an internal peer that is no client doesn't go to another such.
pub fn reflection_allows(kind: Kind, from: &Learned) -> bool
    ensures { result ≡ reflection_allows kind from.now }
{
    match *from {
        Learned::Internal { client, .. } => client || kind != Kind::Internal,
        Learned::Local | Learned::External => true,
    }
}

/// The attributes with ORIGINATOR_ID and CLUSTER_LIST as they go out.
pub fn reflected(
    alloc: Global,
    local: &Local,
    kind: Kind,
    from: &Learned,
    parts: AttrParts,
) -> Result<AttrParts, NoMemory>
    ensures { IfOk result (λ out. attributes_of out ≡ reflected local.now kind from.now (attributes_of parts)) }
{
    match *from {
        Learned::Internal { router, .. } => {
            if kind == Kind::External {
                return Ok(without_reflection(alloc, parts));
            }
            reflected_from(local, router.address(), parts)
        }
        Learned::Local | Learned::External => Ok(without_reflection(alloc, parts)),
    }
}

/// The attributes with the router that the path was learned from as ORIGINATOR_ID, where none is named, and the
/// cluster id in front of CLUSTER_LIST.
fn reflected_from(local: &Local, router: Addr, parts: AttrParts) -> Result<AttrParts, NoMemory>
    ensures { IfOk result (λ out. attributes_of out ≡ reflected_from local.now router (attributes_of parts)) }
{
    let mut clusters = parts.clusters;
    let Ok(()) = clusters.insert(0, number_of_address(local.cluster_id)) else {
        return Err(NoMemory);
    };
    Ok(AttrParts {
        originator: Some(parts.originator.unwrap_or(router)),
        clusters,
        ..parts
    })
}

/// The attributes without ORIGINATOR_ID and CLUSTER_LIST.
fn without_reflection(alloc: Global, parts: AttrParts) -> AttrParts
    ensures { attributes_of result ≡ with_reflection None [] (attributes_of parts) }
{
    AttrParts {
        originator: None,
        clusters: Sequence::new(alloc),
        ..parts
    }
}

/// The number of an IPv4 address.
fn number_of_address(address: Addr) -> u32
    ensures { result ≡ number_of_address address }
{
    (address.bits >> 96) as u32
}
