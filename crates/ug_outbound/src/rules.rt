//! The rules on single attributes, and the kind of next hop.

ghost use Rattle.std.specs.Prelude.{◌≡◌};
ghost use Rattle.ug_outbound.specs.Outbound.{communities_allow, local_pref_out, is_local, med_out, communities_out, next_hop_kind};

use crate::key::GroupKey;
use crate::kind::Kind;
use std::alloc::Global;
use ug_types::{Learned, NhKind, NumberList, Sequence};

/// The well-known communities (RFC 1997).
const NO_EXPORT: u32 = 0xFFFF_FF01;

const NO_ADVERTISE: u32 = 0xFFFF_FF02;

const NO_EXPORT_SUBCONFED: u32 = 0xFFFF_FF03;

/// Whether a path's communities let it go to a peer.
pub fn communities_allow(kind: Kind, numbers: &[u32]) -> bool
    ensures { result ≡ communities_allow kind numbers.now }
{
    if kind == Kind::External {
        return !(numbers.contains(&NO_ADVERTISE)
            || numbers.contains(&NO_EXPORT)
            || numbers.contains(&NO_EXPORT_SUBCONFED));
    }
    !numbers.contains(&NO_ADVERTISE)
}

/// LOCAL_PREF is for internal peers alone, and 100 where it is absent.
pub fn local_pref_out(kind: Kind, pref: Option<u32>) -> Option<u32>
    ensures { result ≡ local_pref_out kind pref }
{
    match kind {
        Kind::External => None,
        Kind::Internal | Kind::Client => Some(pref.unwrap_or(100)),
    }
}

/// Whether a path is the speaker's own.
pub fn is_local(from: &Learned) -> bool
    ensures { result ≡ is_local from.now }
{
    match *from {
        Learned::Local => true,
        Learned::External | Learned::Internal { .. } => false,
    }
}

/// MULTI_EXIT_DISC goes to an external peer only where it is the speaker's own.
pub fn med_out(kind: Kind, ours: bool, med: Option<u32>) -> Option<u32>
    ensures { result ≡ med_out kind ours med }
{
    match kind {
        Kind::External => if ours { med } else { None },
        Kind::Internal | Kind::Client => med,
    }
}

/// COMMUNITIES, where the peer is sent them.
pub fn communities_out(alloc: Global, send: bool, numbers: NumberList) -> NumberList
    ensures { result.items ≡ communities_out send numbers.items }
{
    if send { numbers } else { Sequence::new(alloc) }
}

/// Which next hop goes out; `set` says whether the map set it.
pub fn next_hop_kind(key: &GroupKey, from: &Learned, set: bool) -> NhKind
    ensures { result ≡ next_hop_kind key.now from.now set }
{
    if set {
        return NhKind::Fixed;
    }
    if key.next_hop_self || is_local(from) {
        return NhKind::Own;
    }
    match key.kind {
        Kind::External => NhKind::Auto,
        Kind::Internal | Kind::Client => NhKind::Keep,
    }
}
