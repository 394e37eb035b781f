//! The table of all attributes, by ascending type: a row each. Whoever adds one adds its module and its row.

ghost use Rattle.std.specs.Prelude.{◌≡◌, ◌+◌, ◌≤◌, ◌++◌, ◌∷◌, false, List, [], Ok, Some, None, is_some, length, IfOk, IfErr};
ghost use Rattle.ug_message.specs.Kind.{Kind, are_flags, kind_among};
ghost use Rattle.ug_message.specs.AttributesRead.{with_known};
ghost use Rattle.ug_update.specs.AttrsViews.{so_far, standing, StandsAt, GivesOne, HasNumber};

use crate::attributes::aggregator::Aggregator;
use crate::attributes::as_path::AsPath;
use crate::attributes::atomic_aggregate::AtomicAggregate;
use crate::attributes::cluster_list::ClusterList;
use crate::attributes::communities::Communities;
use crate::attributes::local_pref::LocalPref;
use crate::attributes::mp_reach_nlri::MpReachNlri;
use crate::attributes::mp_unreach_nlri::MpUnreachNlri;
use crate::attributes::multi_exit_disc::MultiExitDisc;
use crate::attributes::next_hop::NextHop;
use crate::attributes::origin::Origin;
use crate::attributes::originator_id::OriginatorId;
use crate::attrs_fault::AttributeFault;
use crate::found::{Found, Standing};
use crate::row::{Known, OPTIONAL_TRANSITIVE, Spelled};
use std::alloc::Global;
use ug_types::{AttrParts, ByteList};

/// The rows before NEXT_HOP, below those of another table.
type BeforeNextHop<Above> = ((Above, Origin), AsPath);

/// Which way is the better one.
type Preference<Above> = ((Above, MultiExitDisc), LocalPref);

/// What more specific routes were put together.
type Aggregation<Above> = ((Above, AtomicAggregate), Aggregator);

/// Which way a route went within the own AS.
type Reflection<Above> = ((Above, OriginatorId), ClusterList);

/// The rows behind NEXT_HOP.
type AfterNextHop<Above> = Reflection<(Aggregation<Preference<Above>>, Communities)>;

/// What is written before NEXT_HOP.
pub type Before = BeforeNextHop<()>;

/// What is written behind NEXT_HOP.
pub type Behind = AfterNextHop<()>;

/// What a message of IPv4 routes can have.
pub type Ipv4 = AfterNextHop<(Before, NextHop)>;

/// What a message of IPv6 routes can have.
pub type Ipv6 = ((Ipv4, MpReachNlri), MpUnreachNlri);

/// Set by a router that passed the attribute on without knowing it.
const PARTIAL: u8 = 32;

/// The attributes that a message can have.
pub trait Table {
    ghost kinds: { List Kind };

    /// Reads an attribute if it is one of them, and answers whether it is.
    fn read(
        alloc: Global,
        found: &mut Found,
        all: &[u8],
        a: Standing<'_>,
    ) -> Result<bool, AttributeFault>
        requires within { a.place + length a.value.now ≤ length all.now }
        requires stands { StandsAt all.now a.place a.value.now }
        requires limit { found.old.limit ≡ length all.now }
        ensures known { IfOk result (λ known. known ≡ is_some (kind_among kinds a.entry.kind)) }
        ensures exact { (kind : Kind) → kind_among kinds a.entry.kind ≡ Some kind → GivesOne (λ _. so_far all.now found.new) result (with_known kind (standing a.entry) (so_far all.now found.old)) }
        ensures other { kind_among kinds a.entry.kind ≡ None → (result ≡ Ok false) × (so_far all.now found.new ≡ so_far all.now found.old) }
        ensures limit { found.new.limit ≡ found.old.limit }
        ensures number { IfErr result HasNumber };
}

impl Table for () {
    ghost kinds = { [] };

    fn read(
        _alloc: Global,
        _found: &mut Found,
        _all: &[u8],
        _a: Standing<'_>,
    ) -> Result<bool, AttributeFault> {
        Ok(false)
    }
}

impl<Above: Table, A: Known> Table for (Above, A) {
    ghost kinds = { Above.kinds ++ A.kind ∷ [] };

    #[tactic(auto, using(crate::proofs::Rows::row_steps))]
    fn read(
        alloc: Global,
        found: &mut Found,
        all: &[u8],
        a: Standing<'_>,
    ) -> Result<bool, AttributeFault> {
        match Above::read(alloc, found, all, a) {
            Ok(false) => {}
            read => return read,
        }
        if a.kind != A::NUMBER {
            return Ok(false);
        }
        read_as::<A>(alloc, found, all, a)?;
        Ok(true)
    }
}

/// Reads an attribute of this type: 3 for wrong flags, 4 for a wrong length, and what its value gives.
#[tactic(auto, unfolding(ug_message::specs::AttributesRead::with_known))]
fn read_as<A: Known>(
    alloc: Global,
    found: &mut Found,
    all: &[u8],
    a: Standing<'_>,
) -> Result<(), AttributeFault>
    requires of_type { a.kind ≡ A.NUMBER }
    requires within { a.place + length a.value.now ≤ length all.now }
    requires stands { StandsAt all.now a.place a.value.now }
    requires limit { found.old.limit ≡ length all.now }
    ensures exact { GivesOne (λ _. so_far all.now found.new) result (with_known A.kind (standing a.entry) (so_far all.now found.old)) }
    ensures limit { found.new.limit ≡ found.old.limit }
    ensures number { IfErr result HasNumber }
{
    if !are_flags::<A>(a.flags) {
        return Err(AttributeFault::Refused(3));
    }
    if !A::is_length(a.value.len()) {
        return Err(AttributeFault::Refused(4));
    }
    A::read(alloc, found, all, a)
}

/// Whether an attribute of this type may have these flags. The lower four bits say nothing.
fn are_flags<A: Known>(flags: u8) -> bool
    ensures { result ≡ are_flags A.kind flags }
{
    flags & OPTIONAL_TRANSITIVE == A::FLAGS
        && (A::FLAGS == OPTIONAL_TRANSITIVE || flags & PARTIAL == 0)
}

impl Spelled for () {
    ghost spelled = { λ _. [] };

    fn size(_parts: &AttrParts) -> usize {
        0
    }

    fn put(_out: &mut ByteList, _parts: &AttrParts) {}
}

impl<Above: Spelled, A: Spelled> Spelled for (Above, A) {
    ghost spelled = { λ attributes. Above.spelled attributes ++ A.spelled attributes };

    fn size(parts: &AttrParts) -> usize {
        Above::size(parts) + A::size(parts)
    }

    fn put(out: &mut ByteList, parts: &AttrParts) {
        Above::put(out, parts);
        A::put(out, parts);
    }
}
