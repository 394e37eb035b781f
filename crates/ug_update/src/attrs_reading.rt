//! Reading the attributes of one message.

ghost use Rattle.std.specs.Prelude.{◌≡◌, ◌+◌, ◌≤◌, false, List, ℕ, Ok, Some, None, is_some, length, drop, IfOk, IfErr};
ghost use Rattle.ug_message.specs.Walking.{walk_all};
ghost use Rattle.ug_message.specs.Kind.{Kind, nothing_read};
ghost use Rattle.ug_message.specs.AttributeTable.{kind_of};
ghost use Rattle.ug_message.specs.AttributesRead.{with_known, with_attribute, one_attribute, attribute_step, with_mandatory, at_end, read_attributes, read_multiprotocol};
ghost use Rattle.ug_update.specs.AttrsViews.{so_far, standing, StandsAt, placed, multiprotocol_of, Gives, GivesOne, HasNumber, IsWithin};

use crate::attrs_fault::{AttrFault, AttributeFault};
use crate::found::{Found, Standing};
use crate::head::attribute_at;
use crate::multiprotocol::{
    Multiprotocol, announced_in, has_routes, is_alone, next_hop_in, withdrawn_in,
};
use crate::row::OPTIONAL;
use crate::table::{Ipv4, Ipv6, Table};
use std::alloc::Global;
use ug_types::{Addr, AttrParts, Attrs, Family, Sequence};

/// Reads the attribute if it is one of those that messages of the family have, and answers whether it is.
#[tactic(auto, unfolding(ug_message::specs::AttributeTable::kinds))]
fn read_known(
    alloc: Global,
    family: Family,
    found: &mut Found,
    all: &[u8],
    a: Standing<'_>,
) -> Result<bool, AttributeFault>
    requires within { a.place + length a.value.now ≤ length all.now }
    requires stands { StandsAt all.now a.place a.value.now }
    requires limit { found.old.limit ≡ length all.now }
    ensures known { IfOk result (λ known. known ≡ is_some (kind_of family a.entry.kind)) }
    ensures exact { (kind : Kind) → kind_of family a.entry.kind ≡ Some kind → GivesOne (λ _. so_far all.now found.new) result (with_known kind (standing a.entry) (so_far all.now found.old)) }
    ensures other { kind_of family a.entry.kind ≡ None → (result ≡ Ok false) × (so_far all.now found.new ≡ so_far all.now found.old) }
    ensures limit { found.new.limit ≡ found.old.limit }
    ensures number { IfErr result HasNumber }
{
    match family {
        Family::V4 => Ipv4::read(alloc, found, all, a),
        Family::V6 => Ipv6::read(alloc, found, all, a),
    }
}

#[tactic(auto, unfolding(ug_message::specs::AttributesRead::with_attribute))]
fn read_attribute(
    alloc: Global,
    family: Family,
    found: &mut Found,
    all: &[u8],
    a: Standing<'_>,
) -> Result<(), AttributeFault>
    requires within { a.place + length a.value.now ≤ length all.now }
    requires stands { StandsAt all.now a.place a.value.now }
    requires limit { found.old.limit ≡ length all.now }
    ensures exact { GivesOne (λ _. so_far all.now found.new) result (with_attribute family (standing a.entry) (so_far all.now found.old)) }
    ensures limit { found.new.limit ≡ found.old.limit }
    ensures number { IfErr result HasNumber }
{
    if found.types.as_slice().contains(&a.kind) {
        return Err(AttributeFault::Refused(2));
    }
    if found.types.push(a.kind).is_err() {
        return Err(AttributeFault::NoMemory);
    }
    let is_known = read_known(alloc, family, found, all, a)?;
    if !is_known && a.flags & OPTIONAL == 0 {
        return Err(AttributeFault::Refused(8));
    }
    Ok(())
}

/// Reads the attribute that stands at that place of all attributes, and answers how many bytes it takes.
#[tactic(auto, using(crate::proofs::ValueParts::stands), unfolding(ug_message::specs::AttributesRead::one_attribute))]
fn read_one(
    alloc: Global,
    family: Family,
    found: &mut Found,
    all: &[u8],
    place: usize,
) -> Result<usize, AttributeFault>
    requires within { place ≤ length all.now }
    requires limit { found.old.limit ≡ length all.now }
    ensures exact { GivesOne (λ size. (so_far all.now found.new, size)) result (one_attribute family place (so_far all.now found.old) (drop place all.now)) }
    ensures within { IfOk result (λ size. (1 ≤ size) × (place + size ≤ length all.now)) }
    ensures limit { found.new.limit ≡ found.old.limit }
    ensures number { IfErr result HasNumber }
{
    let (_, bytes) = all.split_at(place);
    let (attribute, size) = attribute_at(place, bytes)?;
    read_attribute(alloc, family, found, all, attribute)?;
    Ok(size)
}

fn nothing_read(alloc: Global, limit: usize) -> Found
    ensures nothing { (all : List ℕ) → so_far all result ≡ nothing_read }
    ensures limit { result.limit ≡ limit }
{
    Found {
        limit,
        types: Sequence::new(alloc),
        origin: None,
        path: None,
        next_hop: None,
        med: None,
        local_pref: None,
        atomic: false,
        aggregator: None,
        communities: Sequence::new(alloc),
        originator: None,
        clusters: Sequence::new(alloc),
        reach: None,
        unreach: None,
    }
}

/// What was wrong, with the place of the attribute.
fn placed(fault: AttributeFault, place: usize) -> AttrFault
    ensures { result ≡ placed fault place }
{
    match fault {
        AttributeFault::Refused(number) => AttrFault::Refused { number, place },
        AttributeFault::NoMemory => AttrFault::NoMemory,
    }
}

fn read_all(alloc: Global, family: Family, bytes: &[u8]) -> Result<Found, AttrFault>
    ensures exact { Gives (so_far bytes.now) result (walk_all (attribute_step family) nothing_read bytes.now) }
    ensures limit { IfOk result (λ found. found.limit ≡ length bytes.now) }
    ensures within { IfErr result (IsWithin (length bytes.now)) }
{
    let mut found = nothing_read(alloc, bytes.len());
    let mut place = 0;
    while place < bytes.len() {
        match read_one(alloc, family, &mut found, bytes, place) {
            Ok(size) => place += size,
            Err(e) => return Err(placed(e, place)),
        }
    }
    Ok(found)
}

/// The attributes with that next hop, where the three that each route needs are there. 7 where they are needed and one
/// is missing.
fn finish(found: Found, next_hop: Option<Addr>, need: bool) -> Result<Option<Attrs>, AttrFault>
    ensures exact { (all : List ℕ) → Gives (λ attrs. attrs) result (at_end need (with_mandatory (so_far all found).origin (so_far all found).path next_hop (so_far all found))) }
    ensures within { IfErr result (IsWithin 0) }
{
    let (Some(origin), Some(path), Some(next_hop)) = (found.origin, found.path, next_hop) else {
        return if need {
            Err(AttrFault::Refused {
                number: 7,
                place: 0,
            })
        } else {
            Ok(None)
        };
    };
    let parts = AttrParts {
        origin,
        path,
        next_hop,
        med: found.med,
        local_pref: found.local_pref,
        atomic: found.atomic,
        aggregator: found.aggregator,
        communities: found.communities,
        originator: found.originator,
        clusters: found.clusters,
    };
    match Attrs::received(parts) {
        Ok(attrs) => Ok(Some(attrs)),
        Err(_) => Ok(None),
    }
}

/// The attributes of IPv4 routes that the bytes spell, in any order and with either form of length, or the first fault.
/// None exactly where ORIGIN, AS_PATH or NEXT_HOP is missing and `need` is false.
#[tactic(auto, unfolding(ug_message::specs::AttributesRead::read_attributes))]
pub fn read_attrs(alloc: Global, bytes: &[u8], need: bool) -> Result<Option<Attrs>, AttrFault>
    ensures exact { Gives (λ attrs. attrs) result (read_attributes need bytes.now) }
    ensures within { IfErr result (IsWithin (length bytes.now)) }
{
    let found = read_all(alloc, Family::V4, bytes)?;
    let next_hop = found.next_hop;
    finish(found, next_hop, need)
}

/// What the attributes of an UPDATE of IPv6 routes say, or the first fault. A NEXT_HOP among them is read, and has no
/// effect.
#[tactic(auto, unfolding(ug_message::specs::AttributesRead::read_multiprotocol))]
pub fn read_attrs6(alloc: Global, bytes: &[u8]) -> Result<Multiprotocol, AttrFault>
    ensures exact { Gives (multiprotocol_of bytes.now) result (read_multiprotocol bytes.now) }
    ensures within { IfErr result (IsWithin (length bytes.now)) }
    ensures withdrawn { IfOk result (λ m. m.withdrawn.place + m.withdrawn.size ≤ length bytes.now) }
    ensures announced { IfOk result (λ m. m.announced.place + m.announced.size ≤ length bytes.now) }
{
    let found = read_all(alloc, Family::V6, bytes)?;
    let withdrawn = withdrawn_in(&found);
    let announced = announced_in(&found);
    let next_hop = next_hop_in(&found);
    let is_alone = is_alone(found.types.as_slice(), withdrawn);
    let need = has_routes(announced);
    match finish(found, next_hop, need) {
        Ok(attrs) => Ok(Multiprotocol {
            attrs,
            withdrawn,
            announced,
            is_alone,
        }),
        Err(e) => Err(e),
    }
}
