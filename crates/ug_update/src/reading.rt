//! Reading one whole message.

ghost use Rattle.std.specs.Prelude.{◌≡◌, ◌+◌, ◌≤◌, ◌==◌, true, false, length, option_map, if◌then◌else◌, IfSome, IfOk, IfErr, MatchResult, Ok, Err};
ghost use Rattle.ug_types.specs.Messages.{changes_of, message_of};
ghost use Rattle.ug_message.specs.Texts.{afi};
ghost use Rattle.ug_message.specs.AttributesRead.{read_attributes, read_multiprotocol};
ghost use Rattle.ug_update.specs.AttrsViews.{placed_of, multiprotocol_of};
ghost use Rattle.ug_update.specs.declared.fault.MessageFault.TheVariants as faults;
ghost use Rattle.ug_message.specs.Reading.{size_at, is_marked, is_size, header_fault, parts_in, one_route, route_fault, routes_in, attributes_read, placed_routes, ipv4_changes, ipv6_changes, read_update, read_refresh, read_body, is_alone, ends_rib_of, ends_rib};
ghost use Rattle.ug_update.specs.Views.{fault_of, parts_of, Gives, IsWithin};

use crate::attrs_fault::AttrFault;
use crate::attrs_reading::{read_attrs, read_attrs6};
use crate::fault::{Fault, MessageFault};
use crate::multiprotocol::{Multiprotocol, Placed};
use crate::parts::Parts;
use byteorder::{BigEndian, ByteOrder};
use std::alloc::Global;
use ug_types::{Attrs, Capabilities, Family, Item, Key, KeyList, Sequence, Update};

const UPDATE: u8 = 2;

const ROUTE_REFRESH: u8 = 5;

/// A length of two bytes at that place.
pub fn size_at(place: usize, bytes: &[u8]) -> usize
    requires { place + 2 ≤ length bytes.now }
    ensures exact { result ≡ size_at place bytes.now }
    ensures small { result ≤ 65535 }
{
    BigEndian::read_u16(&bytes[place..]) as usize
}

fn is_marked(bytes: &[u8]) -> bool
    requires { 16 ≤ length bytes.now }
    ensures { result ≡ is_marked bytes.now }
{
    bytes[..16].iter().all(|b| *b == 255)
}

#[tactic(auto, unfolding(ug_message::specs::Reading::is_size))]
fn is_size(session: Capabilities, kind: u8, size: usize) -> bool
    ensures { result ≡ is_size session kind size }
{
    let limit = session.message_limit();
    let fits_kind = match kind {
        UPDATE => size >= 23,
        ROUTE_REFRESH => size == 23,
        _ => true,
    };
    19 <= size && size <= limit && fits_kind
}

/// What is wrong with the header that the bytes begin with.
#[tactic(auto, unfolding(ug_message::specs::Reading::header_fault))]
pub fn header_fault(session: Capabilities, bytes: &[u8]) -> Option<Fault>
    requires { 19 ≤ length bytes.now }
    ensures exact { option_map fault_of result ≡ header_fault session bytes.now }
    ensures within { IfSome result (λ f. f.place ≤ 18) }
{
    if !is_marked(bytes) {
        return Some(Fault { cause: 1, place: 0 });
    }
    let kind = bytes[18];
    if !is_size(session, kind, size_at(16, bytes)) {
        return Some(Fault {
            cause: 2,
            place: 16,
        });
    }
    if kind != UPDATE && kind != ROUTE_REFRESH {
        return Some(Fault {
            cause: 3,
            place: 18,
        });
    }
    None
}

#[tactic(auto, unfolding(ug_message::specs::Reading::parts_in))]
fn parts_in(m: &[u8]) -> Result<Parts<'_>, Fault>
    requires { 23 ≤ length m.now }
    ensures exact { MatchResult result (λ p. parts_in m.now ≡ Ok (parts_of p)) (λ f. parts_in m.now ≡ Err (fault_of f)) }
    ensures within { IfErr result (λ f. f.place ≤ length m.now) }
    ensures sizes { IfOk result (λ p. 23 + length p.withdrawn.now + length p.attributes.now + length p.announced.now ≡ length m.now) }
{
    let withdrawn_size = size_at(19, m);
    if m.len() < 23 + withdrawn_size {
        return Err(Fault {
            cause: 4,
            place: 19,
        });
    }
    let field = 21 + withdrawn_size;
    let attributes_size = size_at(field, m);
    if m.len() < field + 2 + attributes_size {
        return Err(Fault {
            cause: 5,
            place: field,
        });
    }
    let (_, routes) = m.split_at(21);
    let (withdrawn, _) = routes.split_at(withdrawn_size);
    let (_, rest) = m.split_at(field + 2);
    let (attributes, announced) = rest.split_at(attributes_size);
    Ok(Parts {
        withdrawn,
        attributes,
        announced,
    })
}

/// The route that the bytes begin with, which stands at that place.
fn one_route(
    family: Family,
    add_path: bool,
    place: usize,
    bytes: &[u8],
) -> Result<(Key, usize), Fault>
    requires { place + length bytes.now ≤ 65535 }
    ensures exact { MatchResult result (λ x. one_route family add_path place bytes.now ≡ Ok (x.0, x.1)) (λ f. one_route family add_path place bytes.now ≡ Err (fault_of f)) }
    ensures size { IfOk result (λ x. (1 ≤ x.1) × (x.1 ≤ length bytes.now)) }
    ensures within { IfErr result (λ f. f.place ≤ place + length bytes.now) }
{
    match crate::route_reading::read_route(family, bytes, add_path) {
        Ok((key, size)) => Ok((key, size)),
        Err(refusal) => Err(route_fault(add_path, place, refusal.number)),
    }
}

/// What is wrong with a route that stands at that place.
fn route_fault(add_path: bool, place: usize, number: u8) -> Fault
    requires { place ≤ 65535 }
    ensures { fault_of result ≡ route_fault add_path place number }
{
    if number != 1 {
        return Fault { cause: 7, place };
    }
    let before = if add_path { 4 } else { 0 };
    Fault {
        cause: 6,
        place: place + before,
    }
}

fn routes_in(
    alloc: Global,
    family: Family,
    add_path: bool,
    place: usize,
    bytes: &[u8],
) -> Result<KeyList<Key>, MessageFault>
    requires { place + length bytes.now ≤ 65535 }
    ensures exact { Gives (λ keys. keys.items) result (routes_in family add_path place bytes.now) }
    ensures within { IfErr result (IsWithin (place + length bytes.now)) }
{
    let mut keys = Vec::with_capacity(alloc, bytes.len() / 4)?;
    let mut at = 0;
    while at < bytes.len() {
        let (_, rest) = bytes.split_at(at);
        let (key, size) = one_route(family, add_path, place + at, rest)?;
        keys.push(key)?;
        at += size;
    }
    Ok(Sequence::from_vec(keys))
}

/// The attributes of an UPDATE of IPv4 routes, whose length field stands at that place.
fn attributes_in(
    alloc: Global,
    need: bool,
    field: usize,
    bytes: &[u8],
) -> Result<Option<Attrs>, MessageFault>
    requires { field + 2 + length bytes.now ≤ 65535 }
    ensures exact { Gives (λ attrs. attrs) result (attributes_read field (read_attributes need bytes.now)) }
    ensures within { IfErr result (IsWithin (field + 2 + length bytes.now)) }
{
    match read_attrs(alloc, bytes, need) {
        Ok(attrs) => Ok(attrs),
        Err(AttrFault::NoMemory) => Err(MessageFault::NoMemory),
        Err(AttrFault::Refused { number, place }) => Err(attribute_fault(field, number, place)),
    }
}

/// The same of IPv6 routes, which stand among the attributes.
fn multiprotocol_in(alloc: Global, bytes: &[u8]) -> Result<Multiprotocol, MessageFault>
    requires { 23 + length bytes.now ≤ 65535 }
    ensures exact { Gives (multiprotocol_of bytes.now) result (attributes_read 21 (read_multiprotocol bytes.now)) }
    ensures within { IfErr result (IsWithin (23 + length bytes.now)) }
    ensures withdrawn { IfOk result (λ m. m.withdrawn.place + m.withdrawn.size ≤ length bytes.now) }
    ensures announced { IfOk result (λ m. m.announced.place + m.announced.size ≤ length bytes.now) }
{
    match read_attrs6(alloc, bytes) {
        Ok(found) => Ok(found),
        Err(AttrFault::NoMemory) => Err(MessageFault::NoMemory),
        Err(AttrFault::Refused { number, place }) => Err(attribute_fault(21, number, place)),
    }
}

/// A fault of the attributes of an UPDATE, whose length field stands at that place.
fn attribute_fault(field: usize, number: u8, place: usize) -> MessageFault
    requires number { number ≤ 9 }
    requires place { field + 2 + place ≤ 65535 }
    ensures { result ≡ faults.Refused (record { cause = 10 + number; place = if number == 7 then field else field + 2 + place }) }
{
    let place = if number == 7 {
        field
    } else {
        field + 2 + place
    };
    let cause = 10 + number;
    MessageFault::Refused(Fault { cause, place })
}

#[tactic(auto, unfolding(ug_message::specs::Reading::ipv4_changes))]
fn ipv4_update(alloc: Global, add_path: bool, parts: Parts<'_>) -> Result<Update, MessageFault>
    requires { 23 + length parts.withdrawn.now + length parts.attributes.now + length parts.announced.now ≤ 65535 }
    ensures exact { Gives changes_of result (ipv4_changes add_path (parts_of parts.entry)) }
    ensures within { IfErr result (IsWithin (23 + length parts.entry.withdrawn.now + length parts.entry.attributes.now + length parts.entry.announced.now)) }
{
    let field = 21 + parts.withdrawn.len();
    let start = field + 2 + parts.attributes.len();
    let announces = !parts.announced.is_empty();
    let withdrawn = routes_in(alloc, Family::V4, add_path, 21, parts.withdrawn)?;
    let found = attributes_in(alloc, announces, field, parts.attributes)?;
    let announced = routes_in(alloc, Family::V4, add_path, start, parts.announced)?;
    let attrs = if announces { found } else { None };
    Ok(Update {
        withdrawn,
        attrs,
        announced,
    })
}

/// The routes that stand there among the attributes.
fn placed_routes(
    alloc: Global,
    add_path: bool,
    attributes: &[u8],
    placed: Placed,
) -> Result<KeyList<Key>, MessageFault>
    requires small { 23 + length attributes.now ≤ 65535 }
    requires within { placed.place + placed.size ≤ length attributes.now }
    ensures exact { Gives (λ keys. keys.items) result (placed_routes add_path (placed_of attributes.now placed)) }
    ensures within { IfErr result (IsWithin (23 + length attributes.now)) }
{
    let routes = &attributes[placed.place..placed.place + placed.size];
    routes_in(alloc, Family::V6, add_path, 23 + placed.place, routes)
}

/// An UPDATE of IPv6 routes, and whether it is End-of-RIB.
#[tactic(auto, using(crate::proofs::ValueParts::length_part), unfolding(ug_message::specs::Reading::ipv6_changes))]
fn ipv6_update(
    alloc: Global,
    add_path: bool,
    parts: Parts<'_>,
) -> Result<(Update, bool), MessageFault>
    requires { 23 + length parts.withdrawn.now + length parts.attributes.now + length parts.announced.now ≤ 65535 }
    ensures exact { Gives (λ x. changes_of x.0) result (ipv6_changes add_path (parts_of parts.entry)) }
    ensures end { IfOk result (λ x. x.1 ≡ is_alone (read_multiprotocol parts.entry.attributes.now)) }
    ensures within { IfErr result (IsWithin (23 + length parts.entry.withdrawn.now + length parts.entry.attributes.now + length parts.entry.announced.now)) }
{
    if !parts.withdrawn.is_empty() || !parts.announced.is_empty() {
        return Err(MessageFault::Refused(Fault { cause: 9, place: 0 }));
    }
    let found = multiprotocol_in(alloc, parts.attributes)?;
    let (withdrawn_at, announced_at) = (found.withdrawn, found.announced);
    let (found_attrs, is_alone) = (found.attrs, found.is_alone);
    let withdrawn = placed_routes(alloc, add_path, parts.attributes, withdrawn_at)?;
    let announced = placed_routes(alloc, add_path, parts.attributes, announced_at)?;
    let announces = announced_at.size > 0;
    let attrs = if announces { found_attrs } else { None };
    let update = Update {
        withdrawn,
        attrs,
        announced,
    };
    Ok((update, is_alone))
}

/// An UPDATE of the session's family, and whether it is End-of-RIB.
#[tactic(auto, unfolding(ug_message::specs::Reading::read_update))]
fn read_update(
    alloc: Global,
    session: Capabilities,
    m: &[u8],
) -> Result<(Update, bool), MessageFault>
    requires least { 23 ≤ length m.now }
    requires most { length m.now ≤ 65535 }
    ensures exact { Gives (λ x. changes_of x.0) result (read_update session m.now) }
    ensures end { IfOk result (λ x. x.1 ≡ ends_rib_of session.family m.now) }
    ensures within { IfErr result (IsWithin (length m.now)) }
{
    let parts = parts_in(m)?;
    match session.family {
        Family::V4 => {
            let update = ipv4_update(alloc, session.add_path, parts)?;
            Ok((update, m.len() == 23))
        }
        Family::V6 => ipv6_update(alloc, session.add_path, parts),
    }
}

fn afi(family: Family) -> usize
    ensures { result ≡ afi family }
{
    match family {
        Family::V4 => 1,
        Family::V6 => 2,
    }
}

#[tactic(auto, unfolding(ug_message::specs::Reading::read_refresh))]
fn read_refresh(family: Family, m: &[u8]) -> Item
    requires { 23 ≤ length m.now }
    ensures { message_of result ≡ read_refresh family m.now }
{
    if size_at(19, m) != afi(family) || m[22] != 1 {
        return Item::Ignored;
    }
    match m[21] {
        1 => Item::Begin,
        2 => Item::End,
        _ => Item::Ignored,
    }
}

/// Reads a whole message whose header has no fault, and answers whether it is End-of-RIB.
#[tactic(auto, unfolding(ug_message::specs::Reading::read_body, ug_message::specs::Reading::ends_rib))]
pub fn read_body(
    alloc: Global,
    session: Capabilities,
    m: &[u8],
) -> Result<(Item, bool), MessageFault>
    requires least { 23 ≤ length m.now }
    requires most { length m.now ≤ 65535 }
    ensures exact { Gives (λ x. message_of x.0) result (read_body session m.now) }
    ensures end { IfOk result (λ x. x.1 ≡ ends_rib session.family m.now) }
    ensures within { IfErr result (IsWithin (length m.now)) }
{
    if m[18] == ROUTE_REFRESH {
        return Ok((read_refresh(session.family, m), false));
    }
    let (update, ends) = read_update(alloc, session, m)?;
    let is_update = m[18] == UPDATE;
    Ok((Item::Update(update), is_update && ends))
}
