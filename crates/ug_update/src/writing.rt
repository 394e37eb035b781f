ghost use Rattle.std.specs.Prelude.{◌≡◌, ◌+◌, ◌<◌, ◌≤◌, ◌++◌, true, [], Some, length, OnOk, IfOk, if◌then◌else◌};
ghost use Rattle.std.specs.List.{list_all, splice};
ghost use Rattle.ug_types.specs.Ip.{IpAddress};
ghost use Rattle.std.specs.Int.{w16, to_be_bytes};
ghost use Rattle.ug_types.specs.declared.capabilities.Capabilities as sessions;
ghost use Rattle.ug_types.specs.declared.family.Family.TheVariants.{V4};
ghost use Rattle.ug_types.specs.Messages.{Updates, Begins, Ends};
ghost use Rattle.ug_types.specs.Sessions.{message_limit};
ghost use Rattle.ug_message.specs.Spelling.{next_hop_place, four_bytes};
ghost use Rattle.ug_message.specs.Spellable.{is_ipv4, has_ipv4_addresses, are_of_family, is_address};
ghost use Rattle.ug_message.specs.Texts.{written, afi, attributes_place};
ghost use Rattle.ug_update.specs.Updates.{AreAlike, IsSessionOf, is_own, withdrawing, announcing, weight_of_all, withdrawal_size, announcement_size, IsMessageSize, own_routes, header};

use crate::attrs_writing::{size_of, write_attrs};
use std::alloc::Global;
use ug_message::put_u16;
use ug_types::{Attrs, ByteList, Family, Key, NoMemory, Sequence, Written};

/// The UPDATE that announces these IPv4 routes with these attributes, and where the value of NEXT_HOP stands in it.
pub fn write_update(alloc: Global, attrs: &Attrs, keys: &[Key]) -> Result<Written, NoMemory>
    requires some { 0 < length keys.now }
    requires alike { AreAlike keys.now }
    requires short { IsMessageSize (announcement_size attrs.now keys.now) }
    requires family { are_of_family V4 keys.now ≡ true }
    requires next_hop { is_ipv4 attrs.now.next_hop ≡ true }
    requires addresses { has_ipv4_addresses attrs.now ≡ true }
    // In each session that has such routes, and a limit that it is within, it is the text.
    ensures text { IfOk result (λ w. (c : sessions.Capabilities) → IsSessionOf V4 keys.now c → announcement_size attrs.now keys.now ≤ message_limit c →
        written c (Updates (announcing attrs.now keys.now)) ≡ Some w.bytes.items) }
    ensures size { IfOk result (λ w. length w.bytes.items ≡ announcement_size attrs.now keys.now) }
    ensures place { IfOk result (λ w. w.place ≡ attributes_place + next_hop_place attrs.now) }
    // Whatever IPv4 address is put there, it is the text with that next hop.
    ensures rewritten { IfOk result (λ w. (c : sessions.Capabilities) → (hop : IpAddress) → IsSessionOf V4 keys.now c → announcement_size attrs.now keys.now ≤ message_limit c →
        is_address V4 hop ≡ true → written c (Updates (announcing (record attrs.now { next_hop = hop }) keys.now)) ≡ Some (splice w.bytes.items w.place (w.place + 4) (four_bytes hop))) }
{
    let attrs_size = size_of(attrs);
    let mut bytes = start(alloc, 23 + (attrs_size + routes_size(keys)))?;
    write_size(&mut bytes, 0)?; // no route is withdrawn
    write_size(&mut bytes, attrs_size)?;
    let place = write_attrs(&mut bytes, attrs)?;
    write_routes(&mut bytes, keys)?;
    Ok(Written { bytes, place })
}

/// The UPDATE that withdraws these IPv4 routes.
pub fn write_withdraw(alloc: Global, keys: &[Key]) -> Result<ByteList, NoMemory>
    requires some { 0 < length keys.now }
    requires alike { AreAlike keys.now }
    requires short { IsMessageSize (withdrawal_size keys.now) }
    requires family { are_of_family V4 keys.now ≡ true }
    ensures text { IfOk result (λ bytes. (c : sessions.Capabilities) → IsSessionOf V4 keys.now c → withdrawal_size keys.now ≤ message_limit c →
        written c (Updates (withdrawing keys.now)) ≡ Some bytes.items) }
    ensures size { IfOk result (λ bytes. length bytes.items ≡ withdrawal_size keys.now) }
{
    let withdrawn = routes_size(keys);
    let mut bytes = start(alloc, 23 + withdrawn)?;
    write_size(&mut bytes, withdrawn)?;
    write_routes(&mut bytes, keys)?;
    write_size(&mut bytes, 0)?; // no attributes
    Ok(bytes)
}

/// End-of-RIB for IPv4 unicast: an UPDATE that says nothing.
pub fn write_eor(alloc: Global) -> Result<ByteList, NoMemory>
    ensures text { IfOk result (λ bytes. (c : sessions.Capabilities) → c.family ≡ V4 →
        written c (Updates (withdrawing [])) ≡ Some bytes.items) }
    ensures size { IfOk result (λ bytes. length bytes.items ≡ 23) }
{
    let mut bytes = start(alloc, 23)?;
    write_size(&mut bytes, 0)?;
    write_size(&mut bytes, 0)?;
    Ok(bytes)
}

/// The mark of the begin or the end of a refresh of the family's unicast routes: a ROUTE-REFRESH (RFC 7313 section 3.2).
pub fn write_mark(alloc: Global, family: Family, begin: bool) -> Result<ByteList, NoMemory>
    ensures text { IfOk result (λ bytes. (c : sessions.Capabilities) → c.family ≡ family →
        written c (if begin then Begins else Ends) ≡ Some bytes.items) }
    ensures size { IfOk result (λ bytes. length bytes.items ≡ 23) }
{
    let mut bytes = Sequence::new(alloc);
    bytes.reserve(23)?;
    bytes.extend_from_slice(&[255; 16])?;
    bytes.extend_from_slice(&[0, 23, 5, 0, afi(family), mark_number(begin), 1])?;
    Ok(bytes)
}

/// The number of the family, in one byte.
fn afi(family: Family) -> u8
    ensures { result ≡ afi family }
{
    match family {
        Family::V4 => 1,
        Family::V6 => 2,
    }
}

/// The byte that says which mark it is.
fn mark_number(begin: bool) -> u8
    ensures { result ≡ (if begin then 1 else 2) }
{
    if begin { 1 } else { 2 }
}

/// An UPDATE's header, with room for all of it.
pub fn start(alloc: Global, size: usize) -> Result<ByteList, NoMemory>
    requires { IsMessageSize size }
    ensures { IfOk result (λ bytes. bytes.items ≡ header size) }
{
    let mut bytes = Sequence::new(alloc);
    bytes.reserve(size)?;
    bytes.extend_from_slice(&[255; 16])?;
    write_size(&mut bytes, size)?;
    bytes.extend_from_slice(&[2])?;
    Ok(bytes)
}

/// Adds a length in two bytes.
pub fn write_size(out: &mut ByteList, size: usize) -> Result<(), NoMemory>
    requires { IsMessageSize size }
    ensures { OnOk result (out.new.items ≡ out.old.items ++ to_be_bytes w16 size) }
{
    out.reserve(2)?;
    put_u16(out, size as u16);
    Ok(())
}

/// How many bytes the routes take.
pub fn routes_size(keys: &[Key]) -> usize
    requires { IsMessageSize (weight_of_all keys.now) }
    ensures weight { result ≡ weight_of_all keys.now }
    ensures length { result ≡ length (own_routes keys.now) }
{
    let mut size = 0;
    for key in keys {
        size += crate::route_writing::size(key);
    }
    size
}

/// Adds the routes, which messages can spell so.
pub fn write_routes(out: &mut ByteList, keys: &[Key]) -> Result<(), NoMemory>
    ensures ok { OnOk result (out.new.items ≡ out.old.items ++ own_routes keys.now) }
    ensures formed { OnOk result (list_all is_own keys.now ≡ true) }
{
    for key in keys {
        crate::route_writing::write(out, key)?;
    }
    Ok(())
}
