ghost use Rattle.std.specs.Prelude.{◌≡◌, ◌+◌, ◌<◌, ◌≤◌, ◌++◌, true, [], Some, length, take, drop, IfOk};
ghost use Rattle.std.specs.Int.{w16, to_be_bytes};
ghost use Rattle.std.specs.List.{splice};
ghost use Rattle.ug_types.specs.Ip.{IpAddress};
ghost use Rattle.ug_types.specs.declared.capabilities.Capabilities as sessions;
ghost use Rattle.ug_types.specs.declared.family.Family.TheVariants.{V6};
ghost use Rattle.ug_types.specs.Messages.{Updates};
ghost use Rattle.ug_types.specs.Sessions.{message_limit};
ghost use Rattle.ug_message.specs.Spelling.{sixteen_bytes};
ghost use Rattle.ug_message.specs.Spellable.{has_ipv4_addresses, are_of_family, is_address};
ghost use Rattle.ug_message.specs.Texts.{written};
ghost use Rattle.ug_update.specs.Updates.{AreAlike, IsSessionOf, withdrawing, announcing, IsMessageSize, header};
ghost use Rattle.ug_update.specs.Sizes6.{withdrawal_size, announcement_size, next_hop_place};

use crate::attributes::mp_reach_nlri::write_reach;
use crate::attributes::mp_unreach_nlri::write_unreach;
use crate::attrs_writing::{size_but_next_hop, write_but_next_hop};
use crate::head::size_around;
use crate::writing::{routes_size, start, write_routes, write_size};
use std::alloc::Global;
use ug_types::{Attrs, ByteList, Key, NoMemory, Written};

/// The UPDATE that announces these IPv6 routes with these attributes, and where the value of the next hop stands in it.
/// Routes and next hop stand in MP_REACH_NLRI, and there is no NEXT_HOP (RFC 4760 section 3).
#[tactic(auto, using(crate::proofs::Texts6::least_around))]
pub fn write_update6(alloc: Global, attrs: &Attrs, keys: &[Key]) -> Result<Written, NoMemory>
    requires some { 0 < length keys.now }
    requires alike { AreAlike keys.now }
    requires short { IsMessageSize (announcement_size attrs.now keys.now) }
    requires family { are_of_family V6 keys.now ≡ true }
    requires next_hop { attrs.now.next_hop.family ≡ V6 }
    requires addresses { has_ipv4_addresses attrs.now ≡ true }
    // In each session that has such routes, and a limit that it is within, it is the text.
    ensures text { IfOk result (λ w. (c : sessions.Capabilities) → IsSessionOf V6 keys.now c → announcement_size attrs.now keys.now ≤ message_limit c →
        written c (Updates (announcing attrs.now keys.now)) ≡ Some w.bytes.items) }
    ensures size { IfOk result (λ w. length w.bytes.items ≡ announcement_size attrs.now keys.now) }
    ensures place { IfOk result (λ w. w.place ≡ next_hop_place attrs.now keys.now) }
    // Whatever IPv6 address is put there, it is the text with that next hop.
    ensures rewritten { IfOk result (λ w. (c : sessions.Capabilities) → (hop : IpAddress) → IsSessionOf V6 keys.now c → announcement_size attrs.now keys.now ≤ message_limit c →
        is_address V6 hop ≡ true → written c (Updates (announcing (record attrs.now { next_hop = hop }) keys.now)) ≡ Some (splice w.bytes.items w.place (w.place + 16) (sixteen_bytes hop))) }
    ensures next_hop { IfOk result (λ w. take 16 (drop w.place w.bytes.items) ≡ sixteen_bytes attrs.now.next_hop) }
{
    let routes = routes_size(keys);
    let size = size_but_next_hop(attrs) + size_around(21 + routes);
    let mut bytes = start_attributes(alloc, size)?;
    write_but_next_hop(&mut bytes, attrs)?;
    let place = write_reach(&mut bytes, &attrs.parts().next_hop, routes)?;
    write_routes(&mut bytes, keys)?;
    Ok(Written { bytes, place })
}

/// The UPDATE that withdraws these IPv6 routes, which stand in MP_UNREACH_NLRI (RFC 4760 section 4).
#[tactic(auto, using(crate::proofs::Texts6::least_around))]
pub fn write_withdraw6(alloc: Global, keys: &[Key]) -> Result<ByteList, NoMemory>
    requires some { 0 < length keys.now }
    requires alike { AreAlike keys.now }
    requires short { IsMessageSize (withdrawal_size keys.now) }
    requires family { are_of_family V6 keys.now ≡ true }
    ensures text { IfOk result (λ bytes. (c : sessions.Capabilities) → IsSessionOf V6 keys.now c → withdrawal_size keys.now ≤ message_limit c →
        written c (Updates (withdrawing keys.now)) ≡ Some bytes.items) }
    ensures size { IfOk result (λ bytes. length bytes.items ≡ withdrawal_size keys.now) }
{
    let routes = routes_size(keys);
    let size = size_around(3 + routes);
    let mut bytes = start_attributes(alloc, size)?;
    write_unreach(&mut bytes, routes)?;
    write_routes(&mut bytes, keys)?;
    Ok(bytes)
}

/// End-of-RIB for IPv6 unicast: an UPDATE whose one attribute is an empty MP_UNREACH_NLRI (RFC 4724 section 2).
pub fn write_eor6(alloc: Global) -> Result<ByteList, NoMemory>
    ensures text { IfOk result (λ bytes. (c : sessions.Capabilities) → c.family ≡ V6 →
        written c (Updates (withdrawing [])) ≡ Some bytes.items) }
    ensures size { IfOk result (λ bytes. length bytes.items ≡ 29) }
{
    let mut bytes = start_attributes(alloc, 6)?;
    write_unreach(&mut bytes, 0)?;
    Ok(bytes)
}

/// What stands before the attributes of an UPDATE, which have so many bytes: its header, and that there is nothing in the
/// field of withdrawn routes. There is room for all of it.
fn start_attributes(alloc: Global, size: usize) -> Result<ByteList, NoMemory>
    requires { IsMessageSize (23 + size) }
    ensures { IfOk result (λ bytes. bytes.items ≡ header (23 + size) ++ to_be_bytes w16 0 ++ to_be_bytes w16 size) }
{
    let mut bytes = start(alloc, 23 + size)?;
    write_size(&mut bytes, 0)?; // no withdrawn routes
    write_size(&mut bytes, size)?;
    Ok(bytes)
}
