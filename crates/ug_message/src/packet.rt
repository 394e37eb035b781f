//! A packet that many peers share, and what each of them is sent.

ghost use Rattle.std.specs.Prelude.{◌≡◌, ◌+◌, ◌≤◌, ◌++◌, length, drop, Some};
ghost use Rattle.std.specs.List.{splice};
ghost use Rattle.ug_message.specs.Packets.{address_size, with_address, sent_to};

use crate::hops::next_hop;
use std::alloc::Global;
use std::marker::Model;
use ug_types::{Addr, ByteList, Family, NhKind, NoMemory, PeerEnds, Twin};

/// A message as many peers share it. Where it announces routes, `place` is where the value of its next hop stands: four
/// bytes of IPv4 (NEXT_HOP, RFC 4271 section 5.1.3) or sixteen of IPv6 (MP_REACH_NLRI, RFC 4760 section 3). `raw` and `kind`
/// say what each peer is told there.
#[derive(Drop)]
pub struct Packet {
    pub alloc: Global,
    pub bytes: ByteList,
    pub place: Option<usize>,
    pub raw: Addr,
    pub kind: NhKind,
}

impl Model for Packet {
    ghost use Rattle.ug_message.specs.Packets.{Shared, HasPlace};

    ghost Value = { Shared };

    ghost view = { λ p. record { bytes = p.bytes.items; place = p.place; raw = p.raw; kind = p.kind } };

    ghost invariant = { λ p. HasPlace (record { bytes = p.bytes.items; place = p.place; raw = p.raw; kind = p.kind }) };
}

impl Twin for Packet {
    fn twin(&self) -> Result<Packet, NoMemory> {
        Ok(Packet {
            alloc: self.alloc,
            bytes: self.bytes.copy(self.alloc)?,
            place: self.place,
            raw: self.raw,
            kind: self.kind,
        })
    }
}

/// Puts what the peer at these ends is sent at the front of the buffer, and answers how many bytes it has. It takes no
/// memory.
pub fn patch(packet: &Packet, ends: &PeerEnds, buf: &mut [u8]) -> usize
    requires room { length packet.now.bytes ≤ length buf.old }
    requires family { packet.now.raw.family ≡ ends.now.local.family }
    ensures size { result ≡ length packet.now.bytes }
    ensures bytes { buf.new ≡ sent_to ends.now packet.now ++ drop (length packet.now.bytes) buf.old }
{
    let bytes = packet.bytes.as_slice();
    let hop = next_hop(packet.kind, packet.raw, ends);
    put(buf, 0, bytes);
    if let Some(place) = packet.place {
        put_address(buf, place, &hop);
    }
    bytes.len()
}

/// Puts the bytes of an address there.
fn put_address(buf: &mut [u8], place: usize, address: &Addr)
    requires { place + address_size address.now.family ≤ length buf.old }
    ensures { buf.new ≡ with_address (Some place) address.now buf.old }
{
    match address.family {
        Family::V4 => put(buf, place, &address.bits.to_be_bytes()[..4]),
        Family::V6 => put(buf, place, &address.bits.to_be_bytes()),
    }
}

/// Puts bytes there.
#[tactic(auto, using(crate::proofs::Spliced::put_mid_is))]
fn put(buf: &mut [u8], place: usize, bytes: &[u8])
    requires { place + length bytes.now ≤ length buf.old }
    ensures { buf.new ≡ splice buf.old place (place + length bytes.now) bytes.now }
{
    buf[place..place + bytes.len()].copy_from_slice(bytes);
}
