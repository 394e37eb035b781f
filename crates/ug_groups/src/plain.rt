//! Packets without routes.

ghost use Rattle.std.specs.Prelude.{◌≡◌, IfOk};
ghost use Rattle.ug_group_rules.specs.Packets.{EndOfRib, RefreshBegins, RefreshEnds};
ghost use Rattle.ug_groups.specs.Packets.{said};
ghost use Rattle.ug_groups.specs.Sent.{session_of, IsSent};

use crate::packet::Packet;
use crate::saying::Saying;
use std::alloc::Global;
use ug_outbound::GroupKey;
use ug_pack::{build_eor, build_mark};
use ug_types::NoMemory;

/// The packet that tells that a refresh begins.
#[tactic(auto, using(crate::proofs::PlainPackets::sent_mark, crate::proofs::PlainPackets::sent_as))]
pub fn refresh_begins(alloc: Global, key: &GroupKey, made: u64) -> Result<Packet, NoMemory>
    ensures packet { IfOk result (λ p. said p ≡ record { made = made; says = RefreshBegins }) }
    ensures sent { IfOk result (IsSent (session_of key.now)) }
{
    let mark = build_mark(alloc, true, key.family)?;
    let packet = Packet::new(alloc, made, mark, &Saying::RefreshBegins)?;
    Ok(packet)
}

/// The packet that tells that a refresh ends.
#[tactic(auto, using(crate::proofs::PlainPackets::sent_ends, crate::proofs::PlainPackets::sent_as))]
pub fn refresh_ends(alloc: Global, key: &GroupKey, made: u64) -> Result<Packet, NoMemory>
    ensures packet { IfOk result (λ p. said p ≡ record { made = made; says = RefreshEnds }) }
    ensures sent { IfOk result (IsSent (session_of key.now)) }
{
    let mark = build_mark(alloc, false, key.family)?;
    let packet = Packet::new(alloc, made, mark, &Saying::RefreshEnds)?;
    Ok(packet)
}

/// End-of-RIB.
#[tactic(auto, using(crate::proofs::PlainPackets::sent_eor, crate::proofs::PlainPackets::sent_as))]
pub fn end_of_rib(alloc: Global, key: &GroupKey, made: u64) -> Result<Packet, NoMemory>
    ensures packet { IfOk result (λ p. said p ≡ record { made = made; says = EndOfRib }) }
    ensures sent { IfOk result (IsSent (session_of key.now)) }
{
    let eor = build_eor(alloc, key.family)?;
    let packet = Packet::new(alloc, made, eor, &Saying::EndOfRib)?;
    Ok(packet)
}
