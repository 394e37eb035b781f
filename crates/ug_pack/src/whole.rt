//! Packets that say no routes.

ghost use Rattle.std.specs.Prelude.{◌≡◌, [], Some, None, IfOk, if◌then◌else◌};
ghost use Rattle.ug_types.specs.declared.capabilities.Capabilities as sessions;
ghost use Rattle.ug_types.specs.Messages.{Updates, Begins, Ends};
ghost use Rattle.ug_message.specs.Texts.{written};
ghost use Rattle.ug_update.specs.Updates.{withdrawing};
ghost use Rattle.ug_pack.specs.Packets.{IsPlain};

use std::alloc::Global;
use ug_message::Packet;
use ug_types::{Addr, ByteList, Family, NhKind, NoMemory};
use ug_update::{write_eor, write_eor6, write_mark};

/// End-of-RIB for the family: 23 bytes for IPv4, and 29 for IPv6 (RFC 4724 section 2).
pub fn build_eor(alloc: Global, family: Family) -> Result<Packet, NoMemory>
    ensures plain { IfOk result (λ p. IsPlain family p) }
    ensures text { IfOk result (λ p. (c : sessions.Capabilities) → c.family ≡ family → written c (Updates (withdrawing [])) ≡ Some p.bytes) }
{
    let bytes = match family {
        Family::V4 => write_eor(alloc)?,
        Family::V6 => write_eor6(alloc)?,
    };
    Ok(plain(alloc, family, bytes))
}

/// The mark of the begin or the end of a refresh of the family's routes: 23 bytes (RFC 7313 section 3.2).
pub fn build_mark(alloc: Global, begin: bool, family: Family) -> Result<Packet, NoMemory>
    ensures plain { IfOk result (λ p. IsPlain family p) }
    ensures text { IfOk result (λ p. (c : sessions.Capabilities) → c.family ≡ family → written c (if begin then Begins else Ends) ≡ Some p.bytes) }
{
    let bytes = write_mark(alloc, family, begin)?;
    Ok(plain(alloc, family, bytes))
}

/// A packet without next hop: all peers are sent the same.
pub fn plain(alloc: Global, family: Family, bytes: ByteList) -> Packet
    ensures plain { IsPlain family result }
    ensures bytes { result.bytes ≡ bytes.items }
{
    Packet {
        alloc,
        bytes,
        place: None,
        raw: Addr { family, bits: 0 },
        kind: NhKind::Keep,
    }
}
