//! Packets of a queue.

ghost use Rattle.std.specs.Prelude.{◌≡◌, ◌≤◌, ◌++◌, length, drop, IfOk};
ghost use Rattle.ug_message.specs.Packets.{sent_to};
ghost use Rattle.ug_groups.specs.Packets.{says_of};

use crate::saying::Saying;
use crate::told::Told;
use std::alloc::Global;
use std::marker::Model;
use std::snapshot::Snapshot;
use std::sync::Arc;
use ug_message::patch;
use ug_types::{NoMemory, PeerEnds, Twin};

/// A packet, with the number of the step that formatted it, in memory that all queues share in which it stands.
#[derive(Drop)]
pub struct Packet {
    told: Arc<Told, Global>,
}

impl Model for Packet {
    ghost use Rattle.ug_groups.specs.Packets.{Packed, packed_of};

    ghost Value = { Packed };

    ghost view = { λ p. packed_of p.told.value };
}

impl Twin for Packet {
    fn twin(&self) -> Result<Packet, NoMemory> {
        Ok(Packet {
            told: Arc::try_clone(&self.told)?,
        })
    }
}

impl Packet {
    /// The packet that a step of that number formatted, which says this.
    pub fn new(
        alloc: Global,
        made: u64,
        packet: ug_message::Packet,
        saying: &Saying,
    ) -> Result<Packet, NoMemory>
        ensures { IfOk result (λ p. p ≡ record { made = made; says = says_of saying.now; shared = packet }) }
    {
        let told = Told {
            made,
            packet,
            saying: Snapshot::of(saying),
        };
        Ok(Packet {
            told: Arc::new(alloc, told)?,
        })
    }

    /// The number of the step.
    pub fn made(&self) -> u64
        ensures { result ≡ self.now.made }
    {
        self.told.as_ref().made
    }

    /// Puts what the peer at these ends is sent at the front of the buffer, and answers how many bytes it has. It takes no
    /// memory.
    pub fn send(&self, ends: &PeerEnds, buf: &mut [u8]) -> usize
        requires room { length self.now.shared.bytes ≤ length buf.old }
        requires family { self.now.shared.raw.family ≡ ends.now.local.family }
        ensures size { result ≡ length self.now.shared.bytes }
        ensures kept { length buf.new ≡ length buf.old }
        ensures bytes { buf.new ≡ sent_to ends.now self.now.shared ++ drop (length self.now.shared.bytes) buf.old }
    {
        patch(&self.told.as_ref().packet, ends, buf)
    }
}
