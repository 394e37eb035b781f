//! How far it is known what a peer should have.

ghost use Rattle.std.specs.Prelude.{◌≡◌, ◌<◌, ◌∷◌, ◌++◌, [], List, length, slice_get, Some, None, OnOk};
ghost use Rattle.ug_events.specs.Events.{IsEvent};
ghost use Rattle.ug_events.specs.Views.{event_of};
ghost use Rattle.ug_world.specs.World as worlds;
ghost use Rattle.ug_world.specs.Verdicts.{verdict};
ghost use Rattle.ug_world.specs.After.{after};
ghost use Rattle.ug_world.specs.declared.peer_state.PeerState as peers;
ghost use Rattle.ug_audit_rules.specs.Standing.{StandsAt, IsMarked, IsNotedFor};

use crate::keys::keys_at;
use crate::routes::routes_of;
use std::alloc::Global;
use std::sync::ledger::Ledger;
use ug_events::Event;
use ug_hearing::Log;
use ug_types::{Key, NoMemory, PeerId, Steps};
use ug_world::World;

/// The changes so far of what a peer should have, key by key, whose places are versions; and for each of its sessions so far the
/// version before it, and for each that is over the first version behind it.
#[derive(Drop)]
pub struct Progress {
    pub log: Log,
    pub begun: Vec<u32>,
    pub ended: Vec<u32>,
}

impl Progress {
    /// Before any event.
    pub(crate) fn new(alloc: Global) -> Progress
        ensures changes { result.log.changes ≡ [] }
        ensures begun { result.begun.items ≡ [] }
        ensures ended { result.ended.items ≡ [] }
    {
        Progress {
            log: Log::new(alloc),
            begun: Vec::new(alloc),
            ended: Vec::new(alloc),
        }
    }

    /// The world goes on by an event that it accepts.
    pub(crate) fn go_on<L: Ledger>(
        &mut self,
        alloc: Global,
        world: &mut World,
        id: PeerId,
        event: &Event,
        steps: &mut Steps<L>,
    ) -> Result<(), NoMemory>
        requires id { id < length world.old.peers }
        requires accepted { verdict world.old (event_of event.now) ≡ None }
        requires form { IsEvent (event_of event.now) }
        requires version { world.old.version < 4294967295 }
        ensures world { OnOk result (world.new ≡ after world.old (event_of event.now)) }
        ensures stands { OnOk result ((ws : List worlds.World) → StandsAt id ws world.old self.old → StandsAt id (ws ++ world.new ∷ []) world.new self.new) }
    {
        let mut keys = keys_at(alloc, world, id, event)?;
        world.take(alloc, event)?;
        let mut now = keys_at(alloc, world, id, event)?;
        keys.append(&mut now)?;
        self.note(alloc, world, id, &keys, steps)?;
        self.mark(world, id)?;
        Ok(())
    }

    /// Notes what the peer should have under these keys in the world of a new version.
    fn note<L: Ledger>(
        &mut self,
        alloc: Global,
        world: &World,
        id: PeerId,
        keys: &[Key],
        steps: &mut Steps<L>,
    ) -> Result<(), NoMemory>
        requires id { id < length world.now.peers }
        requires version { world.now.version < 4294967296 }
        ensures noted { OnOk result (IsNotedFor id world.now keys.now self.old.log.changes self.new.log.changes) }
        ensures begun { self.new.begun ≡ self.old.begun }
        ensures ended { self.new.ended ≡ self.old.ended }
    {
        let values = routes_of(alloc, world, id, keys, steps)?;
        let version = world.version() as u32;
        self.log.note_all(alloc, version, keys, &values)?;
        Ok(())
    }

    /// Notes that a session begins with the world of a new version, or is over there.
    pub(crate) fn mark(&mut self, world: &World, id: PeerId) -> Result<(), NoMemory>
        requires id { id < length world.now.peers }
        requires version { world.now.version < 4294967296 }
        ensures { OnOk result ((s : peers.PeerState) → slice_get world.now.peers id ≡ Some s → IsMarked s world.now.version self.old self.new) }
    {
        let version = world.version() as u32;
        if self.begun.len() < world.session(id) as usize {
            self.begun.push(version.saturating_sub(1))?;
        }
        if !world.is_up(id) && self.ended.len() < self.begun.len() {
            self.ended.push(version)?;
        }
        Ok(())
    }
}
