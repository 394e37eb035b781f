//! The keys under which an event can change what the peers of a group key should have.

ghost use Rattle.std.specs.Prelude.{◌≡◌, ◌++◌, true, false, IfOk, OnOk};
ghost use Rattle.ug_events.specs.Views.{event_of};
ghost use Rattle.ug_audit_rules.specs.Touched.{keys_touched};
ghost use Rattle.ug_audit_rules.specs.Histories.{keys_for};

use std::alloc::Global;
use ug_events::Event;
use ug_types::{Key, NoMemory};
use ug_world::World;

/// The keys that a world has of these, without ADD-PATH and with it.
#[derive(Drop)]
pub struct Touched {
    pub plain: Vec<Key>,
    pub own: Vec<Key>,
}

impl Touched {
    /// Those of an event's prefix, or all where it is about a prefix list.
    pub fn by(alloc: Global, world: &World, event: &Event) -> Result<Touched, NoMemory>
        ensures plain { IfOk result (λ t. t.plain.items ≡ keys_touched (event_of event.now) false world.now) }
        ensures own { IfOk result (λ t. t.own.items ≡ keys_touched (event_of event.now) true world.now) }
    {
        Ok(Touched {
            plain: keys_touched(alloc, world, event, false)?,
            own: keys_touched(alloc, world, event, true)?,
        })
    }

    /// Adds others.
    pub fn add(&mut self, others: &Touched) -> Result<(), NoMemory>
        ensures plain { OnOk result (self.new.plain.items ≡ self.old.plain.items ++ others.now.plain.items) }
        ensures own { OnOk result (self.new.own.items ≡ self.old.own.items ++ others.now.own.items) }
    {
        self.plain.extend_from_slice(&others.plain)?;
        self.own.extend_from_slice(&others.own)?;
        Ok(())
    }

    /// Those of sessions with ADD-PATH, or without it.
    pub fn of(&self, add_path: bool) -> &[Key]
        ensures { result.now ≡ keys_for add_path self.now }
    {
        if add_path {
            return &self.own;
        }
        &self.plain
    }
}

fn keys_touched(
    alloc: Global,
    world: &World,
    event: &Event,
    add_path: bool,
) -> Result<Vec<Key>, NoMemory>
    ensures { IfOk result (λ keys. keys.items ≡ keys_touched (event_of event.now) add_path world.now) }
{
    match event {
        Event::Paths { prefix, .. } => world.keys_to(alloc, add_path, prefix),
        Event::Withdraw { prefix } => world.keys_to(alloc, add_path, prefix),
        Event::List { .. } => world.keys(alloc, add_path),
        Event::Up { .. } => Ok(Vec::new(alloc)),
        Event::Down { .. } => Ok(Vec::new(alloc)),
        Event::Policy { .. } => Ok(Vec::new(alloc)),
        Event::Refresh { .. } => Ok(Vec::new(alloc)),
        Event::Receive { .. } => Ok(Vec::new(alloc)),
        Event::Orf { .. } => Ok(Vec::new(alloc)),
    }
}
