//! The workload of a seed.

ghost use Rattle.std.specs.Prelude.{◌≡◌, ◌<◌, ◌≤◌, ◌++◌, map, length, OnOk, IfOk};
ghost use Rattle.ug_events.specs.Views.{event_of};
ghost use Rattle.ug_selfrun.specs.Configuration.{workload_world};
ghost use Rattle.ug_selfrun.specs.Workload.{workload, ups_from, events_from};

use crate::configuration::{peer_name, world_of};
use crate::events::Drawing;
use std::alloc::Global;
use ug_events::Event;
use ug_types::{NoMemory, Sequence};
use ug_world::World;

/// A world before any event, and the events that come to it.
#[derive(Drop)]
pub struct Made {
    pub world: World,
    pub events: Sequence<Event>,
}

/// The workload of a seed: so many peers, all of which come up first, and then so many events, drawn one after the other.
pub fn make(alloc: Global, seed: u64, peers: u32, events: u32) -> Result<Made, NoMemory>
    requires some { 1 ≤ peers }
    requires few { peers ≤ 16 }
    ensures world { IfOk result (λ made. made.world ≡ workload_world peers) }
    ensures events { IfOk result (λ made. map event_of made.events.items ≡ workload seed peers events) }
{
    let world = world_of(alloc, peers)?;
    let drawing = Drawing::new(alloc, seed, peers as usize)?;
    let mut all = Vec::new(alloc);
    add_ups(alloc, peers, &mut all)?;
    add_drawn(alloc, drawing, events, &mut all)?;
    Ok(Made {
        world,
        events: Sequence::from_vec(all),
    })
}

/// Adds that each peer comes up.
fn add_ups(alloc: Global, peers: u32, events: &mut Vec<Event>) -> Result<(), NoMemory>
    requires { peers ≤ 16 }
    ensures { OnOk result (map event_of events.new.items ≡ map event_of events.old.items ++ ups_from 1 peers) }
{
    for i in 0..peers {
        events.push(Event::Up {
            peer: peer_name(alloc, 1 + i)?,
        })?;
    }
    Ok(())
}

/// Adds so many events, each drawn.
fn add_drawn(
    alloc: Global,
    mut drawing: Drawing,
    count: u32,
    events: &mut Vec<Event>,
) -> Result<(), NoMemory>
    requires some { 0 < length drawing.up }
    requires few { length drawing.up ≤ 16 }
    ensures { OnOk result (map event_of events.new.items ≡ map event_of events.old.items ++ events_from (length drawing.up) count drawing) }
{
    for _ in 0..count {
        let event = drawing.draw_event(alloc)?;
        events.push(event)?;
    }
    Ok(())
}
