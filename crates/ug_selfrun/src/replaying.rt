//! The world that events lead to.

ghost use Rattle.std.specs.Prelude.{◌≡◌, ℕ, map, IfOk, if◌then◌else◌};
ghost use Rattle.ug_events.specs.Events.{IsEvent};
ghost use Rattle.ug_events.specs.Views.{event_of};
ghost use Rattle.ug_world.specs.Worlds.{outcome, world_after, last_world};
ghost use Rattle.ug_speaker.specs.Owes.{AreEvents};
ghost use Rattle.ug_report.specs.Report.{one_if_accepted, one_if_refused, accepted_count, refused_count};
ghost use Rattle.ug_selfrun.specs.Lines.{line_of, lines_of};

use std::alloc::Global;
use ug_events::Event;
use ug_types::NoMemory;
use ug_world::World;

/// A world behind some events, and how many of them it accepted and refused.
#[derive(Drop)]
pub struct Replayed {
    pub world: World,
    pub accepted: u64,
    pub refused: u64,
}

/// Takes the events one by one; one that is refused changes nothing.
pub fn replay(alloc: Global, world: World, events: &[Event]) -> Result<Replayed, NoMemory>
    requires form { AreEvents (map event_of events.now) }
    ensures world { IfOk result (λ last. last.world ≡ last_world world (lines_of (map event_of events.now))) }
    ensures accepted { IfOk result (λ last. last.accepted ≡ accepted_count world (lines_of (map event_of events.now))) }
    ensures refused { IfOk result (λ last. last.refused ≡ refused_count world (lines_of (map event_of events.now))) }
{
    let mut world = world;
    let mut accepted: u64 = 0;
    let mut refused: u64 = 0;
    for event in events {
        if is_accepted(alloc, &mut world, event)? {
            accepted += 1;
        } else {
            refused += 1;
        }
    }
    Ok(Replayed {
        world,
        accepted,
        refused,
    })
}

/// Takes an event where the world accepts it, and answers whether it did.
fn is_accepted(alloc: Global, world: &mut World, event: &Event) -> Result<bool, NoMemory>
    requires form { IsEvent (event_of event.now) }
    ensures world { IfOk result (λ _. world.new ≡ world_after world.old (outcome world.old (line_of (event_of event.now)))) }
    ensures accepted { IfOk result (λ accepted. (if accepted then 1 else 0) ≡ one_if_accepted (outcome world.old (line_of (event_of event.now)))) }
    ensures refused { IfOk result (λ accepted. (if accepted then 0 else 1) ≡ one_if_refused (outcome world.old (line_of (event_of event.now)))) }
{
    match world.judge(event) {
        Ok(()) => {
            if world.version() >= 4294967295 {
                return Err(NoMemory);
            }
            world.take(alloc, event)?;
            Ok(true)
        }
        Err(_refusal) => Ok(false),
    }
}
