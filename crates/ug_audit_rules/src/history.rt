//! What goes out to each group, in one pass over the events.

ghost use Rattle.std.specs.Prelude.{◌≡◌, ◌≤◌, ◌<◌, ◌+◌, ◌∷◌, ◌++◌, [], List, None, length, slice_get, Some, IfOk, OnOk};
ghost use Rattle.ug_pieces.specs.Lines.{lines_of};
ghost use Rattle.ug_events.specs.Events.{IsEvent};
ghost use Rattle.ug_events.specs.Views.{event_of};
ghost use Rattle.ug_events.specs.Grammar.{line_of};
ghost use Rattle.ug_world.specs.World as states;
ghost use Rattle.ug_world.specs.Verdicts.{verdict};
ghost use Rattle.ug_world.specs.After.{after};
ghost use Rattle.ug_world.specs.Worlds.{worlds, last_world, outcome, world_after, where_accepted};
ghost use Rattle.ug_audit_rules.specs.Lines.{said_in};
ghost use Rattle.ug_audit_rules.specs.Timelines.{IsFirst};
ghost use Rattle.ug_audit_rules.specs.Seats.{IsLonger};
ghost use Rattle.ug_audit_rules.specs.Histories.{IsHistory, AreNotedFor, IsTurnedIf, AreTurned, AreNew};

use crate::accepting::accepted;
use crate::group::Group;
use crate::seat::{Seat, turn};
use crate::touched::Touched;
use std::alloc::Global;
use std::marker::Brand;
use std::sync::ledger::{Blank, Ledger};
use ug_events::{Event, LineReader};
use ug_pieces::next_line;
use ug_types::{NoMemory, PeerId, Steps};
use ug_world::World;

/// What goes out to each group, and what is kept of each peer.
#[derive(Drop)]
pub struct History {
    pub groups: Vec<Group>,
    pub seats: Vec<Seat>,
}

impl History {
    /// The world goes on by a line, and what each peer should have with it.
    fn note_line<L: Ledger>(
        &mut self,
        alloc: Global,
        reader: &mut LineReader,
        world: &mut World,
        line: &[u8],
        steps: &mut Steps<L>,
    ) -> Result<(), NoMemory>
        requires version { world.old.version < 4294967295 }
        ensures world { OnOk result (world.new ≡ world_after world.old (outcome world.old (line_of line.now))) }
        ensures version { OnOk result (world.new.version ≤ world.old.version + 1) }
        ensures history { OnOk result ((ws : List states.World) → IsHistory ws world.old self.old →
            IsHistory (ws ++ where_accepted (outcome world.old (line_of line.now)) []) world.new self.new) }
    {
        let Some(event) = accepted(reader, world, line)? else {
            return Ok(());
        };
        self.go_on(alloc, world, &event, steps)?;
        Ok(())
    }

    /// The world goes on by an event that it accepts.
    fn go_on<L: Ledger>(
        &mut self,
        alloc: Global,
        world: &mut World,
        event: &Event,
        steps: &mut Steps<L>,
    ) -> Result<(), NoMemory>
        requires accepted { verdict world.old (event_of event.now) ≡ None }
        requires form { IsEvent (event_of event.now) }
        requires version { world.old.version < 4294967295 }
        ensures world { OnOk result (world.new ≡ after world.old (event_of event.now)) }
        ensures history { OnOk result ((ws : List states.World) → IsHistory ws world.old self.old → IsHistory (ws ++ world.new ∷ []) world.new self.new) }
    {
        let before = Touched::by(alloc, world, event)?;
        world.take(alloc, event)?;
        let mut touched = Touched::by(alloc, world, event)?;
        touched.add(&before)?;
        note_groups(alloc, self.groups.as_mut_slice(), world, &touched, steps)?;
        turn_all(
            alloc,
            &mut self.groups,
            self.seats.as_mut_slice(),
            world,
            event,
            steps,
        )?;
        Ok(())
    }
}

/// Notes what goes out to each group under the keys that an event touched.
fn note_groups<L: Ledger>(
    alloc: Global,
    groups: &mut [Group],
    world: &World,
    touched: &Touched,
    steps: &mut Steps<L>,
) -> Result<(), NoMemory>
    requires { world.now.version < 4294967296 }
    ensures { OnOk result (AreNotedFor world.now touched.now groups.old groups.new) }
{
    for group in groups.iter_mut() {
        let keys = touched.of(group.key.add_path);
        group.note_keys(alloc, world, keys, steps)?;
    }
    Ok(())
}

/// Each peer is as the world of a new version has it.
fn turn_all<L: Ledger>(
    alloc: Global,
    groups: &mut Vec<Group>,
    seats: &mut [Seat],
    world: &World,
    event: &Event,
    steps: &mut Steps<L>,
) -> Result<(), NoMemory>
    requires { world.now.version < 4294967296 }
    ensures { OnOk result (AreTurned world.now (event_of event.now) groups.old.items groups.new.items seats.old seats.new) }
{
    for place in 0..seats.len() {
        let seat = &mut seats[place];
        turn_if(alloc, groups, seat, world, place, event, steps)?;
    }
    Ok(())
}

/// The same of the peer at a place, where there is one.
fn turn_if<L: Ledger>(
    alloc: Global,
    groups: &mut Vec<Group>,
    seat: &mut Seat,
    world: &World,
    place: usize,
    event: &Event,
    steps: &mut Steps<L>,
) -> Result<(), NoMemory>
    requires { world.now.version < 4294967296 }
    ensures turned { OnOk result (IsTurnedIf world.now (event_of event.now) groups.new.items (slice_get world.now.peers place) seat.old seat.new) }
    ensures groups { OnOk result (IsLonger world.now groups.old.items groups.new.items) }
{
    let peers = world.peers() as usize;
    if place >= peers {
        return Ok(());
    }
    turn(alloc, groups, seat, world, place as u32, event, steps)?;
    Ok(())
}

/// What goes out to each group, and what is kept of each peer, in the worlds to which the events lead from the first one; and
/// the last of these worlds.
pub fn history_of(alloc: Global, first: &World, events: &[u8]) -> Result<(History, World), NoMemory>
    requires first { IsFirst first.now }
    requires version { length (lines_of events.now) < 4294967295 }
    ensures history { IfOk result (λ found. IsHistory (worlds first.now (said_in events.now)) (last_world first.now (said_in events.now)) found.0) }
    ensures last { IfOk result (λ found. found.1 ≡ last_world first.now (said_in events.now)) }
{
    counted::<Brand>(alloc, Blank::new(1), first, events)
}

/// The same, over a counter that nobody reads.
fn counted<L: Ledger>(
    alloc: Global,
    blank: Blank,
    first: &World,
    events: &[u8],
) -> Result<(History, World), NoMemory>
    requires name { blank.name ≡ L.name }
    requires parts { blank.parts ≡ L.parts }
    requires some { 0 < blank.parts }
    requires first { IsFirst first.now }
    requires version { length (lines_of events.now) < 4294967295 }
    ensures history { IfOk result (λ found. IsHistory (worlds first.now (said_in events.now)) (last_world first.now (said_in events.now)) found.0) }
    ensures last { IfOk result (λ found. found.1 ≡ last_world first.now (said_in events.now)) }
{
    let mut steps = Steps::<L>::new(blank);
    let mut world = first.copy(alloc)?;
    let groups = Vec::new(alloc);
    let seats = new_seats(alloc, first)?;
    let mut history = History { groups, seats };
    let mut reader = LineReader::new(alloc);
    let mut rest = events;
    while let Some((line, behind)) = next_line(rest) {
        rest = behind;
        history.note_line(alloc, &mut reader, &mut world, line, &mut steps)?;
    }
    Ok((history, world))
}

/// A seat for each peer, before any event.
fn new_seats(alloc: Global, first: &World) -> Result<Vec<Seat>, NoMemory>
    ensures { IfOk result (λ seats. AreNew first.now.peers seats.items) }
{
    let mut seats = Vec::new(alloc);
    for id in 0..first.peers() {
        let ends = first.peer(id).ends();
        seats.push(Seat::new(alloc, ends))?;
    }
    Ok(seats)
}
