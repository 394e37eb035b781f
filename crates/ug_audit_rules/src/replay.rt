//! All lines of events.

ghost use Rattle.std.specs.Prelude.{◌≡◌, ◌≤◌, ◌<◌, ◌+◌, length, IfOk};
ghost use Rattle.ug_pieces.specs.Lines.{lines_of};
ghost use Rattle.ug_world.specs.Worlds.{worlds, last_world};
ghost use Rattle.ug_audit_rules.specs.Lines.{said_in};
ghost use Rattle.ug_audit_rules.specs.Timelines.{IsFirst, IsTimeline, HasSessions};

use crate::passing::note_line;
use crate::progress::Progress;
use crate::timeline::Timeline;
use std::alloc::Global;
use std::marker::Brand;
use std::sync::ledger::{Blank, Ledger};
use ug_events::LineReader;
use ug_pieces::next_line;
use ug_types::{NoMemory, PeerId, Steps};
use ug_world::World;

/// What a peer should have in the world of each version, and between which versions its sessions were.
pub fn timeline_of(
    alloc: Global,
    first: &World,
    id: PeerId,
    events: &[u8],
) -> Result<Timeline, NoMemory>
    requires id { id < length first.now.peers }
    requires first { IsFirst first.now }
    requires version { length (lines_of events.now) < 4294967295 }
    ensures timeline { IfOk result (IsTimeline id (worlds first.now (said_in events.now))) }
    ensures sessions { IfOk result (HasSessions id (last_world first.now (said_in events.now))) }
{
    counted::<Brand>(alloc, Blank::new(1), first, id, events)
}

/// The same, over a counter that nobody reads.
fn counted<L: Ledger>(
    alloc: Global,
    blank: Blank,
    first: &World,
    id: PeerId,
    events: &[u8],
) -> Result<Timeline, NoMemory>
    requires name { blank.name ≡ L.name }
    requires parts { blank.parts ≡ L.parts }
    requires some { 0 < blank.parts }
    requires id { id < length first.now.peers }
    requires first { IsFirst first.now }
    requires version { length (lines_of events.now) < 4294967295 }
    ensures timeline { IfOk result (IsTimeline id (worlds first.now (said_in events.now))) }
    ensures sessions { IfOk result (HasSessions id (last_world first.now (said_in events.now))) }
{
    let mut steps = Steps::<L>::new(blank);
    let mut world = first.copy(alloc)?;
    let mut progress = Progress::new(alloc);
    let mut reader = LineReader::new(alloc);
    let mut rest = events;
    while let Some((line, behind)) = next_line(rest) {
        rest = behind;
        note_line(
            alloc,
            &mut reader,
            &mut world,
            id,
            line,
            &mut progress,
            &mut steps,
        )?;
    }
    let timeline = Timeline::of(alloc, progress)?;
    Ok(timeline)
}
