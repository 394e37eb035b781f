//! One line of events.

ghost use Rattle.std.specs.Prelude.{◌≡◌, ◌≤◌, ◌<◌, ◌+◌, ◌++◌, [], List, length, OnOk};
ghost use Rattle.ug_events.specs.Grammar.{line_of};
ghost use Rattle.ug_world.specs.World as worlds;
ghost use Rattle.ug_world.specs.Worlds.{outcome, world_after, where_accepted};
ghost use Rattle.ug_audit_rules.specs.Standing.{StandsAt};

use crate::accepting::accepted;
use crate::progress::Progress;
use std::alloc::Global;
use std::sync::ledger::Ledger;
use ug_events::LineReader;
use ug_types::{NoMemory, PeerId, Steps};
use ug_world::World;

/// The world goes on by a line, and what the peer should have with it.
pub fn note_line<L: Ledger>(
    alloc: Global,
    reader: &mut LineReader,
    world: &mut World,
    id: PeerId,
    line: &[u8],
    progress: &mut Progress,
    steps: &mut Steps<L>,
) -> Result<(), NoMemory>
    requires id { id < length world.old.peers }
    requires version { world.old.version < 4294967295 }
    ensures world { OnOk result (world.new ≡ world_after world.old (outcome world.old (line_of line.now))) }
    ensures version { OnOk result (world.new.version ≤ world.old.version + 1) }
    ensures peers { OnOk result (length world.new.peers ≡ length world.old.peers) }
    ensures stands { OnOk result ((ws : List worlds.World) → StandsAt id ws world.old progress.old →
        StandsAt id (ws ++ where_accepted (outcome world.old (line_of line.now)) []) world.new progress.new) }
{
    let Some(event) = accepted(reader, world, line)? else {
        return Ok(());
    };
    progress.go_on(alloc, world, id, &event, steps)?;
    Ok(())
}
