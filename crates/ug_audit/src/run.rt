//! What is kept of the files before those of sessions.

ghost use Rattle.std.specs.Prelude.{◌≡◌, ◌≤◌, length, IfOk};
ghost use Rattle.ug_pieces.specs.Lines.{lines_of};
ghost use Rattle.ug_audit_rules.specs.Timelines.{IsFirst};
ghost use Rattle.ug_audit_rules.specs.Histories.{IsHistory};
ghost use Rattle.ug_audit.specs.Auditing.{worlds_of, last_of};
ghost use Rattle.ug_audit.specs.Stopping.{IsRun};

use crate::last::Last;
use std::alloc::Global;
use ug_audit_rules::{Entry, History, Timelines};
use ug_types::{ByteList, NoMemory};
use ug_world::World;

/// The first world, the events, what each peer should have by these, what is kept of the world to which they lead, and what the
/// lines of the report tell.
#[derive(Drop)]
pub struct Run {
    pub first: World,
    pub events: ByteList,
    pub timelines: Timelines,
    pub last: Last,
    pub entries: Vec<Entry>,
}

impl Run {
    /// What is kept where the events lead to this last world.
    pub fn of(
        alloc: Global,
        first: World,
        events: ByteList,
        history: History,
        last: World,
        entries: Vec<Entry>,
    ) -> Result<Run, NoMemory>
        requires opening { IsFirst first }
        requires few { length (lines_of events.items) ≤ 2000000 }
        requires led { last ≡ last_of first events.items }
        requires history { IsHistory (worlds_of first events.items) (last_of first events.items) history }
        ensures run { IfOk result IsRun }
        ensures first { IfOk result (λ run. run.first ≡ first) }
        ensures events { IfOk result (λ run. run.events ≡ events) }
        ensures entries { IfOk result (λ run. run.entries ≡ entries) }
    {
        let last = Last::of(alloc, last)?;
        let timelines = Timelines::of(alloc, history)?;
        Ok(Run {
            first,
            events,
            timelines,
            last,
            entries,
        })
    }
}
