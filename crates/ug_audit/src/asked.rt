//! The sessions of a peer, one after another.

ghost use Rattle.std.specs.Prelude.{◌≡◌, ◌<◌, ◌≤◌, ◌+◌, ◌-◌, List, length, OnOk};
ghost use Rattle.ug_world.specs.World as worlds;
ghost use Rattle.ug_audit_rules.specs.Timelines.{IsTimeline};
ghost use Rattle.ug_audit.specs.Asked.{IsAsked, IsAimedBy};

use crate::told::{is_lost, marks_to};
use std::alloc::Global;
use ug_audit_rules::{Entry, Timeline};
use ug_hearing::{Course, Session};
use ug_types::{NoMemory, PeerId};

/// What is asked of the session of a peer that it aims at, and what it knows of the others.
#[derive(Drop)]
pub struct Asked {
    pub session: Session,
    pub begun: Vec<u32>,
    pub ended: Vec<u32>,
}

impl Asked {
    /// Before it aims at the first.
    pub fn of(alloc: Global, timeline: Timeline) -> Asked
        ensures asked { (p : _) (ws : List worlds.World) → IsTimeline p ws timeline → IsAsked p ws result }
        ensures begun { result.begun ≡ timeline.begun }
    {
        let Timeline {
            changes,
            begun,
            ended,
        } = timeline;
        Asked {
            session: Session {
                course: Course {
                    changes,
                    from: 0,
                    to: 0,
                },
                syncs: Vec::new(alloc),
                lost: false,
                is_open: false,
                last: 0,
            },
            begun,
            ended,
        }
    }

    /// It aims at the session of that number, by what the lines of a report tell, the last version, and whether the peer is up
    /// with that session there.
    pub fn aim(
        &mut self,
        alloc: Global,
        entries: &[Entry],
        last: u64,
        is_open: bool,
        id: PeerId,
        number: u32,
    ) -> Result<(), NoMemory>
        requires some { 0 < number }
        requires had { number ≤ length self.old.begun.items }
        requires version { last < 4294967295 }
        ensures begun { self.new.begun ≡ self.old.begun }
        ensures asked { OnOk result ((ws : List worlds.World) → IsAsked id ws self.old → IsAsked id ws self.new) }
        ensures aimed { OnOk result (IsAimedBy id number last is_open entries.now self.old self.new.session) }
    {
        let syncs = marks_to(alloc, entries, id, number)?;
        let place = number as usize - 1;
        self.session.course.from = self.begun[place];
        self.session.course.to = match self.ended.get(place) {
            Some(to) => *to,
            None => last as u32 + 1,
        };
        self.session.syncs = syncs;
        self.session.lost = is_lost(entries, id, number);
        self.session.is_open = is_open;
        self.session.last = last;
        Ok(())
    }
}
