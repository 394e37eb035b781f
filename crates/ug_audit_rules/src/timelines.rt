//! What each peer should have.

ghost use Rattle.std.specs.Prelude.{◌≡◌, ◌<◌, length, map, slice_get, Some, true, IfOk, IfSome};
ghost use Rattle.ug_pieces.specs.Lines.{lines_of};
ghost use Rattle.ug_world.specs.Worlds.{worlds, last_world};
ghost use Rattle.ug_audit_rules.specs.Lines.{said_in};
ghost use Rattle.ug_audit_rules.specs.Timelines.{IsFirst, IsTimeline, HasSessions};
ghost use Rattle.ug_audit_rules.specs.Histories.{entries_of, AreTimelines};

use crate::group::Group;
use crate::group_log::GroupChange;
use crate::history::History;
use crate::replay::timeline_of;
use crate::seat::Seat;
use crate::timeline::Timeline;
use std::alloc::Global;
use ug_hearing::KeyLists;
use ug_types::{NoMemory, PeerId};
use ug_world::World;

/// What went out to each group, whose keys all its peers share, and what is kept of each peer.
#[derive(Drop)]
pub struct Timelines {
    pub logs: Vec<KeyLists<GroupChange>>,
    pub seats: Vec<Seat>,
}

impl Timelines {
    /// Those of a history, which goes on no further.
    pub fn of(alloc: Global, history: History) -> Result<Timelines, NoMemory>
        ensures logs { IfOk result (λ timelines. timelines.logs.items ≡ map entries_of history.groups.items) }
        ensures seats { IfOk result (λ timelines. timelines.seats ≡ history.seats) }
    {
        let History { groups, seats } = history;
        let mut logs = Vec::with_capacity(alloc, groups.len())?;
        for group in groups {
            let log = log_of(alloc, group)?;
            logs.push(log)?;
        }
        Ok(Timelines { logs, seats })
    }

    /// What a peer should have in the world of each version, and between which versions its sessions were: from what goes out
    /// to its group, where that can be, and else worked out from the events for this peer alone.
    pub fn timeline(
        &self,
        alloc: Global,
        first: &World,
        id: PeerId,
        events: &[u8],
    ) -> Result<Timeline, NoMemory>
        requires id { id < length first.now.peers }
        requires first { IsFirst first.now }
        requires version { length (lines_of events.now) < 4294967295 }
        requires timelines { AreTimelines (worlds first.now (said_in events.now)) (last_world first.now (said_in events.now)) self.now }
        ensures timeline { IfOk result (IsTimeline id (worlds first.now (said_in events.now))) }
        ensures sessions { IfOk result (HasSessions id (last_world first.now (said_in events.now))) }
    {
        let Some(seat) = self.shared(id) else {
            return timeline_of(alloc, first, id, events);
        };
        let timeline = seat.timeline(alloc, &self.logs)?;
        Ok(timeline)
    }

    /// The seat of a peer that shares what goes out to its group.
    fn shared(&self, id: PeerId) -> Option<&Seat>
        ensures { IfSome result (λ seat. (slice_get self.now.seats.items id ≡ Some seat.now) × (seat.now.shared ≡ true)) }
    {
        let place = id as usize;
        if place >= self.seats.len() {
            return None;
        }
        let seat = &self.seats[place];
        if !seat.shared {
            return None;
        }
        Some(seat)
    }
}

/// What went out to a group.
fn log_of(alloc: Global, group: Group) -> Result<KeyLists<GroupChange>, NoMemory>
    ensures { IfOk result (λ log. log ≡ entries_of group) }
{
    let log = group.log;
    KeyLists::of_map(alloc, log.changes)
}
