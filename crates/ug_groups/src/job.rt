//! Jobs.

ghost use Rattle.std.specs.Prelude.{◌≡◌, IfOk};
ghost use Rattle.ug_events.specs.Events.{IsEvent};
ghost use Rattle.ug_events.specs.Views.{event_of};
ghost use Rattle.ug_group_rules.specs.Machine as machine;

use std::alloc::Global;
use std::marker::Model;
use ug_events::Event;
use ug_types::NoMemory;

#[derive(Drop)]
pub(crate) enum Work {
    Take(Box<Event>),
    Format(u32),
    Merge(u32, u32),
    Slow(u32),
    Sync,
    Close,
}

/// A job: an event, which stands behind a pointer; a packet to be formatted; the members of the second subgroup to be moved to the first;
/// those at the front of a queue to be moved; a mark of how much each peer was told; or the end.
#[derive(Drop)]
pub struct GroupJob {
    pub(crate) work: Work,
}

impl Model for GroupJob {
    ghost use Rattle.ug_group_rules.specs.Machine.{Job};

    ghost Value = { Job };

    ghost use Rattle.ug_groups.specs.Jobs.{job_of, IsWork};

    ghost view = { λ j. job_of j.work };

    ghost invariant = { λ j. IsWork j.work };
}

impl GroupJob {
    /// The job that takes an event.
    pub fn of_event(alloc: Global, event: Event) -> Result<GroupJob, NoMemory>
        requires { IsEvent (event_of event) }
        ensures { IfOk result (λ job. job ≡ machine.Take (event_of event)) }
    {
        Ok(GroupJob {
            work: Work::Take(Box::new(alloc, event)?),
        })
    }

    /// The job that formats a packet for a subgroup.
    pub fn format(sub: u32) -> GroupJob
        ensures { result ≡ machine.Format sub }
    {
        GroupJob {
            work: Work::Format(sub),
        }
    }

    /// The job that moves the members of the second subgroup to the first.
    pub fn merge(sub: u32, other: u32) -> GroupJob
        ensures { result ≡ machine.Merge sub other }
    {
        GroupJob {
            work: Work::Merge(sub, other),
        }
    }

    /// The job that moves those at the front of a queue to a subgroup of their own.
    pub fn slow(sub: u32) -> GroupJob
        ensures { result ≡ machine.Slow sub }
    {
        GroupJob {
            work: Work::Slow(sub),
        }
    }

    /// The job that marks how much each peer was told.
    pub fn sync() -> GroupJob
        ensures { result ≡ machine.Sync }
    {
        GroupJob { work: Work::Sync }
    }

    /// The job after which there is none.
    pub fn close() -> GroupJob
        ensures { result ≡ machine.Close }
    {
        GroupJob { work: Work::Close }
    }
}
