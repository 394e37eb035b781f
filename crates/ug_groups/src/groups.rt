//! The machine of update groups.

ghost use Rattle.std.specs.Prelude.{◌≡◌, ◌+◌, ◌≤◌, true, IfOk, IfErr, OnOk};
ghost use Rattle.ug_events.specs.Events.{IsEvent};
ghost use Rattle.ug_events.specs.Views.{event_of};
ghost use Rattle.ug_speaker.specs.Owes.{IsOpening};
ghost use Rattle.ug_group_rules.specs.Machine as machine;
ghost use Rattle.ug_group_rules.specs.Machine.{start, legal, after_job, job_reply, take_event};
ghost use Rattle.ug_group_rules.specs.Evaluations.{evaluations};
ghost use Rattle.ug_group_rules.specs.Rules.{evaluations_of};

use crate::job::{GroupJob, Work};
use crate::said::GroupSaid;
use crate::state::GroupState;
use std::alloc::Global;
use std::snapshot::Snapshot;
use std::sync::ledger::Ledger;
use ug_board::{LaneSaid, LaneStep, Machine};
use ug_events::Event;
use ug_group_rules::group_laws;
use ug_speaker::Speaker;
use ug_types::{Mark, NoMemory, PeerId, Steps};
use ug_world::World;

/// A machine of update groups, with the world that it was made with, of which contracts alone know, and the number of jobs
/// done.
#[derive(Drop)]
pub struct Groups {
    alloc: Global,
    first: Snapshot<World>,
    state: GroupState,
    jobs: u64,
}

impl Groups {
    /// A machine that begins with this world. Running out of memory hands the world back.
    fn new(alloc: Global, world: World) -> Result<Groups, World>
        requires opening { IsOpening world }
        ensures first { IfOk result (λ groups. groups.first.value ≡ world) }
        ensures state { IfOk result (λ groups. groups.state ≡ start world) }
        ensures jobs { IfOk result (λ groups. groups.jobs ≡ 0) }
        ensures returned { IfErr result (λ back. back ≡ world) }
    {
        let first = Snapshot::of(&world);
        let state = GroupState::new(alloc, world)?;
        Ok(Groups {
            alloc,
            first,
            state,
            jobs: 0,
        })
    }
}

impl Machine for Groups {
    ghost use Rattle.ug_group_rules.specs.Rules.{group_rules};
    ghost use Rattle.ug_group_rules.proofs.Lawful.{group_lawful};

    type Job = GroupJob;

    type Said = GroupSaid;

    type Opening = World;

    type State = GroupState;

    ghost opening = { λ groups. groups.first.value };

    ghost state = { λ groups. groups.state };

    ghost jobs = { λ groups. groups.jobs };

    ghost rules = { group_rules };

    fn legal(&self, job: &GroupJob) -> bool {
        self.state.is_legal(job)
    }

    fn job<L: Ledger>(
        &mut self,
        job: &GroupJob,
        steps: &mut Steps<L>,
    ) -> Result<GroupSaid, NoMemory> {
        let said = do_job(self.alloc, &mut self.state, job, steps)?;
        self.jobs += 1;
        Ok(said)
    }

    fn may_lose(&self, peer: PeerId, session: u32) -> bool {
        self.state.may_lose(peer, session)
    }

    fn lane(&mut self, step: LaneStep, buf: &mut [u8]) -> LaneSaid {
        match step {
            LaneStep::Next { peer } => self.state.next(peer, buf),
            LaneStep::Lost { peer, session } => {
                self.state.lose(peer, session);
                LaneSaid::Noted
            }
        }
    }

    fn due(&self) -> u64 {
        self.state.due()
    }

    fn due_rise(&self, job: &GroupJob) -> Option<u64> {
        self.state.due_rise(job)
    }

    fn copy_said(said: &GroupSaid) -> Result<GroupSaid, NoMemory> {
        said.copy()
    }

    ghost lawful = { group_lawful };
}

/// Does a job.
fn do_job<L: Ledger>(
    alloc: Global,
    state: &mut GroupState,
    job: &GroupJob,
    steps: &mut Steps<L>,
) -> Result<GroupSaid, NoMemory>
    requires legal { legal job.now state.old ≡ true }
    ensures said { IfOk result (λ said. said ≡ job_reply job.now state.old) }
    ensures state { OnOk result (state.new ≡ after_job job.now state.old) }
    ensures steps { OnOk result (steps.new ≡ steps.old + evaluations_of job.now state.old) }
    ensures most { steps.new ≤ steps.old + evaluations_of job.now state.old }
    ensures counted { steps.old ≤ steps.new }
{
    match &job.work {
        Work::Take(event) => take(alloc, state, event, steps),
        Work::Format(sub) => Ok(GroupSaid::formatted(state.format(*sub)?)),
        Work::Merge(sub, other) => {
            state.merge(*sub, *other)?;
            Ok(GroupSaid::merged())
        }
        Work::Slow(sub) => Ok(GroupSaid::moved(state.slow(*sub)?)),
        Work::Sync => GroupSaid::marks(alloc, state.marks()?),
        Work::Close => {
            state.close();
            Ok(GroupSaid::closed())
        }
    }
}

/// Takes an event, to which the mark of the peer that asks for all routes by it is answered.
fn take<L: Ledger>(
    alloc: Global,
    state: &mut GroupState,
    event: &Event,
    steps: &mut Steps<L>,
) -> Result<GroupSaid, NoMemory>
    requires legal { legal (machine.Take (event_of event.now)) state.old ≡ true }
    requires form { IsEvent (event_of event.now) }
    ensures said { IfOk result (λ said. said ≡ job_reply (machine.Take (event_of event.now)) state.old) }
    ensures state { OnOk result (state.new ≡ take_event (event_of event.now) state.old) }
    ensures steps { OnOk result (steps.new ≡ steps.old + evaluations (event_of event.now) state.old) }
    ensures most { steps.new ≤ steps.old + evaluations (event_of event.now) state.old }
    ensures counted { steps.old ≤ steps.new }
{
    group_laws();
    state.take(event, steps)?;
    let marks = state.mark_of_asker(event)?;
    GroupSaid::took(alloc, marks)
}

impl Speaker for Groups {
    ghost use Rattle.ug_group_rules.specs.Rules.{group_speech};
    ghost use Rattle.ug_group_rules.proofs.Speaks.{group_speaks};

    ghost speech = { group_speech };

    fn begin_with(alloc: Global, world: World) -> Result<Groups, World> {
        Groups::new(alloc, world)
    }

    fn event_job(alloc: Global, event: Event) -> Result<GroupJob, NoMemory> {
        GroupJob::of_event(alloc, event)
    }

    fn sync_job() -> GroupJob {
        GroupJob::sync()
    }

    fn close_job() -> GroupJob {
        GroupJob::close()
    }

    fn settling(&self) -> Result<Option<GroupJob>, NoMemory> {
        Ok(self.state.next_settling())
    }

    fn draining(&self) -> Result<Option<GroupJob>, NoMemory> {
        Ok(self.state.next_draining())
    }

    fn is_drained(&self) -> bool {
        self.state.is_drained()
    }

    fn world(&self) -> &World {
        self.state.world()
    }

    fn marks(said: &GroupSaid) -> &[Mark] {
        said.as_slice()
    }

    ghost speaks = { group_speaks };
}
