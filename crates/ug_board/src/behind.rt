//! The calls of a machine that stands behind a pointer: each says what the machine's own call says.

ghost use Rattle.std.specs.Prelude.{◌≡◌, ◌+◌, ◌<◌, ◌≤◌, length, true, OnOk, IfOk, IfSome};
ghost use Rattle.ug_board.specs.Rules.{buffer_size, MayTake, LeavesHanded};

use crate::machine::Machine;
use crate::steps::{LaneSaid, LaneStep};
use std::sync::ledger::Ledger;
use ug_types::{NoMemory, PeerId, Steps};

/// Does a job.
pub(crate) fn job_behind<M: Machine, L: Ledger>(
    machine: &mut Box<M>,
    job: &M::Job,
    steps: &mut Steps<L>,
) -> Result<M::Said, NoMemory>
    requires legal { M.rules.legal job.now (M.state machine.old.value) ≡ true }
    requires jobs { M.jobs machine.old.value < 18446744073709551615 }
    ensures said { IfOk result (λ said. said ≡ M.rules.reply job.now (M.state machine.old.value)) }
    ensures state { OnOk result (M.state machine.new.value ≡ M.rules.after job.now (M.state machine.old.value)) }
    ensures jobs { OnOk result (M.jobs machine.new.value ≡ M.jobs machine.old.value + 1) }
    ensures opening { M.opening machine.new.value ≡ M.opening machine.old.value }
    ensures least { OnOk result (steps.old + M.rules.least job.now (M.state machine.old.value) ≤ steps.new) }
    ensures most { steps.new ≤ steps.old + M.rules.most job.now (M.state machine.old.value) }
    ensures counted { steps.old ≤ steps.new }
{
    machine.job(job, steps)
}

/// Takes the step of a lane.
pub(crate) fn lane_behind<M: Machine>(
    machine: &mut Box<M>,
    step: LaneStep,
    buf: &mut [u8],
) -> LaneSaid
    requires room { buffer_size ≤ length buf.old }
    requires legal { MayTake M.rules step (M.state machine.old.value) }
    ensures said { result ≡ M.rules.lane_reply step (M.state machine.old.value) }
    ensures state { M.state machine.new.value ≡ M.rules.after_lane step (M.state machine.old.value) }
    ensures handed { LeavesHanded M.rules step result (M.state machine.old.value) buf.new }
    ensures jobs { M.jobs machine.new.value ≡ M.jobs machine.old.value }
    ensures opening { M.opening machine.new.value ≡ M.opening machine.old.value }
{
    machine.lane(step, buf)
}

/// Whether the loss of this session may be noted.
pub(crate) fn may_lose_behind<M: Machine>(machine: &Box<M>, peer: PeerId, session: u32) -> bool
    ensures { result ≡ M.rules.may_lose peer session (M.state machine.now.value) }
{
    machine.may_lose(peer, session)
}

/// A bound on the entries that lanes can add before the next job.
pub(crate) fn due_behind<M: Machine>(machine: &Box<M>) -> u64
    ensures { result ≡ M.rules.due (M.state machine.now.value) }
{
    machine.due()
}

/// How much the job raises that bound at most, where that is known before it.
pub(crate) fn due_rise_behind<M: Machine>(machine: &Box<M>, job: &M::Job) -> Option<u64>
    requires { M.rules.legal job.now (M.state machine.now.value) ≡ true }
    ensures { IfSome result (λ rise. M.rules.due (M.rules.after job.now (M.state machine.now.value)) ≤ M.rules.due (M.state machine.now.value) + rise) }
{
    machine.due_rise(job)
}
