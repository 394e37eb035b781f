//! What a board asks of its machine.

ghost use Rattle.std.specs.Prelude.{◌≡◌, ℕ, ◌+◌, ◌<◌, ◌≤◌, length, true, OnOk, IfOk, IfSome};
ghost use Rattle.ug_board.specs.Rules.{Rules, IsMachine, buffer_size, MayTake, LeavesHanded};

use crate::steps::{LaneSaid, LaneStep};
use std::sync::ledger::Ledger;
use ug_types::{NoMemory, PeerId, Steps};

/// A machine that does jobs and takes the steps of lanes, one at a time. What each call does is told by its rules,
/// which are definitions over plain data, at the state in which the machine stands.
///
/// A board keeps jobs and replies for the whole run, each in 16 bytes or fewer: what is larger, as an event, stands
/// behind a pointer. Where a count would pass the end of its type a job answers `NoMemory`.
pub trait Machine: Send + Drop {
    type Job: Send + Drop;

    type Said: Send + Drop;

    /// What the machine was made with. Contracts alone use it.
    type Opening;

    /// Where the machine stands. Contracts alone use it.
    type State;

    ghost opening: { Self → Self.Opening };

    ghost state: { Self → Self.State };

    /// How many jobs were done.
    ghost jobs: { Self → ℕ };

    ghost rules: { Rules Self.Opening Self.State Self.Job Self.Said };

    /// Whether the job may be done.
    fn legal(&self, job: &Self::Job) -> bool
        ensures { result ≡ rules.legal job.now (state self.now) };

    /// Does a job. After `NoMemory` the machine is spent: of its state nothing is said but that its calls go on
    /// answering by it.
    fn job<L: Ledger>(
        &mut self,
        job: &Self::Job,
        steps: &mut Steps<L>,
    ) -> Result<Self::Said, NoMemory>
        requires legal { rules.legal job.now (state self.old) ≡ true }
        requires jobs { jobs self.old < 18446744073709551615 }
        ensures said { IfOk result (λ said. said ≡ rules.reply job.now (state self.old)) }
        ensures state { OnOk result (state self.new ≡ rules.after job.now (state self.old)) }
        ensures jobs { OnOk result (jobs self.new ≡ jobs self.old + 1) }
        ensures opening { opening self.new ≡ opening self.old }
        ensures least { OnOk result (steps.old + rules.least job.now (state self.old) ≤ steps.new) }
        ensures most { steps.new ≤ steps.old + rules.most job.now (state self.old) }
        ensures counted { steps.old ≤ steps.new };

    /// Whether the loss of this session may be noted.
    fn may_lose(&self, peer: PeerId, session: u32) -> bool
        ensures { result ≡ rules.may_lose peer session (state self.now) };

    /// Takes the step of a lane. What it hands out stands at the front of `buf`. It takes no memory.
    fn lane(&mut self, step: LaneStep, buf: &mut [u8]) -> LaneSaid
        requires room { buffer_size ≤ length buf.old }
        requires legal { MayTake rules step (state self.old) }
        ensures said { result ≡ rules.lane_reply step (state self.old) }
        ensures state { state self.new ≡ rules.after_lane step (state self.old) }
        ensures handed { LeavesHanded rules step result (state self.old) buf.new }
        ensures jobs { jobs self.new ≡ jobs self.old }
        ensures opening { opening self.new ≡ opening self.old };

    /// A bound on the entries that lanes can add before the next job.
    fn due(&self) -> u64
        ensures { result ≡ rules.due (state self.now) };

    /// How much the job raises that bound at most, or None where that isn't known before the job is done. Where it is known, a
    /// board need not ask for the bound behind the job: it makes room for so many entries more than before.
    fn due_rise(&self, job: &Self::Job) -> Option<u64>
        requires { rules.legal job.now (state self.now) ≡ true }
        ensures { IfSome result (λ rise. rules.due (rules.after job.now (state self.now)) ≤ rules.due (state self.now) + rise) };

    /// An equal reply of its own.
    fn copy_said(said: &Self::Said) -> Result<Self::Said, NoMemory>
        ensures { IfOk result (λ copy. copy ≡ said.now) };

    ghost lawful: { IsMachine rules };
}
