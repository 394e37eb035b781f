//! A machine that speaks to peers.

ghost use Rattle.std.specs.Prelude.{◌≡◌, true, false, IfOk, IfErr, IfSome, IfNone};
ghost use Rattle.ug_events.specs.Events.{IsEvent};
ghost use Rattle.ug_events.specs.Views.{event_of};
ghost use Rattle.ug_speaker.specs.Owes.{IsOpening, IsPrepared, IsSpeaker};
ghost use Rattle.ug_speaker.specs.Speech.{Speech, TakesEvent, MarksTold, Ends, Prepares};

use std::alloc::Global;
use ug_board::Machine;
use ug_events::Event;
use ug_types::{Mark, NoMemory};
use ug_world::World;

/// A machine that speaks to peers. What it owes is `speaks`, in words that know worlds, events and messages, and nothing of
/// what the machine keeps. A run asks it for its jobs and does them on a board.
pub trait Speaker: Machine {
    ghost speech: { Speech Self.Opening Self.State Self.Job Self.Said };

    /// A machine that begins with this world. Running out of memory hands the world back.
    fn begin_with(alloc: Global, world: World) -> Result<Self, World>
        requires opening { IsOpening world }
        ensures first { IfOk result (λ machine. speech.first (Self.opening machine) ≡ world) }
        ensures state { IfOk result (λ machine. Self.state machine ≡ Self.rules.start (Self.opening machine)) }
        ensures jobs { IfOk result (λ machine. Self.jobs machine ≡ 0) }
        ensures returned { IfErr result (λ back. back ≡ world) };

    /// The job that takes an event, which the job holds behind a pointer.
    fn event_job(alloc: Global, event: Event) -> Result<Self::Job, NoMemory>
        requires form { IsEvent (event_of event) }
        ensures { IfOk result (λ job. speech.purpose job ≡ TakesEvent (event_of event)) };

    /// The job that marks how much each live peer was told.
    fn sync_job() -> Self::Job
        ensures { speech.purpose result ≡ MarksTold };

    /// The job after which there is none.
    fn close_job() -> Self::Job
        ensures { speech.purpose result ≡ Ends };

    /// A job that has to be done before the next event; none where there is none to be done.
    fn settling(&self) -> Result<Option<Self::Job>, NoMemory>
        ensures prepares { IfOk result (λ next. IfSome next (λ job. speech.purpose job ≡ Prepares)) }
        ensures legal { IfOk result (λ next. IfSome next (λ job. Self.rules.legal job (Self.state self.now) ≡ true)) }
        ensures settled { IfOk result (λ next. IfNone next (speech.closed (Self.state self.now) ≡ false → speech.settled (Self.state self.now) ≡ true)) };

    /// A job by which more can be told; none where only lanes can go on.
    fn draining(&self) -> Result<Option<Self::Job>, NoMemory>
        ensures prepares { IfOk result (λ next. IfSome next (λ job. speech.purpose job ≡ Prepares)) }
        ensures legal { IfOk result (λ next. IfSome next (λ job. Self.rules.legal job (Self.state self.now) ≡ true)) }
        ensures prepared { IfOk result (λ next. IfNone next (IsPrepared Self.rules speech (Self.state self.now))) };

    /// Whether everything is told.
    fn is_drained(&self) -> bool
        ensures { result ≡ speech.drained (Self.state self.now) };

    /// The world in which it stands.
    fn world(&self) -> &World
        ensures { result.now ≡ speech.world (Self.state self.now) };

    /// The marks that a reply tells.
    fn marks(said: &Self::Said) -> &[Mark]
        ensures { result.now ≡ speech.marks said.now };

    ghost speaks: { IsSpeaker Self.rules speech };
}
