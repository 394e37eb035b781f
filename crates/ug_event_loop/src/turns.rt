//! What the builder does in turns of its own.

ghost use Rattle.std.specs.Prelude.{◌≡◌, true, false, Ok, OnOk, OnErr, IfOk, IfSome, IfNone};
ghost use Rattle.ug_turnstile.specs.Passes.{IsSamePass};
ghost use Rattle.ug_events.specs.Events.{IsEvent, Says, SaysSync};
ghost use Rattle.ug_events.specs.Views.{event_of};
ghost use Rattle.ug_event_loop.specs.Turns.{GoesOn, WindsUp, AnswersAt, IsLegalAt, IsSettledAt, IsUntoldAt, IsEndedAt, IsClosedAt, answer_of};
ghost use Rattle.ug_event_loop.specs.Counts.{least_at, most_at, RisesBy, RisesWithin};

use crate::board::{break_off, conclude, mark, offer, settle};
use crate::came::Came;
use crate::settled::Settled;
use std::alloc::Global;
use std::sync::Wait;
use std::sync::ledger::Ledger;
use ug_board::Board;
use ug_events::Event;
use ug_speaker::Speaker;
use ug_turnstile::{Pass, Turnstile};
use ug_types::{NoMemory, Steps};

/// Offers an event to the world.
pub(crate) fn offer_in_turn<S: Speaker, R: Wait, L: Ledger>(
    rt: &R,
    alloc: Global,
    turnstile: &Turnstile<Board<S>>,
    pass: &mut Pass<Board<S>>,
    event: Event,
    steps: &mut Steps<L>,
) -> Result<Came<S::Said>, NoMemory>
    requires here { pass.old.turnstile ≡ turnstile.now.id }
    requires free { pass.old.holds ≡ false }
    requires number { pass.old.number ≡ 0 }
    requires form { IsEvent (event_of event) }
    ensures same { IsSamePass pass.old pass.new }
    ensures free { pass.new.holds ≡ false }
    ensures answers { IfOk result (λ came. AnswersAt S.Machine.rules S.speech pass.new.root (Ok (Says (event_of event))) (answer_of S.speech.marks came) pass.old.seen pass.new.seen) }
    ensures stopped { OnErr result (GoesOn S.Machine.rules S.speech pass.old.seen pass.new.seen) }
    ensures legal { IsLegalAt S.Machine.rules S.speech pass.new.root pass.new.seen }
    ensures steps_least { RisesBy steps.old steps.new (least_at S.Machine.rules pass.old.root pass.old.seen) (least_at S.Machine.rules pass.old.root pass.new.seen) }
    ensures steps_most { OnOk result (RisesWithin steps.old steps.new (most_at S.Machine.rules pass.old.root pass.old.seen) (most_at S.Machine.rules pass.old.root pass.new.seen)) }
{
    let mut turn = turnstile.take(rt, pass);
    let came = offer(rt, alloc, turn.state(), event, steps);
    turnstile.give(pass, turn);
    came
}

/// Does what has to be done before the next event, and answers how many jobs that were and how many packets a queue holds.
pub(crate) fn settle_in_turn<S: Speaker, R: Wait, L: Ledger>(
    rt: &R,
    turnstile: &Turnstile<Board<S>>,
    pass: &mut Pass<Board<S>>,
    steps: &mut Steps<L>,
) -> Result<Settled, NoMemory>
    requires here { pass.old.turnstile ≡ turnstile.now.id }
    requires free { pass.old.holds ≡ false }
    requires number { pass.old.number ≡ 0 }
    ensures same { IsSamePass pass.old pass.new }
    ensures free { pass.new.holds ≡ false }
    ensures history { GoesOn S.Machine.rules S.speech pass.old.seen pass.new.seen }
    ensures settled { OnOk result (IsSettledAt S.Machine.rules S.speech pass.new.root pass.new.seen) }
    ensures legal { IsLegalAt S.Machine.rules S.speech pass.new.root pass.new.seen }
    ensures steps_least { RisesBy steps.old steps.new (least_at S.Machine.rules pass.old.root pass.old.seen) (least_at S.Machine.rules pass.old.root pass.new.seen) }
    ensures steps_most { OnOk result (RisesWithin steps.old steps.new (most_at S.Machine.rules pass.old.root pass.old.seen) (most_at S.Machine.rules pass.old.root pass.new.seen)) }
{
    let mut turn = turnstile.take(rt, pass);
    let settled = settle(rt, turn.state(), steps);
    turnstile.give(pass, turn);
    settled
}

/// Does what there is to be done so that everything is told, and marks how much each live peer was told, where it is.
pub(crate) fn mark_in_turn<S: Speaker, R: Wait, L: Ledger>(
    rt: &R,
    turnstile: &Turnstile<Board<S>>,
    pass: &mut Pass<Board<S>>,
    steps: &mut Steps<L>,
) -> Result<Option<Came<S::Said>>, NoMemory>
    requires here { pass.old.turnstile ≡ turnstile.now.id }
    requires free { pass.old.holds ≡ false }
    requires number { pass.old.number ≡ 0 }
    ensures same { IsSamePass pass.old pass.new }
    ensures free { pass.new.holds ≡ false }
    ensures answers { IfOk result (λ marked. IfSome marked (λ came. AnswersAt S.Machine.rules S.speech pass.new.root (Ok SaysSync) (answer_of S.speech.marks came) pass.old.seen pass.new.seen)) }
    ensures waits { IfOk result (λ marked. IfNone marked (GoesOn S.Machine.rules S.speech pass.old.seen pass.new.seen)) }
    ensures untold { IfOk result (λ marked. IfNone marked (IsUntoldAt S.Machine.rules S.speech pass.new.root pass.new.seen)) }
    ensures stopped { OnErr result (GoesOn S.Machine.rules S.speech pass.old.seen pass.new.seen) }
    ensures legal { IsLegalAt S.Machine.rules S.speech pass.new.root pass.new.seen }
    ensures steps_least { RisesBy steps.old steps.new (least_at S.Machine.rules pass.old.root pass.old.seen) (least_at S.Machine.rules pass.old.root pass.new.seen) }
    ensures steps_most { OnOk result (RisesWithin steps.old steps.new (most_at S.Machine.rules pass.old.root pass.old.seen) (most_at S.Machine.rules pass.old.root pass.new.seen)) }
{
    let mut turn = turnstile.take(rt, pass);
    let marked = mark(rt, turn.state(), steps);
    turnstile.give(pass, turn);
    marked
}

/// Does what there is to be done so that everything is told, and ends the work on the board, where it is. It answers whether
/// it did.
pub(crate) fn conclude_in_turn<S: Speaker, R: Wait, L: Ledger>(
    rt: &R,
    turnstile: &Turnstile<Board<S>>,
    pass: &mut Pass<Board<S>>,
    steps: &mut Steps<L>,
) -> Result<bool, NoMemory>
    requires here { pass.old.turnstile ≡ turnstile.now.id }
    requires free { pass.old.holds ≡ false }
    requires number { pass.old.number ≡ 0 }
    ensures same { IsSamePass pass.old pass.new }
    ensures free { pass.new.holds ≡ false }
    ensures history { WindsUp S.Machine.rules S.speech pass.old.seen pass.new.seen }
    ensures waits { IfOk result (λ told. told ≡ false → GoesOn S.Machine.rules S.speech pass.old.seen pass.new.seen) }
    ensures untold { IfOk result (λ told. told ≡ false → IsUntoldAt S.Machine.rules S.speech pass.new.root pass.new.seen) }
    ensures ended { IfOk result (λ told. told ≡ true → IsEndedAt S.Machine.rules S.speech pass.new.root pass.new.seen) }
    ensures legal { IsLegalAt S.Machine.rules S.speech pass.new.root pass.new.seen }
    ensures steps_least { RisesBy steps.old steps.new (least_at S.Machine.rules pass.old.root pass.old.seen) (least_at S.Machine.rules pass.old.root pass.new.seen) }
    ensures steps_most { OnOk result (RisesWithin steps.old steps.new (most_at S.Machine.rules pass.old.root pass.old.seen) (most_at S.Machine.rules pass.old.root pass.new.seen)) }
{
    let mut turn = turnstile.take(rt, pass);
    let concluded = conclude(rt, turn.state(), steps);
    turnstile.give(pass, turn);
    concluded
}

/// Ends the work on the board at once, unless it is spent.
pub(crate) fn break_off_in_turn<S: Speaker, R: Wait, L: Ledger>(
    rt: &R,
    turnstile: &Turnstile<Board<S>>,
    pass: &mut Pass<Board<S>>,
    steps: &mut Steps<L>,
)
    requires here { pass.old.turnstile ≡ turnstile.now.id }
    requires free { pass.old.holds ≡ false }
    requires number { pass.old.number ≡ 0 }
    ensures same { IsSamePass pass.old pass.new }
    ensures free { pass.new.holds ≡ false }
    ensures history { WindsUp S.Machine.rules S.speech pass.old.seen pass.new.seen }
    ensures closed { IsClosedAt S.Machine.rules S.speech pass.new.spent pass.new.root pass.new.seen }
    ensures legal { IsLegalAt S.Machine.rules S.speech pass.new.root pass.new.seen }
    ensures steps_least { RisesBy steps.old steps.new (least_at S.Machine.rules pass.old.root pass.old.seen) (least_at S.Machine.rules pass.old.root pass.new.seen) }
{
    let mut turn = turnstile.take(rt, pass);
    break_off(turn.state(), steps);
    turnstile.give(pass, turn);
}
