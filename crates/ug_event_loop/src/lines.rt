//! Lines of a file, which a builder takes one by one as their bytes come.

ghost use Rattle.std.specs.Prelude.{◌≡◌, ◌≤◌, ◌<◌, ◌+◌, ◌++◌, ◌∷◌, [], take, OnOk, IfErr, IsErrOf};
ghost use Rattle.ug_edge.specs.Told.{Rose};
ghost use Rattle.ug_pieces.specs.Lines.{where_some};
ghost use Rattle.ug_pieces.specs.LineSteps.{HasTakenLines, HasStoppedWithin, HasStoppedAt};
ghost use Rattle.ug_sender.specs.Posts.{AreHere, posts_of};
ghost use Rattle.ug_event_loop.specs.Counts.{least_at, most_at, RisesBy, RisesWithin};
ghost use Rattle.ug_event_loop.specs.Standing.{IsSameBuilder, TakesLines, StopsWithin};

use crate::begun::{Begun, keep_begun};
use crate::builder::Builder;
use crate::stop::Stop;
use std::sync::Wait;
use std::sync::ledger::Ledger;
use ug_board::Board;
use ug_edge::{Sink, Wire};
use ug_pieces::{LineStop, keep_front};
use ug_sender::{Fleet, Roster, Starter};
use ug_speaker::Speaker;
use ug_text::cut_at;
use ug_turnstile::Turnstile;
use ug_types::{NoMemory, Steps};

/// Takes the line that these bytes end.
fn take_ended<R: Wait, N: Roster<S::Opening>, W: Wire, T: Starter, S: Speaker, L: Ledger, K: Sink>(
    rt: &R,
    turnstile: &Turnstile<Board<S>>,
    builder: &mut Builder<S>,
    crew: &mut Fleet<'_, N, W, S, T>,
    steps: &mut Steps<L>,
    report: &mut K,
    begun: &mut Begun,
    line: &[u8],
) -> Result<(), LineStop<Stop>>
    requires here { builder.old.pass.turnstile ≡ turnstile.now.id }
    requires crew { AreHere turnstile.now.id (posts_of crew.old) }
    ensures same { IsSameBuilder builder.old builder.new }
    ensures posts { posts_of crew.new ≡ posts_of crew.old }
    ensures taken { OnOk result (TakesLines S.Machine.rules S.speech builder.old (K.held report.old) builder.new (K.held report.new) (take begun.old.kept (begun.old.rest.items ++ line.now) ∷ [])) }
    ensures rest { OnOk result (begun.new.rest.items ≡ []) }
    ensures count { OnOk result (begun.new.count ≡ begun.old.count + 1) }
    ensures kept { OnOk result (begun.new.kept ≡ begun.old.kept) }
    ensures most { OnOk result (begun.new.most ≡ begun.old.most) }
    ensures stopped { IfErr result (λ stop. HasStoppedAt stop (begun.old.count ≡ begun.old.most) ((builder.new ≡ builder.old) × (K.held report.new ≡ K.held report.old))
        (λ why. (begun.old.count < begun.old.most) × StopsWithin S.Machine.rules S.speech why builder.old (K.held report.old) builder.new (K.held report.new) (take begun.old.kept (begun.old.rest.items ++ line.now) ∷ []))) }
    ensures rose { IsErrOf result (LineStop.Stopped Stop.Report) → Rose (K.faults report.old) (K.faults report.new) }
    ensures faults { K.faults report.old ≤ K.faults report.new }
    ensures steps_least { RisesBy steps.old steps.new (least_at S.Machine.rules builder.old.pass.root builder.old.pass.seen) (least_at S.Machine.rules builder.old.pass.root builder.new.pass.seen) }
    ensures steps_most { OnOk result (RisesWithin steps.old steps.new (most_at S.Machine.rules builder.old.pass.root builder.old.pass.seen) (most_at S.Machine.rules builder.old.pass.root builder.new.pass.seen)) }
{
    if begun.count == begun.most {
        return Err(LineStop::TooMany);
    }
    if begun.rest.is_empty() {
        let (front, _) = line.split_at(begun.kept.min(line.len()));
        match builder.take(rt, turnstile, crew, steps, front, report) {
            Ok(()) => {}
            Err(stop) => return Err(LineStop::Stopped(stop)),
        }
    } else {
        match keep_front(&mut begun.rest, begun.kept, line) {
            Ok(()) => {}
            Err(NoMemory) => return Err(LineStop::NoMemory),
        }
        match builder.take(rt, turnstile, crew, steps, begun.rest.as_slice(), report) {
            Ok(()) => {}
            Err(stop) => return Err(LineStop::Stopped(stop)),
        }
        begun.rest.clear();
    }
    begun.count += 1;
    Ok(())
}

/// Takes the lines that a piece ends, and keeps what it begins.
pub(crate) fn take_piece<
    R: Wait,
    N: Roster<S::Opening>,
    W: Wire,
    T: Starter,
    S: Speaker,
    L: Ledger,
    K: Sink,
>(
    rt: &R,
    turnstile: &Turnstile<Board<S>>,
    builder: &mut Builder<S>,
    crew: &mut Fleet<'_, N, W, S, T>,
    steps: &mut Steps<L>,
    report: &mut K,
    begun: &mut Begun,
    piece: &[u8],
) -> Result<(), LineStop<Stop>>
    requires here { builder.old.pass.turnstile ≡ turnstile.now.id }
    requires crew { AreHere turnstile.now.id (posts_of crew.old) }
    ensures same { IsSameBuilder builder.old builder.new }
    ensures posts { posts_of crew.new ≡ posts_of crew.old }
    ensures taken { OnOk result (HasTakenLines (TakesLines S.Machine.rules S.speech builder.old (K.held report.old) builder.new (K.held report.new))
        begun.old.kept begun.old.most begun.old.rest.items begun.new.rest.items begun.old.count begun.new.count begun.new.kept begun.new.most piece.now) }
    ensures stopped { IfErr result (λ stop. HasStoppedWithin stop (TakesLines S.Machine.rules S.speech builder.old (K.held report.old) builder.new (K.held report.new))
        (λ lines why. StopsWithin S.Machine.rules S.speech why builder.old (K.held report.old) builder.new (K.held report.new) lines)
        begun.old.kept begun.old.most begun.old.rest.items begun.old.count piece.now) }
    ensures rose { IsErrOf result (LineStop.Stopped Stop.Report) → Rose (K.faults report.old) (K.faults report.new) }
    ensures faults { K.faults report.old ≤ K.faults report.new }
    ensures steps_least { RisesBy steps.old steps.new (least_at S.Machine.rules builder.old.pass.root builder.old.pass.seen) (least_at S.Machine.rules builder.old.pass.root builder.new.pass.seen) }
    ensures steps_most { OnOk result (RisesWithin steps.old steps.new (most_at S.Machine.rules builder.old.pass.root builder.old.pass.seen) (most_at S.Machine.rules builder.old.pass.root builder.new.pass.seen)) }
{
    let mut left = piece;
    while let Some((line, more)) = cut_at(b'\n', left) {
        match take_ended(rt, turnstile, builder, crew, steps, report, begun, line) {
            Ok(()) => {}
            Err(stop) => return Err(stop),
        }
        left = more;
    }
    match keep_begun(begun, left) {
        Ok(()) => Ok(()),
        Err(stop) => Err(stop),
    }
}

/// Takes the bytes behind the last newline as a line, where there are any.
pub(crate) fn take_last<
    R: Wait,
    N: Roster<S::Opening>,
    W: Wire,
    T: Starter,
    S: Speaker,
    L: Ledger,
    K: Sink,
>(
    rt: &R,
    turnstile: &Turnstile<Board<S>>,
    builder: &mut Builder<S>,
    crew: &mut Fleet<'_, N, W, S, T>,
    steps: &mut Steps<L>,
    report: &mut K,
    begun: &Begun,
) -> Result<(), LineStop<Stop>>
    requires here { builder.old.pass.turnstile ≡ turnstile.now.id }
    requires crew { AreHere turnstile.now.id (posts_of crew.old) }
    ensures same { IsSameBuilder builder.old builder.new }
    ensures posts { posts_of crew.new ≡ posts_of crew.old }
    ensures taken { OnOk result (TakesLines S.Machine.rules S.speech builder.old (K.held report.old) builder.new (K.held report.new) (where_some begun.now.rest.items)) }
    ensures stopped { IfErr result (λ stop. HasStoppedAt stop ⊥ ⊥ (λ why. StopsWithin S.Machine.rules S.speech why builder.old (K.held report.old) builder.new (K.held report.new) (where_some begun.now.rest.items))) }
    ensures rose { IsErrOf result (LineStop.Stopped Stop.Report) → Rose (K.faults report.old) (K.faults report.new) }
    ensures faults { K.faults report.old ≤ K.faults report.new }
    ensures steps_least { RisesBy steps.old steps.new (least_at S.Machine.rules builder.old.pass.root builder.old.pass.seen) (least_at S.Machine.rules builder.old.pass.root builder.new.pass.seen) }
    ensures steps_most { OnOk result (RisesWithin steps.old steps.new (most_at S.Machine.rules builder.old.pass.root builder.old.pass.seen) (most_at S.Machine.rules builder.old.pass.root builder.new.pass.seen)) }
{
    if begun.rest.is_empty() {
        return Ok(());
    }
    match builder.take(rt, turnstile, crew, steps, begun.rest.as_slice(), report) {
        Ok(()) => Ok(()),
        Err(stop) => Err(LineStop::Stopped(stop)),
    }
}
