//! A file of events, which is read in pieces.

ghost use Rattle.std.specs.Prelude.{◌≡◌, ◌<◌, ◌≤◌, true, length, OnOk, IfErr, IsErrOf};
ghost use Rattle.ug_edge.specs.Told.{Rose, IsEnded};
ghost use Rattle.ug_pieces.specs.Pieces.{HasRead, IsHalt};
ghost use Rattle.ug_pieces.specs.LineSteps.{HasTakenLines, HasStoppedWithin};
ghost use Rattle.ug_sender.specs.Posts.{AreHere, posts_of};
ghost use Rattle.ug_event_loop.specs.Counts.{least_at, most_at, RisesBy, RisesWithin};
ghost use Rattle.ug_event_loop.specs.Standing.{IsSameBuilder, TakesLines, StopsWithin};
ghost use Rattle.ug_event_loop.specs.Files.{lines_read, IsPastLimits};
ghost use Rattle.ug_event_loop.specs.Reading.{LinesHalted};

use crate::begun::Begun;
use crate::builder::Builder;
use crate::lines::{take_last, take_piece};
use crate::stop::Stop;
use std::alloc::Global;
use std::sync::Wait;
use std::sync::ledger::Ledger;
use ug_board::Board;
use ug_edge::{Failed, Sink, Source, Wire};
use ug_pieces::{Halt, LineHalt, LineStop, halt_of_pieces, halt_of_stop};
use ug_sender::{Fleet, Roster, Starter};
use ug_speaker::Speaker;
use ug_turnstile::Turnstile;
use ug_types::Steps;

/// How many bytes are asked for at once.
const PIECE: usize = 1 << 16;

/// The most bytes of a file of events, the most lines, and how much of a line is kept: enough to tell that it is too long.
const MOST_BYTES: usize = 1_073_741_824;

const MOST_LINES: usize = 2_000_000;

const KEPT: usize = 4097;

/// Reads a file to its end, of so many bytes at most, and takes the lines that a newline ends. Before it reads, which may take long
/// where more has yet to be written, lanes are left to their threads.
fn read_ended<
    R: Wait,
    N: Roster<S::Opening>,
    W: Wire,
    T: Starter,
    S: Speaker,
    L: Ledger,
    E: Source,
    K: Sink,
>(
    rt: &R,
    alloc: Global,
    turnstile: &Turnstile<Board<S>>,
    builder: &mut Builder<S>,
    crew: &mut Fleet<'_, N, W, S, T>,
    steps: &mut Steps<L>,
    limit: usize,
    source: &mut E,
    report: &mut K,
    begun: &mut Begun,
) -> Result<(), Halt<LineStop<Stop>>>
    requires here { builder.old.pass.turnstile ≡ turnstile.now.id }
    requires crew { AreHere turnstile.now.id (posts_of crew.old) }
    ensures same { IsSameBuilder builder.old builder.new }
    ensures posts { posts_of crew.new ≡ posts_of crew.old }
    ensures ok { OnOk result (HasRead (E.left source.old) (E.left source.new) (λ read. IsEnded (E.left source.new) × (length read ≤ limit)
        × HasTakenLines (TakesLines S.Machine.rules S.speech builder.old (K.held report.old) builder.new (K.held report.new))
        begun.old.kept begun.old.most begun.old.rest.items begun.new.rest.items begun.old.count begun.new.count begun.new.kept begun.new.most read)) }
    ensures halted { IfErr result (λ halt. HasRead (E.left source.old) (E.left source.new) (IsHalt halt limit
        (HasTakenLines (TakesLines S.Machine.rules S.speech builder.old (K.held report.old) builder.new (K.held report.new))
        begun.old.kept begun.old.most begun.old.rest.items begun.new.rest.items begun.old.count begun.new.count begun.new.kept begun.new.most)
        (λ bytes stop. HasStoppedWithin stop (TakesLines S.Machine.rules S.speech builder.old (K.held report.old) builder.new (K.held report.new))
        (λ lines why. StopsWithin S.Machine.rules S.speech why builder.old (K.held report.old) builder.new (K.held report.new) lines)
        begun.old.kept begun.old.most begun.old.rest.items begun.old.count bytes))) }
    ensures rose { IsErrOf result (Halt.Stopped (LineStop.Stopped Stop.Report)) → Rose (K.faults report.old) (K.faults report.new) }
    ensures writes { K.faults report.old ≤ K.faults report.new }
    ensures unread { IsErrOf result Halt.Read → Rose (E.faults source.old) (E.faults source.new) }
    ensures unharmed { (IsErrOf result Halt.Read → ⊥) → E.faults source.new ≡ E.faults source.old }
    ensures faults { E.faults source.old ≤ E.faults source.new }
    ensures files { E.files source.new ≡ E.files source.old }
    ensures picks { E.picks source.new ≡ E.picks source.old }
    ensures made { E.made source.new ≡ E.made source.old }
    ensures wire_faults { E.wire_faults source.new ≡ E.wire_faults source.old }
    ensures steps_least { RisesBy steps.old steps.new (least_at S.Machine.rules builder.old.pass.root builder.old.pass.seen) (least_at S.Machine.rules builder.old.pass.root builder.new.pass.seen) }
    ensures steps_most { OnOk result (RisesWithin steps.old steps.new (most_at S.Machine.rules builder.old.pass.root builder.old.pass.seen) (most_at S.Machine.rules builder.old.pass.root builder.new.pass.seen)) }
{
    let mut buffer = match vec![in alloc; 0u8; PIECE] {
        Ok(buffer) => buffer,
        Err(_) => return Err(Halt::NoMemory),
    };
    let mut total: usize = 0;
    loop {
        crew.leave(rt);
        let count = match source.read(buffer.as_mut_slice()) {
            Ok(count) => count,
            Err(Failed) => return Err(Halt::Read),
        };
        if count == 0 {
            return Ok(());
        }
        let within = count.min(limit - total);
        let (piece, _) = buffer.as_slice().split_at(within);
        match take_piece(rt, turnstile, builder, crew, steps, report, begun, piece) {
            Ok(()) => {}
            Err(stop) => return Err(Halt::Stopped(stop)),
        }
        if within < count {
            return Err(Halt::TooLong);
        }
        total += count;
    }
}

/// Reads a file to its end, and takes its lines.
pub(crate) fn read_events<
    R: Wait,
    N: Roster<S::Opening>,
    W: Wire,
    T: Starter,
    S: Speaker,
    L: Ledger,
    E: Source,
    K: Sink,
>(
    rt: &R,
    alloc: Global,
    turnstile: &Turnstile<Board<S>>,
    builder: &mut Builder<S>,
    crew: &mut Fleet<'_, N, W, S, T>,
    steps: &mut Steps<L>,
    source: &mut E,
    report: &mut K,
) -> Result<(), LineHalt<Stop>>
    requires here { builder.old.pass.turnstile ≡ turnstile.now.id }
    requires crew { AreHere turnstile.now.id (posts_of crew.old) }
    ensures same { IsSameBuilder builder.old builder.new }
    ensures posts { posts_of crew.new ≡ posts_of crew.old }
    ensures ok { OnOk result (HasRead (E.left source.old) (E.left source.new) (λ read.
        IsEnded (E.left source.new) × (IsPastLimits read → ⊥)
        × TakesLines S.Machine.rules S.speech builder.old (K.held report.old) builder.new (K.held report.new) (lines_read true read))) }
    ensures halted { IfErr result (λ halt. HasRead (E.left source.old) (E.left source.new)
        (LinesHalted S.Machine.rules S.speech halt builder.old (K.held report.old) builder.new (K.held report.new) (E.left source.new))) }
    ensures rose { IsErrOf result (LineHalt.Stopped Stop.Report) → Rose (K.faults report.old) (K.faults report.new) }
    ensures writes { K.faults report.old ≤ K.faults report.new }
    ensures unread { IsErrOf result LineHalt.Read → Rose (E.faults source.old) (E.faults source.new) }
    ensures unharmed { (IsErrOf result LineHalt.Read → ⊥) → E.faults source.new ≡ E.faults source.old }
    ensures faults { E.faults source.old ≤ E.faults source.new }
    ensures files { E.files source.new ≡ E.files source.old }
    ensures picks { E.picks source.new ≡ E.picks source.old }
    ensures made { E.made source.new ≡ E.made source.old }
    ensures wire_faults { E.wire_faults source.new ≡ E.wire_faults source.old }
    ensures steps_least { RisesBy steps.old steps.new (least_at S.Machine.rules builder.old.pass.root builder.old.pass.seen) (least_at S.Machine.rules builder.old.pass.root builder.new.pass.seen) }
    ensures steps_most { OnOk result (RisesWithin steps.old steps.new (most_at S.Machine.rules builder.old.pass.root builder.old.pass.seen) (most_at S.Machine.rules builder.old.pass.root builder.new.pass.seen)) }
{
    let mut begun = Begun {
        rest: Vec::new(alloc),
        count: 0,
        most: MOST_LINES,
        kept: KEPT,
    };
    match read_ended(
        rt, alloc, turnstile, builder, crew, steps, MOST_BYTES, source, report, &mut begun,
    ) {
        Ok(()) => {}
        Err(halt) => return Err(halt_of_pieces(halt)),
    }
    match take_last(rt, turnstile, builder, crew, steps, report, &begun) {
        Ok(()) => Ok(()),
        Err(stop) => Err(halt_of_stop(stop)),
    }
}
