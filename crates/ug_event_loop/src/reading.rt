//! The work of a builder beside the lanes, from the first line of a file to the end.

ghost use Rattle.std.specs.Prelude.{◌≡◌, ◌≤◌, ℕ, List, [], Option, true, map, OnOk, OnErr, IfErr, IsErrOf};
ghost use Rattle.ug_edge.specs.Told.{IsEnded};
ghost use Rattle.ug_pieces.specs.Pieces.{HasRead};
ghost use Rattle.ug_events.specs.Views.{event_of};
ghost use Rattle.ug_speaker.specs.Owes.{AreEvents};
ghost use Rattle.ug_sender.specs.Posts.{AreHere, posts_of};
ghost use Rattle.ug_event_loop.specs.Turns.{StaysOpen};
ghost use Rattle.ug_event_loop.specs.Counts.{least_at, most_at, RisesBy, RisesWithin};
ghost use Rattle.ug_event_loop.specs.Standing.{said_by, IsSameBuilder, BuilderStands};
ghost use Rattle.ug_event_loop.specs.Files.{lines_read, IsPastLimits};
ghost use Rattle.ug_event_loop.specs.Reading.{Outside, first_of, end_of, EndsAt, HasEnded, StandsWithin, IsRead};

use crate::builder::Builder;
use crate::files::read_events;
use crate::stop::Stop;
use std::alloc::Global;
use std::mem;
use std::sync::Wait;
use std::sync::ledger::Ledger;
use ug_board::Board;
use ug_edge::{Sink, Source, Wire};
use ug_events::Event;
use ug_pieces::LineHalt;
use ug_sender::{Fleet, Roster, Starter};
use ug_speaker::Speaker;
use ug_turnstile::Turnstile;
use ug_types::{NoMemory, Steps};

/// How the reading of a file of events ended.
#[derive(Clone, Copy, PartialEq, Eq)]
pub enum End {
    /// All lines were taken, and everything is told.
    Complete,
    /// The file could not be read.
    Read,
    /// The report could not be written.
    Report,
    /// Memory ran out.
    NoMemory,
    /// The file has more bytes or more lines than are read.
    TooLong,
}

/// A file of events to be read: by which builder, which events come before its lines, and how it ended.
#[derive(Drop)]
pub struct Reading<S: Speaker> {
    pub alloc: Global,
    pub builder: Builder<S>,
    pub first: Vec<Event>,
    pub end: Option<End>,
}

impl<S: Speaker> Reading<S> {
    /// Takes the first events and the lines of the file beside the crew, and then ends the work on the board.
    pub fn attend<
        R: Wait,
        N: Roster<S::Opening>,
        W: Wire,
        T: Starter,
        E: Source,
        K: Sink,
        L: Ledger,
    >(
        &mut self,
        rt: &R,
        turnstile: &Turnstile<Board<S>>,
        crew: &mut Fleet<'_, N, W, S, T>,
        source: &mut E,
        report: &mut K,
        steps: &mut Steps<L>,
    )
        requires here { self.old.builder.pass.turnstile ≡ turnstile.now.id }
        requires crew { AreHere turnstile.now.id (posts_of crew.old) }
        requires form { AreEvents (map event_of self.old.first.items) }
        ensures ended { IsRead S.Machine.rules S.speech (first_of self.old.first.items) self.old.builder self.new.builder
            (record { left = E.left source.old; reads_failed = E.faults source.old; held = K.held report.old; writes_failed = K.faults report.old; steps = steps.old })
            (record { left = E.left source.new; reads_failed = E.faults source.new; held = K.held report.new; writes_failed = K.faults report.new; steps = steps.new }) self.new.end }
        ensures posts { posts_of crew.new ≡ posts_of crew.old }
        ensures files { E.files source.new ≡ E.files source.old }
        ensures picks { E.picks source.new ≡ E.picks source.old }
        ensures made { E.made source.new ≡ E.made source.old }
        ensures wire_faults { E.wire_faults source.new ≡ E.wire_faults source.old }
    {
        let first = mem::replace(&mut self.first, Vec::new(self.alloc));
        let end = run(
            rt,
            self.alloc,
            turnstile,
            &mut self.builder,
            first,
            crew,
            steps,
            source,
            report,
        );
        self.end = Some(end);
    }

    /// Ends the work on the board before anything is read, since memory ran out.
    pub fn give_up<R: Wait, L: Ledger>(
        &mut self,
        rt: &R,
        turnstile: &Turnstile<Board<S>>,
        steps: &mut Steps<L>,
    )
        requires here { self.old.builder.pass.turnstile ≡ turnstile.now.id }
        ensures ended { (outside : Outside) → IsRead S.Machine.rules S.speech (first_of self.old.first.items) self.old.builder self.new.builder (record outside { steps = steps.old }) (record outside { steps = steps.new }) self.new.end }
    {
        self.builder.break_off(rt, turnstile, steps);
        self.end = Some(End::NoMemory);
    }
}

/// Takes the first events, then the lines of the file, and then ends the work on the board.
fn run<
    R: Wait,
    N: Roster<S::Opening>,
    W: Wire,
    T: Starter,
    S: Speaker,
    L: Ledger,
    E: Source,
    K: Sink,
>(
    rt: &R,
    alloc: Global,
    turnstile: &Turnstile<Board<S>>,
    builder: &mut Builder<S>,
    first: Vec<Event>,
    crew: &mut Fleet<'_, N, W, S, T>,
    steps: &mut Steps<L>,
    source: &mut E,
    report: &mut K,
) -> End
    requires here { builder.old.pass.turnstile ≡ turnstile.now.id }
    requires crew { AreHere turnstile.now.id (posts_of crew.old) }
    requires form { AreEvents (map event_of first.items) }
    ensures ended { HasEnded S.Machine.rules S.speech (first_of first.items) builder.old builder.new
        (record { left = E.left source.old; reads_failed = E.faults source.old; held = K.held report.old; writes_failed = K.faults report.old; steps = steps.old })
        (record { left = E.left source.new; reads_failed = E.faults source.new; held = K.held report.new; writes_failed = K.faults report.new; steps = steps.new }) result }
    ensures posts { posts_of crew.new ≡ posts_of crew.old }
    ensures files { E.files source.new ≡ E.files source.old }
    ensures picks { E.picks source.new ≡ E.picks source.old }
    ensures made { E.made source.new ≡ E.made source.old }
    ensures wire_faults { E.wire_faults source.new ≡ E.wire_faults source.old }
{
    match take_all(
        rt, alloc, turnstile, builder, first, crew, steps, source, report,
    ) {
        Ok(()) => match builder.conclude(rt, turnstile, crew, steps) {
            Ok(()) => End::Complete,
            Err(NoMemory) => {
                builder.break_off(rt, turnstile, steps);
                End::NoMemory
            }
        },
        Err(end) => {
            builder.break_off(rt, turnstile, steps);
            end
        }
    }
}

/// Takes the first events, and then the lines of the file.
fn take_all<
    R: Wait,
    N: Roster<S::Opening>,
    W: Wire,
    T: Starter,
    S: Speaker,
    L: Ledger,
    E: Source,
    K: Sink,
>(
    rt: &R,
    alloc: Global,
    turnstile: &Turnstile<Board<S>>,
    builder: &mut Builder<S>,
    first: Vec<Event>,
    crew: &mut Fleet<'_, N, W, S, T>,
    steps: &mut Steps<L>,
    source: &mut E,
    report: &mut K,
) -> Result<(), End>
    requires here { builder.old.pass.turnstile ≡ turnstile.now.id }
    requires crew { AreHere turnstile.now.id (posts_of crew.old) }
    requires form { AreEvents (map event_of first.items) }
    ensures same { IsSameBuilder builder.old builder.new }
    ensures posts { posts_of crew.new ≡ posts_of crew.old }
    ensures taken { OnOk result (BuilderStands S.Machine.rules S.speech builder.old [] [] (K.held report.old) (K.held report.old) → HasRead (E.left source.old) (E.left source.new) (λ read.
        IsEnded (E.left source.new) × (IsPastLimits read → ⊥)
        × BuilderStands S.Machine.rules S.speech builder.new (first_of first.items) (map (said_by builder.old.grammar) (lines_read true read)) (K.held report.old) (K.held report.new))
        × StaysOpen S.Machine.rules S.speech builder.old.pass.seen builder.new.pass.seen) }
    ensures halted { IfErr result (λ end. BuilderStands S.Machine.rules S.speech builder.old [] [] (K.held report.old) (K.held report.old) → HasRead (E.left source.old) (E.left source.new)
        (EndsAt S.Machine.rules S.speech (first_of first.items) builder.old builder.new
        (record { left = E.left source.old; reads_failed = E.faults source.old; held = K.held report.old; writes_failed = K.faults report.old; steps = steps.old })
        (record { left = E.left source.new; reads_failed = E.faults source.new; held = K.held report.new; writes_failed = K.faults report.new; steps = steps.new }) end)
        × StaysOpen S.Machine.rules S.speech builder.old.pass.seen builder.new.pass.seen) }
    ensures incomplete { IsErrOf result End.Complete → ⊥ }
    ensures unharmed { (IsErrOf result End.Read → ⊥) → E.faults source.new ≡ E.faults source.old }
    ensures faults { E.faults source.old ≤ E.faults source.new }
    ensures writes { K.faults report.old ≤ K.faults report.new }
    ensures files { E.files source.new ≡ E.files source.old }
    ensures picks { E.picks source.new ≡ E.picks source.old }
    ensures made { E.made source.new ≡ E.made source.old }
    ensures wire_faults { E.wire_faults source.new ≡ E.wire_faults source.old }
    ensures steps_least { RisesBy steps.old steps.new (least_at S.Machine.rules builder.old.pass.root builder.old.pass.seen) (least_at S.Machine.rules builder.old.pass.root builder.new.pass.seen) }
    ensures steps_most { OnOk result (RisesWithin steps.old steps.new (most_at S.Machine.rules builder.old.pass.root builder.old.pass.seen) (most_at S.Machine.rules builder.old.pass.root builder.new.pass.seen)) }
{
    let Ok(()) = admit_all(rt, turnstile, builder, first, crew, steps) else {
        return Err(End::NoMemory);
    };
    match read_events(rt, alloc, turnstile, builder, crew, steps, source, report) {
        Ok(()) => Ok(()),
        Err(halt) => Err(end_of(halt)),
    }
}

/// Takes the first events, one after the other.
fn admit_all<R: Wait, N: Roster<S::Opening>, W: Wire, T: Starter, S: Speaker, L: Ledger>(
    rt: &R,
    turnstile: &Turnstile<Board<S>>,
    builder: &mut Builder<S>,
    first: Vec<Event>,
    crew: &mut Fleet<'_, N, W, S, T>,
    steps: &mut Steps<L>,
) -> Result<(), NoMemory>
    requires here { builder.old.pass.turnstile ≡ turnstile.now.id }
    requires crew { AreHere turnstile.now.id (posts_of crew.old) }
    requires form { AreEvents (map event_of first.items) }
    ensures same { IsSameBuilder builder.old builder.new }
    ensures posts { posts_of crew.new ≡ posts_of crew.old }
    ensures taken { OnOk result ((held : Option (List ℕ)) → BuilderStands S.Machine.rules S.speech builder.old [] [] held held
        → BuilderStands S.Machine.rules S.speech builder.new (first_of first.items) [] held held × StaysOpen S.Machine.rules S.speech builder.old.pass.seen builder.new.pass.seen) }
    ensures stopped { OnErr result ((held : Option (List ℕ)) → BuilderStands S.Machine.rules S.speech builder.old [] [] held held
        → StandsWithin S.Machine.rules S.speech (first_of first.items) builder.new held held × StaysOpen S.Machine.rules S.speech builder.old.pass.seen builder.new.pass.seen) }
    ensures steps_least { RisesBy steps.old steps.new (least_at S.Machine.rules builder.old.pass.root builder.old.pass.seen) (least_at S.Machine.rules builder.old.pass.root builder.new.pass.seen) }
    ensures steps_most { OnOk result (RisesWithin steps.old steps.new (most_at S.Machine.rules builder.old.pass.root builder.old.pass.seen) (most_at S.Machine.rules builder.old.pass.root builder.new.pass.seen)) }
{
    for event in first {
        match builder.admit(rt, turnstile, crew, steps, event) {
            Ok(()) => {}
            Err(NoMemory) => return Err(NoMemory),
        }
    }
    Ok(())
}

/// How reading ended, where lines were not all taken.
fn end_of(halt: LineHalt<Stop>) -> End
    ensures { result ≡ end_of halt }
{
    match halt {
        LineHalt::Read => End::Read,
        LineHalt::NoMemory => End::NoMemory,
        LineHalt::TooLong => End::TooLong,
        LineHalt::TooMany => End::TooLong,
        LineHalt::Stopped(Stop::NoMemory) => End::NoMemory,
        LineHalt::Stopped(Stop::Report) => End::Report,
    }
}
