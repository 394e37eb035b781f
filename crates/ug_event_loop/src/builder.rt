//! The builder: it takes lines of events in turns of its own, and reports on them.

ghost use Rattle.std.specs.Prelude.{◌≡◌, ◌≤◌, ◌∷◌, ◌++◌, ◌+◌, ℕ, [], List, Option, false, true, Ok, Some, None, OnOk, OnErr, IfOk, IfErr, IsErrOf};
ghost use Rattle.std.specs.List.{concat};
ghost use Rattle.std.specs.String.{string_bytes};
ghost use Rattle.ug_edge.specs.Told.{Rose, AppendsPiece};
ghost use Rattle.ug_pieces.specs.Reporting.{AppendsFront};
ghost use Rattle.ug_events.specs.Events.{Saying, IsEvent, Says, SaysSync};
ghost use Rattle.ug_events.specs.Reads.{Reads};
ghost use Rattle.ug_events.specs.Views.{event_of};
ghost use Rattle.ug_report.specs.Report.{AreOf64, answer_texts};
ghost use Rattle.ug_sender.specs.Posts.{AreHere, AllRest, posts_of};
ghost use Rattle.ug_event_loop.specs.Turns.{GoesOn, WindsUp, StaysOpen, AnswersAt, IsLegalAt, IsSettledAt, IsEndedAt, IsClosedAt, answer_of, marks_of};
ghost use Rattle.ug_event_loop.specs.Counts.{least_at, most_at, RisesBy, RisesWithin};
ghost use Rattle.ug_event_loop.specs.Standing.{said_by, is_due, IsPacedBy, IsPumpedBetween, IsSameBuilder, BuilderStands, TakesLines, StopsWithin};
ghost use Rattle.ug_event_loop.specs.Reading.{StandsWithin};

use crate::came::Came;
use crate::grammar::{Grammar, read};
use crate::pace::Pace;
use crate::settled::Settled;
use crate::stop::Stop;
use crate::tally::Tally;
use crate::turns::{
    break_off_in_turn, conclude_in_turn, mark_in_turn, offer_in_turn, settle_in_turn,
};
use std::alloc::Global;
use std::marker::Model;
use std::sync::Wait;
use std::sync::ledger::Ledger;
use ug_board::Board;
use ug_edge::{Sink, Wire};
use ug_events::{Event, Line, LineReader, LineRefusal};
use ug_pieces::write_all;
use ug_report::{write_marks, write_refusal};
use ug_sender::{Fleet, Roster, Starter};
use ug_speaker::Speaker;
use ug_turnstile::{Pass, Turnstile};
use ug_types::{NameList, NoMemory, Steps};

/// A builder. Contracts see its pass, which has number 0 and no turn, the names of the peers, the verbs that it knows,
/// after how many accepted events the lanes that work here are pumped at the latest, and how many lines it took.
///
/// The lanes that work here rest behind each accepted event. So they are pumped where there may be something for them: behind
/// each so many events, and where `may_wait` is set, since a session began, or what was formatted filled a queue and the rest
/// followed before this event.
#[derive(Drop)]
pub struct Builder<S: Speaker> {
    alloc: Global,
    pass: Pass<Board<S>>,
    names: NameList,
    grammar: Grammar,
    reader: LineReader,
    coalesce: u32,
    tally: Tally,
    pace: Pace,
    may_wait: bool,
}

impl<S: Speaker> Model for Builder<S> {
    ghost use Rattle.std.specs.Prelude.{◌≡◌, false};
    ghost use Rattle.ug_event_loop.specs.Standing.{BuilderView};

    ghost Value = { BuilderView S.Opening S.Job S.Said };

    ghost view = { λ b. record { pass = b.pass; names = b.names.items; grammar = b.grammar; coalesce = b.coalesce; tally = b.tally } };

    ghost invariant = { λ b. (b.pass.holds ≡ false) × (b.pass.number ≡ 0) };
}

impl<S: Speaker> Builder<S> {
    /// A builder that has taken no lines. It pumps the lanes that work here after so many accepted events, which is the
    /// number of its world.
    pub fn new(
        alloc: Global,
        pass: Pass<Board<S>>,
        names: NameList,
        grammar: Grammar,
        coalesce: u32,
    ) -> Self
        requires free { pass.holds ≡ false }
        requires number { pass.number ≡ 0 }
        requires coalesce { IsPacedBy S.speech pass.root coalesce }
        ensures { result ≡ record { pass = pass; names = names.items; grammar = grammar; coalesce = coalesce; tally = record { lines = 0; accepted = 0; refused = 0 } } }
    {
        Builder {
            alloc,
            pass,
            names,
            grammar,
            reader: LineReader::new(alloc),
            coalesce,
            tally: Tally {
                lines: 0,
                accepted: 0,
                refused: 0,
            },
            pace: Pace::new(),
            may_wait: false,
        }
    }

    /// How many lines were taken.
    pub fn tally(&self) -> Tally
        ensures { result ≡ self.now.tally }
    {
        self.tally
    }

    /// The pass, and the names of the peers.
    pub fn into_parts(self) -> (Pass<Board<S>>, NameList)
        ensures pass { result.0 ≡ self.pass }
        ensures names { result.1.items ≡ self.names }
        ensures free { self.pass.holds ≡ false }
        ensures number { self.pass.number ≡ 0 }
    {
        let Builder {
            alloc: _,
            pass,
            names,
            grammar: _,
            reader: _,
            coalesce: _,
            tally: _,
            pace: _,
            may_wait: _,
        } = self;
        (pass, names)
    }

    /// Marks how much each live peer was told, once everything is told.
    fn sync<R: Wait, N: Roster<S::Opening>, W: Wire, T: Starter, L: Ledger>(
        &mut self,
        rt: &R,
        turnstile: &Turnstile<Board<S>>,
        crew: &mut Fleet<'_, N, W, S, T>,
        steps: &mut Steps<L>,
    ) -> Result<Came<S::Said>, NoMemory>
        requires here { self.old.pass.turnstile ≡ turnstile.now.id }
        requires crew { AreHere turnstile.now.id (posts_of crew.old) }
        ensures same { IsSameBuilder self.old self.new }
        ensures tally { self.new.tally ≡ self.old.tally }
        ensures posts { posts_of crew.new ≡ posts_of crew.old }
        ensures answers { IfOk result (λ came. AnswersAt S.Machine.rules S.speech self.new.pass.root (Ok SaysSync) (answer_of S.speech.marks came) self.old.pass.seen self.new.pass.seen) }
        ensures stopped { OnErr result (GoesOn S.Machine.rules S.speech self.old.pass.seen self.new.pass.seen) }
        ensures legal { IsLegalAt S.Machine.rules S.speech self.new.pass.root self.new.pass.seen }
        ensures steps_least { RisesBy steps.old steps.new (least_at S.Machine.rules self.old.pass.root self.old.pass.seen) (least_at S.Machine.rules self.old.pass.root self.new.pass.seen) }
        ensures steps_most { OnOk result (RisesWithin steps.old steps.new (most_at S.Machine.rules self.old.pass.root self.old.pass.seen) (most_at S.Machine.rules self.old.pass.root self.new.pass.seen)) }
    {
        for _ in rt.forever() {
            let rings = turnstile.back().rings();
            let marked = mark_in_turn(rt, turnstile, &mut self.pass, steps)?;
            if let Some(came) = marked {
                return Ok(came);
            }
            wait_for(rt, turnstile, crew, &mut self.pace, rings);
        }
        unreachable!()
    }

    /// What a line comes to.
    fn come<R: Wait, N: Roster<S::Opening>, W: Wire, T: Starter, L: Ledger>(
        &mut self,
        rt: &R,
        turnstile: &Turnstile<Board<S>>,
        crew: &mut Fleet<'_, N, W, S, T>,
        steps: &mut Steps<L>,
        line: &[u8],
    ) -> Result<Came<S::Said>, NoMemory>
        requires here { self.old.pass.turnstile ≡ turnstile.now.id }
        requires crew { AreHere turnstile.now.id (posts_of crew.old) }
        ensures same { IsSameBuilder self.old self.new }
        ensures tally { self.new.tally ≡ self.old.tally }
        ensures posts { posts_of crew.new ≡ posts_of crew.old }
        ensures answers { IfOk result (λ came. AnswersAt S.Machine.rules S.speech self.new.pass.root (said_by self.old.grammar line.now) (answer_of S.speech.marks came) self.old.pass.seen self.new.pass.seen) }
        ensures stopped { OnErr result (GoesOn S.Machine.rules S.speech self.old.pass.seen self.new.pass.seen) }
        ensures legal { IsLegalAt S.Machine.rules S.speech self.old.pass.root self.old.pass.seen → IsLegalAt S.Machine.rules S.speech self.new.pass.root self.new.pass.seen }
        ensures steps_least { RisesBy steps.old steps.new (least_at S.Machine.rules self.old.pass.root self.old.pass.seen) (least_at S.Machine.rules self.old.pass.root self.new.pass.seen) }
        ensures steps_most { OnOk result (RisesWithin steps.old steps.new (most_at S.Machine.rules self.old.pass.root self.old.pass.seen) (most_at S.Machine.rules self.old.pass.root self.new.pass.seen)) }
    {
        match read(self.grammar, &mut self.reader, line) {
            Ok(Line::Blank) => Ok(Came::Passed),
            Ok(Line::Sync) => self.sync(rt, turnstile, crew, steps),
            Ok(Line::Happened(event)) => {
                self.may_wait = self.may_wait || is_begin(&event);
                offer_in_turn(rt, self.alloc, turnstile, &mut self.pass, event, steps)
            }
            Err(LineRefusal::Refused { number, inner }) => Ok(Came::Refused { number, inner }),
            Err(LineRefusal::NoMemory) => Err(NoMemory),
        }
    }

    /// Tells the report what the line of this number came to.
    fn tell<K: Sink>(&self, number: u64, came: &Came<S::Said>, report: &mut K) -> Result<(), Stop>
        ensures ok { OnOk result (AppendsPiece (K.held report.old) (K.held report.new) (concat (answer_texts self.now.names number (answer_of S.speech.marks came.now)))) }
        ensures counts { OnOk result (AreOf64 (marks_of (answer_of S.speech.marks came.now))) }
        ensures starved { IsErrOf result Stop.NoMemory → K.held report.new ≡ K.held report.old }
        ensures failed { IsErrOf result Stop.Report → AppendsFront (K.held report.old) (K.held report.new) (concat (answer_texts self.now.names number (answer_of S.speech.marks came.now))) }
        ensures rose { IsErrOf result Stop.Report → Rose (K.faults report.old) (K.faults report.new) }
        ensures faults { K.faults report.old ≤ K.faults report.new }
    {
        let Ok(text) = self.text_of(number, came) else {
            return Err(Stop::NoMemory);
        };
        match write_all(report, text.as_bytes()) {
            Ok(()) => Ok(()),
            Err(_) => Err(Stop::Report),
        }
    }

    /// What the report says of what the line of this number came to.
    fn text_of(&self, number: u64, came: &Came<S::Said>) -> Result<String, NoMemory>
        ensures text { IfOk result (λ text. string_bytes text ≡ concat (answer_texts self.now.names number (answer_of S.speech.marks came.now))) }
        ensures counts { OnOk result (AreOf64 (marks_of (answer_of S.speech.marks came.now))) }
    {
        let mut text = String::new(self.alloc);
        match came {
            Came::Passed => {}
            Came::Refused {
                number: refusal,
                inner,
            } => write_refusal(&mut text, number, *refusal, *inner)?,
            Came::Took(said) => {
                write_marks(&mut text, "refresh", self.names.as_slice(), S::marks(said))?
            }
            Came::Synced(said) => {
                write_marks(&mut text, "sync", self.names.as_slice(), S::marks(said))?
            }
        }
        Ok(text)
    }

    /// Takes a line, and tells the report what it came to. Where it was an event that was accepted, it answers whether what is
    /// new is due to the lanes.
    fn take_told<R: Wait, N: Roster<S::Opening>, W: Wire, T: Starter, L: Ledger, K: Sink>(
        &mut self,
        rt: &R,
        turnstile: &Turnstile<Board<S>>,
        crew: &mut Fleet<'_, N, W, S, T>,
        steps: &mut Steps<L>,
        line: &[u8],
        report: &mut K,
    ) -> Result<Option<bool>, Stop>
        requires here { self.old.pass.turnstile ≡ turnstile.now.id }
        requires crew { AreHere turnstile.now.id (posts_of crew.old) }
        ensures same { IsSameBuilder self.old self.new }
        ensures posts { posts_of crew.new ≡ posts_of crew.old }
        ensures due { IfOk result (λ due. self.new.tally.accepted ≡ self.old.tally.accepted + 1 → due ≡ Some (is_due self.new.tally.accepted self.old.coalesce)) }
        ensures taken { OnOk result (TakesLines S.Machine.rules S.speech self.old (K.held report.old) self.new (K.held report.new) (line.now ∷ [])) }
        ensures stopped { IfErr result (λ stop. StopsWithin S.Machine.rules S.speech stop self.old (K.held report.old) self.new (K.held report.new) (line.now ∷ [])) }
        ensures rose { IsErrOf result Stop.Report → Rose (K.faults report.old) (K.faults report.new) }
        ensures faults { K.faults report.old ≤ K.faults report.new }
        ensures steps_least { RisesBy steps.old steps.new (least_at S.Machine.rules self.old.pass.root self.old.pass.seen) (least_at S.Machine.rules self.old.pass.root self.new.pass.seen) }
        ensures steps_most { OnOk result (RisesWithin steps.old steps.new (most_at S.Machine.rules self.old.pass.root self.old.pass.seen) (most_at S.Machine.rules self.old.pass.root self.new.pass.seen)) }
    {
        let Ok(came) = self.come(rt, turnstile, crew, steps, line) else {
            return Err(Stop::NoMemory);
        };
        let Some(tally) = self.tally.with(&came) else {
            return Err(Stop::NoMemory);
        };
        let is_due = is_multiple(tally.accepted, self.coalesce);
        match self.tell(tally.lines, &came, report) {
            Ok(()) => {}
            Err(stop) => return Err(stop),
        }
        self.tally = tally;
        match came {
            Came::Took(_) => Ok(Some(is_due)),
            Came::Passed | Came::Refused { .. } | Came::Synced(_) => Ok(None),
        }
    }

    /// Takes a line, and tells the report what it came to. After an event that was accepted it settles, and after each so many
    /// of them the lanes that work here are pumped, until nothing is sent for now.
    pub(crate) fn take<R: Wait, N: Roster<S::Opening>, W: Wire, T: Starter, L: Ledger, K: Sink>(
        &mut self,
        rt: &R,
        turnstile: &Turnstile<Board<S>>,
        crew: &mut Fleet<'_, N, W, S, T>,
        steps: &mut Steps<L>,
        line: &[u8],
        report: &mut K,
    ) -> Result<(), Stop>
        requires here { self.old.pass.turnstile ≡ turnstile.now.id }
        requires crew { AreHere turnstile.now.id (posts_of crew.old) }
        ensures same { IsSameBuilder self.old self.new }
        ensures posts { posts_of crew.new ≡ posts_of crew.old }
        ensures pumped { OnOk result (IsPumpedBetween self.old self.new → AllRest S.Machine.rules crew.new) }
        ensures settled { OnOk result (self.new.tally.accepted ≡ self.old.tally.accepted + 1 → IsSettledAt S.Machine.rules S.speech self.new.pass.root self.new.pass.seen) }
        ensures taken { OnOk result (TakesLines S.Machine.rules S.speech self.old (K.held report.old) self.new (K.held report.new) (line.now ∷ [])) }
        ensures stopped { IfErr result (λ stop. StopsWithin S.Machine.rules S.speech stop self.old (K.held report.old) self.new (K.held report.new) (line.now ∷ [])) }
        ensures rose { IsErrOf result Stop.Report → Rose (K.faults report.old) (K.faults report.new) }
        ensures faults { K.faults report.old ≤ K.faults report.new }
        ensures steps_least { RisesBy steps.old steps.new (least_at S.Machine.rules self.old.pass.root self.old.pass.seen) (least_at S.Machine.rules self.old.pass.root self.new.pass.seen) }
        ensures steps_most { OnOk result (RisesWithin steps.old steps.new (most_at S.Machine.rules self.old.pass.root self.old.pass.seen) (most_at S.Machine.rules self.old.pass.root self.new.pass.seen)) }
    {
        let taken = self.take_told(rt, turnstile, crew, steps, line, report)?;
        if let Some(is_due) = taken {
            let Ok(()) = self.pass_on(rt, turnstile, crew, steps, is_due) else {
                return Err(Stop::NoMemory);
            };
        }
        Ok(())
    }

    /// Settles after an event, and lets the lanes take what there is for them where that is due. Where that was so much that there
    /// may be more, and it was taken for lanes in docks, it settles again.
    #[tactic(auto, using(crate::proofs::Turning::goes_further))]
    fn pass_on<R: Wait, N: Roster<S::Opening>, W: Wire, T: Starter, L: Ledger>(
        &mut self,
        rt: &R,
        turnstile: &Turnstile<Board<S>>,
        crew: &mut Fleet<'_, N, W, S, T>,
        steps: &mut Steps<L>,
        is_due: bool,
    ) -> Result<(), NoMemory>
        requires here { self.old.pass.turnstile ≡ turnstile.now.id }
        requires crew { AreHere turnstile.now.id (posts_of crew.old) }
        ensures same { IsSameBuilder self.old self.new }
        ensures tally { self.new.tally ≡ self.old.tally }
        ensures posts { posts_of crew.new ≡ posts_of crew.old }
        ensures due { OnOk result (is_due ≡ true → AllRest S.Machine.rules crew.new) }
        ensures settled { OnOk result (IsSettledAt S.Machine.rules S.speech self.new.pass.root self.new.pass.seen) }
        ensures history { GoesOn S.Machine.rules S.speech self.old.pass.seen self.new.pass.seen }
        ensures legal { IsLegalAt S.Machine.rules S.speech self.new.pass.root self.new.pass.seen }
        ensures steps_least { RisesBy steps.old steps.new (least_at S.Machine.rules self.old.pass.root self.old.pass.seen) (least_at S.Machine.rules self.old.pass.root self.new.pass.seen) }
        ensures steps_most { OnOk result (RisesWithin steps.old steps.new (most_at S.Machine.rules self.old.pass.root self.old.pass.seen) (most_at S.Machine.rules self.old.pass.root self.new.pass.seen)) }
    {
        for _ in rt.forever() {
            let settled = settle_in_turn(rt, turnstile, &mut self.pass, steps)?;
            if !self.pass_to_lanes(rt, turnstile, crew, settled, is_due) {
                return Ok(());
            }
        }
        unreachable!()
    }

    /// Lets the lanes take what these jobs made for them, where that is due, and answers whether there may be more: where so much was
    /// taken for lanes in docks that a queue was full.
    fn pass_to_lanes<R: Wait, N: Roster<S::Opening>, W: Wire, T: Starter>(
        &mut self,
        rt: &R,
        turnstile: &Turnstile<Board<S>>,
        crew: &mut Fleet<'_, N, W, S, T>,
        settled: Settled,
        is_due: bool,
    ) -> bool
        requires crew { AreHere turnstile.now.id (posts_of crew.old) }
        ensures same { self.new ≡ self.old }
        ensures posts { posts_of crew.new ≡ posts_of crew.old }
        ensures due { is_due ≡ true → AllRest S.Machine.rules crew.new }
    {
        let may_wait = is_due || self.may_wait;
        pump_where(rt, turnstile, crew, may_wait);
        self.may_wait = is_due && (self.may_wait || settled.may_be_cut());
        let may_come = may_wait || settled.jobs > 0 || self.pace.is_ahead();
        let has_come = may_come && self.pace.keep(rt, turnstile, crew, settled);
        is_due && has_come && settled.may_be_cut()
    }

    /// Takes an event before all lines, of which no report speaks. Behind it it settles, and the lanes that work here are
    /// pumped.
    pub(crate) fn admit<R: Wait, N: Roster<S::Opening>, W: Wire, T: Starter, L: Ledger>(
        &mut self,
        rt: &R,
        turnstile: &Turnstile<Board<S>>,
        crew: &mut Fleet<'_, N, W, S, T>,
        steps: &mut Steps<L>,
        event: Event,
    ) -> Result<(), NoMemory>
        requires here { self.old.pass.turnstile ≡ turnstile.now.id }
        requires crew { AreHere turnstile.now.id (posts_of crew.old) }
        requires form { IsEvent (event_of event) }
        ensures same { IsSameBuilder self.old self.new }
        ensures posts { posts_of crew.new ≡ posts_of crew.old }
        ensures rest { OnOk result (AllRest S.Machine.rules crew.new) }
        ensures settled { OnOk result (IsSettledAt S.Machine.rules S.speech self.new.pass.root self.new.pass.seen) }
        ensures taken { OnOk result ((first : List (Reads Saying)) (held : Option (List ℕ)) → BuilderStands S.Machine.rules S.speech self.old first [] held held
            → BuilderStands S.Machine.rules S.speech self.new (first ++ Ok (Says (event_of event)) ∷ []) [] held held × StaysOpen S.Machine.rules S.speech self.old.pass.seen self.new.pass.seen) }
        ensures stopped { OnErr result ((first : List (Reads Saying)) (held : Option (List ℕ)) → BuilderStands S.Machine.rules S.speech self.old first [] held held
            → StandsWithin S.Machine.rules S.speech (first ++ Ok (Says (event_of event)) ∷ []) self.new held held × StaysOpen S.Machine.rules S.speech self.old.pass.seen self.new.pass.seen) }
        ensures steps_least { RisesBy steps.old steps.new (least_at S.Machine.rules self.old.pass.root self.old.pass.seen) (least_at S.Machine.rules self.old.pass.root self.new.pass.seen) }
        ensures steps_most { OnOk result (RisesWithin steps.old steps.new (most_at S.Machine.rules self.old.pass.root self.old.pass.seen) (most_at S.Machine.rules self.old.pass.root self.new.pass.seen)) }
    {
        self.admit_alone(rt, turnstile, steps, event)?;
        let Ok(()) = self.pass_on(rt, turnstile, crew, steps, true) else {
            return Err(NoMemory);
        };
        Ok(())
    }

    /// Takes an event before all lines.
    fn admit_alone<R: Wait, L: Ledger>(
        &mut self,
        rt: &R,
        turnstile: &Turnstile<Board<S>>,
        steps: &mut Steps<L>,
        event: Event,
    ) -> Result<(), NoMemory>
        requires here { self.old.pass.turnstile ≡ turnstile.now.id }
        requires form { IsEvent (event_of event) }
        ensures same { IsSameBuilder self.old self.new }
        ensures taken { OnOk result ((first : List (Reads Saying)) (held : Option (List ℕ)) → BuilderStands S.Machine.rules S.speech self.old first [] held held
            → BuilderStands S.Machine.rules S.speech self.new (first ++ Ok (Says (event_of event)) ∷ []) [] held held × StaysOpen S.Machine.rules S.speech self.old.pass.seen self.new.pass.seen) }
        ensures stopped { OnErr result ((first : List (Reads Saying)) (held : Option (List ℕ)) → BuilderStands S.Machine.rules S.speech self.old first [] held held
            → BuilderStands S.Machine.rules S.speech self.new first [] held held × StaysOpen S.Machine.rules S.speech self.old.pass.seen self.new.pass.seen) }
        ensures steps_least { RisesBy steps.old steps.new (least_at S.Machine.rules self.old.pass.root self.old.pass.seen) (least_at S.Machine.rules self.old.pass.root self.new.pass.seen) }
        ensures steps_most { OnOk result (RisesWithin steps.old steps.new (most_at S.Machine.rules self.old.pass.root self.old.pass.seen) (most_at S.Machine.rules self.old.pass.root self.new.pass.seen)) }
    {
        let Ok(_came) = offer_in_turn(rt, self.alloc, turnstile, &mut self.pass, event, steps)
        else {
            return Err(NoMemory);
        };
        Ok(())
    }

    /// Ends the work on the board, once everything is told.
    pub(crate) fn conclude<R: Wait, N: Roster<S::Opening>, W: Wire, T: Starter, L: Ledger>(
        &mut self,
        rt: &R,
        turnstile: &Turnstile<Board<S>>,
        crew: &mut Fleet<'_, N, W, S, T>,
        steps: &mut Steps<L>,
    ) -> Result<(), NoMemory>
        requires here { self.old.pass.turnstile ≡ turnstile.now.id }
        requires crew { AreHere turnstile.now.id (posts_of crew.old) }
        ensures same { IsSameBuilder self.old self.new }
        ensures tally { self.new.tally ≡ self.old.tally }
        ensures posts { posts_of crew.new ≡ posts_of crew.old }
        ensures history { WindsUp S.Machine.rules S.speech self.old.pass.seen self.new.pass.seen }
        ensures ended { OnOk result (IsEndedAt S.Machine.rules S.speech self.new.pass.root self.new.pass.seen) }
        ensures legal { IsLegalAt S.Machine.rules S.speech self.new.pass.root self.new.pass.seen }
        ensures steps_least { RisesBy steps.old steps.new (least_at S.Machine.rules self.old.pass.root self.old.pass.seen) (least_at S.Machine.rules self.old.pass.root self.new.pass.seen) }
        ensures steps_most { OnOk result (RisesWithin steps.old steps.new (most_at S.Machine.rules self.old.pass.root self.old.pass.seen) (most_at S.Machine.rules self.old.pass.root self.new.pass.seen)) }
    {
        for _ in rt.forever() {
            let rings = turnstile.back().rings();
            let concluded = conclude_in_turn(rt, turnstile, &mut self.pass, steps)?;
            if concluded {
                return Ok(());
            }
            wait_for(rt, turnstile, crew, &mut self.pace, rings);
        }
        unreachable!()
    }

    /// Ends the work on the board at once, unless it is spent.
    pub(crate) fn break_off<R: Wait, L: Ledger>(
        &mut self,
        rt: &R,
        turnstile: &Turnstile<Board<S>>,
        steps: &mut Steps<L>,
    )
        requires here { self.old.pass.turnstile ≡ turnstile.now.id }
        ensures same { IsSameBuilder self.old self.new }
        ensures tally { self.new.tally ≡ self.old.tally }
        ensures history { WindsUp S.Machine.rules S.speech self.old.pass.seen self.new.pass.seen }
        ensures closed { IsClosedAt S.Machine.rules S.speech self.new.pass.spent self.new.pass.root self.new.pass.seen }
        ensures legal { IsLegalAt S.Machine.rules S.speech self.new.pass.root self.new.pass.seen }
        ensures steps_least { RisesBy steps.old steps.new (least_at S.Machine.rules self.old.pass.root self.old.pass.seen) (least_at S.Machine.rules self.old.pass.root self.new.pass.seen) }
    {
        break_off_in_turn(rt, turnstile, &mut self.pass, steps);
    }
}

/// Whether so many events are a multiple of that number.
fn is_multiple(accepted: u64, coalesce: u32) -> bool
    ensures { result ≡ is_due accepted coalesce }
{
    accepted % u64::from(coalesce.max(1)) == 0
}

/// Whether a session begins with the event, if it is accepted.
fn is_begin(event: &Event) -> bool {
    matches!(event, Event::Up { .. })
}

/// Pumps the lanes that work here, where that is due.
fn pump_where<R: Wait, N: Roster<S::Opening>, W: Wire, T: Starter, S: Speaker>(
    rt: &R,
    turnstile: &Turnstile<Board<S>>,
    crew: &mut Fleet<'_, N, W, S, T>,
    is_due: bool,
)
    requires crew { AreHere turnstile.now.id (posts_of crew.old) }
    ensures posts { posts_of crew.new ≡ posts_of crew.old }
    ensures due { is_due ≡ true → AllRest S.Machine.rules crew.new }
    ensures left { is_due ≡ false → crew.new ≡ crew.old }
{
    if is_due {
        crew.pump_here(rt, turnstile);
    }
}

/// Pumps the lanes that work here, and takes what there is for those in docks; where neither did anything it waits until a thread
/// rang more often than that.
fn wait_for<R: Wait, N: Roster<S::Opening>, W: Wire, T: Starter, S: Speaker>(
    rt: &R,
    turnstile: &Turnstile<Board<S>>,
    crew: &mut Fleet<'_, N, W, S, T>,
    pace: &mut Pace,
    rings: u64,
)
    requires crew { AreHere turnstile.now.id (posts_of crew.old) }
    ensures posts { posts_of crew.new ≡ posts_of crew.old }
    ensures rest { AllRest S.Machine.rules crew.new }
{
    let has_done = crew.pump_here(rt, turnstile);
    let intake = pace.load(rt, crew);
    if !has_done && !intake.has_come {
        pace.pause(rt, turnstile, crew, intake, rings);
    }
}
