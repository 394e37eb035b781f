//! A run between its beginning and its end: it begins over its wires, its file of events is read beside its lanes, and it is
//! closed.

ghost use Rattle.std.specs.Prelude.{◌≡◌, ◌≤◌, List, [], length, map, true, Some, IfOk, IfErr};
ghost use Rattle.std.specs.List.{list_any};
ghost use Rattle.ug_edge.specs.Told.{Rose};
ghost use Rattle.ug_events.specs.Views.{event_of};
ghost use Rattle.ug_board.specs.Entry.{Entry};
ghost use Rattle.ug_board.specs.History.{MayGoOn, fresh_board};
ghost use Rattle.ug_speaker.specs.Owes.{IsOpening, AreEvents};
ghost use Rattle.ug_report.specs.Report.{names_in, losses_from};
ghost use Rattle.ug_sender.specs.Posts.{AreHere, posts};
ghost use Rattle.ug_event_loop.specs.Reading.{first_of, HasEnded, IsRead};
ghost use Rattle.ug_event_loop.specs.Crew.{all_losses};
ghost use Rattle.ug_run.specs.Wires.{AreNewWires};
ghost use Rattle.ug_run.specs.Lanes.{AreKept};
ghost use Rattle.ug_run.specs.Boards.{AreDealt, IsHistoryOf};
ghost use Rattle.ug_run.specs.Ends.{IsFinished};
ghost use Rattle.ug_run.specs.Runs.{IsBegun};

use crate::course::{Done, Plan};
use crate::ending::{Outcome, finish};
use crate::lanes::{LaneList, man, part, put, room_for};
use crate::wires::WireList;
use std::alloc::Global;
use std::marker::Model;
use std::mem;
use std::sync::Wait;
use std::sync::ledger::Ledger;
use std::thread::Threads;
use ug_board::Board;
use ug_edge::{Sink, Site, Source, Wire};
use ug_event_loop::{Builder, End, Reading, read_beside};
use ug_sender::Crew;
use ug_speaker::Speaker;
use ug_turnstile::{Pass, PassList, Turnstile};
use ug_types::{NameList, NoMemory, Sequence, Steps};
use ug_world::World;

/// A run: the turnstile round its board, its builder with the events that come ahead of the file, its lanes, which are as many
/// as its peers, whether each works in a thread of its own, and memory for the wires and the passes that come back. Contracts
/// see the turnstile, the builder, the lanes and the events.
#[derive(Drop)]
pub(crate) struct Run<W: Wire, S: Speaker> {
    turnstile: Turnstile<Board<S>>,
    reading: Reading<S>,
    lanes: LaneList<W, S>,
    peers: u32,
    apart: bool,
    wires: WireList<W>,
    passes: PassList<Board<S>>,
}

impl<W: Wire, S: Speaker> Model for Run<W, S> {
    ghost use Rattle.ug_run.specs.Runs.{RunView, KeepsRun};

    ghost Value = { RunView W S.Opening S.Job S.Said };

    ghost view = { λ r. record { gate = r.turnstile; builder = r.reading.builder; lanes = r.lanes.items; first = r.reading.first.items } };

    ghost invariant = { λ r. KeepsRun r.turnstile r.reading.builder r.lanes.items r.peers r.wires r.passes };
}

impl<W: Wire, S: Speaker> Run<W, S> {
    /// Begins a run over these wires, which are to the peers of these names. Running out of memory hands the wires back.
    pub(crate) fn begin(
        alloc: Global,
        plan: Plan,
        names: NameList,
        wires: WireList<W>,
    ) -> Result<Run<W, S>, WireList<W>>
        requires opening { IsOpening plan.world }
        requires names { names.items ≡ names_in plan.world }
        requires all { length wires.items ≡ length plan.world.peers }
        requires fresh { AreNewWires W.sessions W.begun W.faults wires.items }
        ensures begun { IfOk result (λ run. IsBegun S.speech W.made_for plan.world plan.grammar wires.items run) }
        ensures ahead { IfOk result (λ run. run.first ≡ plan.first.items) }
        ensures returned { IfErr result (λ back. back.items ≡ wires.items) }
    {
        let Plan {
            world,
            grammar,
            first,
            apart,
        } = plan;
        let peers = world.peers();
        let coalesce = world.local().coalesce;
        let Ok(room) = room_for(alloc, peers as usize) else {
            return Err(wires);
        };
        let Ok(wires_home) = list_for(alloc, peers as usize) else {
            return Err(wires);
        };
        let Ok(passes_home) = list_for(alloc, peers as usize + 1) else {
            return Err(wires);
        };
        let Ok((turnstile, pass, passes)) = deal(alloc, world) else {
            return Err(wires);
        };
        let lanes = man(room, wires, passes);
        let builder = Builder::new(alloc, pass, names, grammar, coalesce);
        Ok(Run {
            turnstile,
            reading: Reading {
                alloc,
                builder,
                first,
                end: None,
            },
            lanes,
            peers,
            apart,
            wires: wires_home,
            passes: passes_home,
        })
    }

    /// Reads the file beside the lanes, until they have stopped, and answers how reading ended.
    pub(crate) fn read<R: Threads + Wait + Sync, E: Site, K: Sink, L: Ledger>(
        &mut self,
        rt: &R,
        site: &mut E,
        report: &mut K,
        steps: &mut Steps<L>,
    ) -> End
        requires form { AreEvents (map event_of self.old.first) }
        ensures ended { HasEnded S.Machine.rules S.speech (first_of self.old.first) self.old.builder self.new.builder
            (record { left = E.left site.old; reads_failed = E.faults site.old; held = K.held report.old; writes_failed = K.faults report.old; steps = steps.old })
            (record { left = E.left site.new; reads_failed = E.faults site.new; held = K.held report.new; writes_failed = K.faults report.new; steps = steps.new }) result }
        ensures posts { posts self.new.lanes ≡ posts self.old.lanes }
        ensures files { E.files site.new ≡ E.files site.old }
        ensures picks { E.picks site.new ≡ E.picks site.old }
        ensures made { E.made site.new ≡ E.made site.old }
        ensures wire_faults { E.wire_faults site.new ≡ E.wire_faults site.old }
    {
        let alloc = self.reading.alloc;
        let lanes = mem::replace(&mut self.lanes, Sequence::new(alloc));
        self.lanes = read_lines(
            rt,
            &self.turnstile,
            lanes,
            self.apart,
            &mut self.reading,
            site,
            report,
            steps,
        );
        let Some(end) = self.reading.end else {
            unreachable!()
        };
        end
    }

    /// Closes the board, whose passes tell one history alone, and writes the end of the report. It takes no memory but what the
    /// report takes.
    pub(crate) fn close<K: Sink>(self, end: End, report: &mut K) -> Done<W, S>
        ensures history { IsHistoryOf S.Machine.rules self.builder.pass self.lanes result.history.items }
        ensures only { (other : List (Entry S.Job S.Said)) → IsHistoryOf S.Machine.rules self.builder.pass self.lanes other → other ≡ result.history.items }
        ensures spent { self.builder.pass.spent ≡ true → result.spent ≡ true }
        ensures open { result.spent ≡ true → (root : S.Opening) → self.builder.pass.root ≡ Some root → MayGoOn S.Machine.rules root result.history.items }
        ensures wires { result.wires.items ≡ map (λ lane. lane.wire) self.lanes }
        ensures made_for { map W.made_for result.wires.items ≡ map (λ lane. lane.made_for) self.lanes }
        ensures kept { AreKept S.Machine.rules W.sessions W.begun W.faults self.lanes }
        ensures finished { IsFinished self.builder.names (losses_from 0 (all_losses 0 (length self.lanes) result.history.items)) self.builder.tally.accepted self.builder.tally.refused
            (K.held report.old) (K.held report.new) (Rose (K.faults report.old) (K.faults report.new)) end (list_any (λ lane. lane.unnoted) self.lanes) result.status }
        ensures faults { K.faults report.old ≤ K.faults report.new }
    {
        let Run {
            turnstile,
            reading,
            lanes,
            peers,
            apart: _,
            mut wires,
            mut passes,
        } = self;
        let Reading {
            alloc,
            builder,
            first: _,
            end: _,
        } = reading;
        let tally = builder.tally();
        let (pass, names) = builder.into_parts();
        let unnoted = part(lanes, &mut wires, &mut passes);
        put(&mut passes, pass);
        let board = turnstile.close(passes);
        let spent = board.is_spent();
        let (machine, history) = board.into_parts();
        let outcome = Outcome {
            end,
            tally,
            unnoted,
        };
        let status = finish(alloc, names.as_slice(), peers, outcome, &history, report);
        Done {
            status,
            wires,
            history,
            machine: Some(machine),
            spent,
        }
    }
}

/// Reads the file beside the lanes, and hands them back once they have stopped. Where there is no memory for a crew of
/// them the work is ended before anything is read.
fn read_lines<S: Speaker, R: Threads + Wait + Sync, W: Wire, E: Source, K: Sink, L: Ledger>(
    rt: &R,
    turnstile: &Turnstile<Board<S>>,
    lanes: LaneList<W, S>,
    apart: bool,
    reading: &mut Reading<S>,
    source: &mut E,
    report: &mut K,
    steps: &mut Steps<L>,
) -> LaneList<W, S>
    requires here { reading.old.builder.pass.turnstile ≡ turnstile.now.id }
    requires lanes { AreHere turnstile.now.id (posts lanes.items) }
    requires form { AreEvents (map event_of reading.old.first.items) }
    ensures ended { IsRead S.Machine.rules S.speech (first_of reading.old.first.items) reading.old.builder reading.new.builder
        (record { left = E.left source.old; reads_failed = E.faults source.old; held = K.held report.old; writes_failed = K.faults report.old; steps = steps.old })
        (record { left = E.left source.new; reads_failed = E.faults source.new; held = K.held report.new; writes_failed = K.faults report.new; steps = steps.new }) reading.new.end }
    ensures posts { posts result.items ≡ posts lanes.items }
    ensures files { E.files source.new ≡ E.files source.old }
    ensures picks { E.picks source.new ≡ E.picks source.old }
    ensures made { E.made source.new ≡ E.made source.old }
    ensures wire_faults { E.wire_faults source.new ≡ E.wire_faults source.old }
{
    match Crew::new(reading.alloc, lanes) {
        Ok(crew) => read_beside(rt, turnstile, crew, apart, reading, source, report, steps),
        Err(lanes) => {
            reading.give_up(rt, turnstile, steps);
            lanes
        }
    }
}

/// An empty list with room for so many items.
fn list_for<T: Drop>(alloc: Global, count: usize) -> Result<Sequence<T>, NoMemory>
    ensures none { IfOk result (λ list. list.items ≡ []) }
    ensures room { IfOk result (λ list. count ≤ list.spare) }
{
    let mut list = Sequence::new(alloc);
    list.reserve(count)?;
    Ok(list)
}

/// A turnstile round a board that begins in this world, the pass of its builder, and those of its peers.
fn deal<S: Speaker>(
    alloc: Global,
    world: World,
) -> Result<(Turnstile<Board<S>>, Pass<Board<S>>, PassList<Board<S>>), NoMemory>
    requires { IsOpening world }
    ensures { IfOk result (λ dealt. AreDealt S.speech world dealt.0 dealt.1 dealt.2.items) }
{
    let peers = world.peers();
    let board = board_over(alloc, world)?;
    let Ok((turnstile, mut passes)) = Turnstile::new(alloc, board, peers + 1) else {
        return Err(NoMemory);
    };
    let builder = passes.remove(0);
    Ok((turnstile, builder, passes))
}

/// A board over a speaker that begins with this world.
fn board_over<S: Speaker>(alloc: Global, world: World) -> Result<Board<S>, NoMemory>
    requires { IsOpening world }
    ensures fresh { IfOk result (λ board. board ≡ fresh_board board.opening) }
    ensures first { IfOk result (λ board. S.speech.first board.opening ≡ world) }
{
    let Ok(speaker) = S::begin_with(alloc, world) else {
        return Err(NoMemory);
    };
    match Board::new(alloc, speaker) {
        Ok(board) => Ok(board),
        Err(_speaker) => Err(NoMemory),
    }
}
