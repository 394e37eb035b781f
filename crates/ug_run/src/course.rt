//! A run over a world: its wires are made, the file of events is read beside the lanes, and everything comes back.

ghost use Rattle.std.specs.Prelude.{◌≡◌, ◌≤◌, [], map, take, length, true, false, IfOk, IfErr, OnOk, IsErrOf};
ghost use Rattle.ug_edge.specs.Told.{Rose, IsEnded};
ghost use Rattle.ug_events.specs.Views.{event_of};
ghost use Rattle.ug_world.specs.World.{World};
ghost use Rattle.ug_speaker.specs.Owes.{IsOpening, AreEvents};
ghost use Rattle.ug_report.specs.Report.{names_in};
ghost use Rattle.ug_event_loop.specs.Reading.{first_of};
ghost use Rattle.ug_run.specs.Wires.{AreNewWires, HasMade, AreMadeFor, wire_name};
ghost use Rattle.ug_report.specs.Statuses.{row_of, is_fixed};
ghost use Rattle.ug_run.specs.Promise.{IsPromised, IsUnmade, IsCounted};

use crate::run::Run;
use crate::wires::{Unmade, WireList, make_wires, names_of};
use std::alloc::Global;
use std::sync::Wait;
use std::sync::ledger::Ledger;
use std::thread::Threads;
use ug_board::{History, HistoryList};
use ug_commands::{end, pick};
use ug_edge::{Sink, Site, Wire};
use ug_event_loop::Grammar;
use ug_events::Event;
use ug_report::Status;
use ug_speaker::Speaker;
use ug_types::{NameList, NoMemory, Sequence, Steps};
use ug_world::World;

/// How a run ended, the wires that were made for it, in configured order, what was done, step by step, the machine of its
/// board, if there was one, and whether that board was spent: memory ran out in the midst of a job, and no further job could be
/// done. The machine is given back so that whoever ends then needn't take it apart.
#[derive(Drop)]
pub struct Done<W: Wire, S: Speaker> {
    pub status: Status,
    pub wires: WireList<W>,
    pub history: HistoryList<S>,
    pub machine: Option<Box<S>>,
    pub spent: bool,
}

impl<W: Wire, S: Speaker> Done<W, S> {
    /// How a run ended that did nothing.
    pub(crate) fn idle(alloc: Global, status: Status, wires: WireList<W>) -> Done<W, S>
        ensures status { result.status ≡ status }
        ensures wires { result.wires.items ≡ wires.items }
        ensures history { result.history.items ≡ [] }
        ensures unspent { result.spent ≡ false }
    {
        Done {
            status,
            wires,
            history: History::new(alloc),
            machine: None,
            spent: false,
        }
    }
}

/// What a run is over: a world, the verbs that its lines may have, the events before the first line, and whether each
/// lane works in a thread of its own.
#[derive(Drop)]
pub(crate) struct Plan {
    pub(crate) world: World,
    pub(crate) grammar: Grammar,
    pub(crate) first: Vec<Event>,
    pub(crate) apart: bool,
}

/// Runs over a world: the file of events is that of the name, and the wires are made in the folder.
pub(crate) fn run_over<S: Speaker, R: Threads + Wait + Sync, E: Site, K: Sink, L: Ledger>(
    rt: &R,
    alloc: Global,
    plan: Plan,
    events: &str,
    dir: &str,
    site: &mut E,
    report: &mut K,
    steps: &mut Steps<L>,
) -> Done<E::Wire, S>
    requires opening { IsOpening plan.world }
    requires form { AreEvents (map event_of plan.first.items) }
    ensures promised { IsPromised S.Machine.rules S.speech plan.world plan.grammar (first_of plan.first.items) events.now (record {
      before = record { files = E.files site.old; picks = E.picks site.old; made = E.made site.old; held = K.held report.old; faults = K.faults report.old };
      after = record { picks = E.picks site.new; left = E.left site.new; made = E.made site.new; held = K.held report.new; faults = K.faults report.new };
      status = result.status;
      wires = map (λ wire. record { sessions = E.Wire.sessions wire; faults = E.Wire.faults wire }) result.wires.items;
      made_for = map E.Wire.made_for result.wires.items;
      history = result.history.items;
      spent = result.spent;
    }) }
    ensures made { AreMadeFor (E.made site.old) (E.made site.new) dir.now (names_in plan.world) (map E.Wire.made_for result.wires.items) }
    ensures read { result.status ≡ Status.ReadFault → Rose (E.faults site.old) (E.faults site.new) }
    ensures unharmed { (result.status ≡ Status.ReadFault → ⊥) → E.faults site.new ≡ E.faults site.old }
    ensures report { result.status ≡ Status.ReportFault → Rose (K.faults report.old) (K.faults report.new) }
    ensures site { result.status ≡ Status.SiteFault → Rose (E.wire_faults site.old) (E.wire_faults site.new) }
    ensures all_wired { (result.status ≡ Status.SiteFault → ⊥) → E.wire_faults site.new ≡ E.wire_faults site.old }
    ensures ended { (row_of result.status).completed ≡ true → IsEnded (E.left site.new) }
    ensures faults { E.faults site.old ≤ E.faults site.new }
    ensures counted { IsCounted S.Machine.rules S.speech plan.world (row_of result.status).completed result.history.items steps.old steps.new }
{
    let mut wires = Sequence::new(alloc);
    let names = match prepare(alloc, &plan.world, dir, &mut wires, site) {
        Ok(names) => names,
        Err(status) => return Done::idle(alloc, end(report, status), wires),
    };
    match pick(events, site) {
        Ok(()) => {}
        Err(status) => return Done::idle(alloc, end(report, status), wires),
    }
    let mut run = match Run::begin(alloc, plan, names, wires) {
        Ok(run) => run,
        Err(wires) => return Done::idle(alloc, end(report, Status::NoMemory), wires),
    };
    let ending = run.read(rt, site, report, steps);
    run.close(ending, report)
}

/// Makes the wires of a run, and answers the names of its peers.
fn prepare<E: Site>(
    alloc: Global,
    world: &World,
    dir: &str,
    wires: &mut WireList<E::Wire>,
    site: &mut E,
) -> Result<NameList, Status>
    requires none { wires.old.items ≡ [] }
    ensures names { IfOk result (λ names. names.items ≡ names_in world.now) }
    ensures all { OnOk result (length wires.new.items ≡ length world.now.peers) }
    ensures most { length wires.new.items ≤ length world.now.peers }
    ensures fresh { AreNewWires E.Wire.sessions E.Wire.begun E.Wire.faults wires.new.items }
    ensures made { HasMade (E.made site.old) (E.made site.new) dir.now (take (length wires.new.items) (names_in world.now)) }
    ensures made_for { map E.Wire.made_for wires.new.items ≡ map (wire_name dir.now) (take (length wires.new.items) (names_in world.now)) }
    ensures status { IfErr result IsUnmade }
    ensures fixed { IfErr result (λ status. is_fixed status ≡ true) }
    ensures failed { IsErrOf result Status.SiteFault → Rose (E.wire_faults site.old) (E.wire_faults site.new) }
    ensures unharmed { (IsErrOf result Status.SiteFault → ⊥) → E.wire_faults site.new ≡ E.wire_faults site.old }
    ensures wire_faults { E.wire_faults site.old ≤ E.wire_faults site.new }
    ensures left { E.left site.new ≡ E.left site.old }
    ensures picks { E.picks site.new ≡ E.picks site.old }
    ensures faults { E.faults site.new ≡ E.faults site.old }
    ensures files { E.files site.new ≡ E.files site.old }
{
    let Ok(names) = names_of(alloc, world) else {
        return Err(Status::NoMemory);
    };
    match wires.reserve(names.len()) {
        Ok(()) => {}
        Err(NoMemory) => return Err(Status::NoMemory),
    }
    match make_wires(dir, names.as_slice(), wires, site) {
        Ok(()) => Ok(names),
        Err(Unmade::Failed) => Err(Status::SiteFault),
        Err(Unmade::NoMemory) => Err(Status::NoMemory),
    }
}
