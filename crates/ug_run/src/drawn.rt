//! `selfrun`: a run over a drawn workload, beside workers, over wires in memory.

ghost use Rattle.std.specs.Prelude.{◌≡◌, [], ◌∷◌, map, Some, IfOk};
ghost use Rattle.ug_edge.specs.SiteState.{fresh_site};
ghost use Rattle.ug_edge.specs.Told.{Rose, Bytes, file_told};
ghost use Rattle.ug_events.specs.Views.{event_of};
ghost use Rattle.ug_world.specs.Worlds.{last_world};
ghost use Rattle.ug_report.specs.Report.{accepted_count, refused_count};
ghost use Rattle.ug_report.specs.Statuses.{row_of};
ghost use Rattle.ug_selfrun.specs.Lines.{lines_of};
ghost use Rattle.ug_selfrun.specs.Standings.{HoldTables};
ghost use Rattle.ug_run.specs.Promise.{IsCounted};
ghost use Rattle.ug_run.specs.Drawn.{drawn_world, drawn_events, IsSummed, IsSelfRun};

use crate::course::{Done, Plan, run_over};
use std::alloc::Global;
use std::sync::Wait;
use std::sync::ledger::Ledger;
use std::thread::Threads;
use ug_commands::end;
use ug_edge::{Failed, File, MemSink, MemSite, MemWire, Sink, Wire};
use ug_event_loop::Grammar;
use ug_events::Event;
use ug_pieces::write_all;
use ug_report::Status;
use ug_selfrun::{Made, Replayed, make, replay, summary, workload_laws};
use ug_speaker::Speaker;
use ug_types::{NoMemory, Sequence, Steps};
use ug_world::World;

/// The number of the peers, and of the events after they came up.
const PEERS: u32 = 6;

const EVENTS: u32 = 4000;

/// Runs over the workload of a number, all of whose events come before the first line of an empty file, and reports what it
/// came to. Its wires are its own, and no call of theirs is to fail; so where one did, memory ran out.
pub(crate) fn selfrun<S: Speaker, R: Threads + Wait + Sync, W: Wire, K: Sink, L: Ledger>(
    rt: &R,
    alloc: Global,
    number: u64,
    report: &mut K,
    steps: &mut Steps<L>,
) -> Done<W, S>
    ensures drawn { IsSelfRun S.Machine.rules S.speech number result.status result.history.items result.spent (K.held report.old) (K.held report.new) (Rose (K.faults report.old) (K.faults report.new)) }
    ensures counted { IsCounted S.Machine.rules S.speech drawn_world (row_of result.status).completed result.history.items steps.old steps.new }
    ensures wires { result.wires.items ≡ [] }
    ensures report { result.status ≡ Status.ReportFault → Rose (K.faults report.old) (K.faults report.new) }
    // It comes to nothing of the outside, and never to `Usage`.
    ensures usage { result.status ≡ Status.Usage → ⊥ }
    ensures unread { result.status ≡ Status.ReadFault → ⊥ }
    ensures unwired { result.status ≡ Status.SiteFault → ⊥ }
{
    workload_laws();
    let Ok(drawn) = draw(alloc, number) else {
        return Done::idle(alloc, end(report, Status::NoMemory), Sequence::new(alloc));
    };
    let Drawn {
        world,
        events,
        last,
        mut site,
    } = drawn;
    let plan = Plan {
        world,
        grammar: Grammar::Every,
        first: events,
        apart: true,
    };
    let mut unread = MemSink::new(alloc, Sequence::new(alloc));
    let done: Done<MemWire, S> = run_over(rt, alloc, plan, "", "", &mut site, &mut unread, steps);
    let Done {
        status,
        wires,
        history,
        machine,
        spent,
    } = done;
    Done {
        status: end_drawn(alloc, number, &last, status, wires.as_slice(), report),
        wires: Sequence::new(alloc),
        history,
        machine,
        spent,
    }
}

/// The workload of a number, where its events lead, and a site with an empty file.
#[derive(Drop)]
struct Drawn {
    world: World,
    events: Vec<Event>,
    last: Replayed,
    site: MemSite,
}

fn draw(alloc: Global, number: u64) -> Result<Drawn, NoMemory>
    ensures world { IfOk result (λ drawn. drawn.world ≡ drawn_world) }
    ensures events { IfOk result (λ drawn. map event_of drawn.events.items ≡ drawn_events number) }
    ensures last { IfOk result (λ drawn. drawn.last.world ≡ last_world drawn_world (lines_of (drawn_events number))) }
    ensures accepted { IfOk result (λ drawn. drawn.last.accepted ≡ accepted_count drawn_world (lines_of (drawn_events number))) }
    ensures refused { IfOk result (λ drawn. drawn.last.refused ≡ refused_count drawn_world (lines_of (drawn_events number))) }
    ensures site { IfOk result (λ drawn. file_told (Some drawn.site.files) [] ≡ Bytes []) }
    ensures unfailing { IfOk result (λ drawn. drawn.site ≡ fresh_site (record { name = []; bytes = [] } ∷ []) [] []) }
{
    workload_laws();
    let Made { world, events } = make(alloc, number, PEERS, EVENTS)?;
    let Made {
        world: again,
        events: _,
    } = make(alloc, number, PEERS, 0)?;
    let last = replay(alloc, again, events.as_slice())?;
    Ok(Drawn {
        world,
        events: events.into_vec(),
        last,
        site: empty_site(alloc)?,
    })
}

/// A site with an empty file that has an empty name, and no call of which is to fail.
fn empty_site(alloc: Global) -> Result<MemSite, NoMemory>
    ensures site { IfOk result (λ site. file_told (Some site.files) [] ≡ Bytes []) }
    ensures unfailing { IfOk result (λ site. site ≡ fresh_site (record { name = []; bytes = [] } ∷ []) [] []) }
{
    let mut files = Vec::new(alloc);
    files.push(File {
        name: Sequence::new(alloc),
        bytes: Sequence::new(alloc),
    })?;
    MemSite::new(
        alloc,
        Sequence::from_vec(files),
        Sequence::new(alloc),
        Sequence::new(alloc),
    )
}

/// Ends a run that came to this status: where it is `Ok` with the summary, and else out of memory.
fn end_drawn<K: Sink>(
    alloc: Global,
    number: u64,
    last: &Replayed,
    status: Status,
    wires: &[MemWire],
    report: &mut K,
) -> Status
    requires { status ≡ Status.Ok → HoldTables last.now.world 0 last.now.world.peers (map (λ wire. wire.sessions) wires.now) }
    ensures summed { IsSummed number last.now.world last.now.accepted last.now.refused result (K.held report.old) (K.held report.new) (Rose (K.faults report.old) (K.faults report.new)) }
    ensures ran { (result ≡ Status.NoMemory → ⊥) → status ≡ Status.Ok }
{
    match status {
        Status::Ok => conclude(alloc, number, last, wires, report),
        _ => end(report, Status::NoMemory),
    }
}

/// Reports the summary.
fn conclude<K: Sink>(
    alloc: Global,
    number: u64,
    last: &Replayed,
    wires: &[MemWire],
    report: &mut K,
) -> Status
    requires { HoldTables last.now.world 0 last.now.world.peers (map (λ wire. wire.sessions) wires.now) }
    ensures { IsSummed number last.now.world last.now.accepted last.now.refused result (K.held report.old) (K.held report.new) (Rose (K.faults report.old) (K.faults report.new)) }
{
    let Ok(text) = summary(alloc, number, last, wires) else {
        return end(report, Status::NoMemory);
    };
    match write_all(report, text.as_bytes()) {
        Ok(()) => Status::Ok,
        Err(Failed) => Status::ReportFault,
    }
}
