//! The top call.

ghost use Rattle.std.specs.Prelude.{◌≡◌, ◌<◌, ◌+◌, ℕ, List, Option, [], map, true, false, Some, Ok, IfOk, ◌↔◌};
ghost use Rattle.std.specs.String.{string_bytes};
ghost use Rattle.ug_types.specs.declared.key.Key as keys;
ghost use Rattle.ug_edge.specs.Told.{Rose, IsEnded, AppendsAll, FileText, file_told, Missing};
ghost use Rattle.ug_events.specs.Views.{event_of};
ghost use Rattle.ug_speaker.specs.Owes.{AreEvents};
ghost use Rattle.ug_report.specs.Report.{names_in};
ghost use Rattle.ug_config.specs.One.{one_world};
ghost use Rattle.ug_commands.specs.Words.{OneCommand, RunCommand, CheckCommand, GroupsCommand, SelfRunCommand, AuditCommand, One, Run, Check, Groups, SelfRun, Audit, command_of, is_command};
ghost use Rattle.ug_event_loop.specs.Reading.{first_of};
ghost use Rattle.ug_run.specs.Wires.{AreMadeFor};
ghost use Rattle.ug_report.specs.Statuses.{row_of, status_text};
ghost use Rattle.ug_commands.specs.Files.{AppendsThenStatus, PicksJust};
ghost use Rattle.ug_commands.specs.Checked.{IsChecked};
ghost use Rattle.ug_commands.specs.Listed.{IsListed};
ghost use Rattle.ug_audit.specs.Auditing.{IsAuditing};
ghost use Rattle.ug_audit.specs.Right.{AreRight};
ghost use Rattle.ug_run.specs.Promise.{IsCounted};
ghost use Rattle.ug_run.specs.Commands.{up_p1, is_fed, IsOne, IsRunOf, IsCountedRun};
ghost use Rattle.ug_run.specs.Drawn.{drawn_world, IsSelfRun};

use crate::course::{Done, Plan, run_over};
use crate::drawn::selfrun;
use crate::setup::{configure, end_unset};
use std::alloc::Global;
use std::sync::Wait;
use std::sync::ledger::Ledger;
use std::thread::Threads;
use ug_audit::audit;
use ug_commands::{
    Command, OneWords, RunWords, check, configurations_open, end, groups, one_opens, read_command,
};
use ug_config::one_world;
use ug_edge::{Sink, Site};
use ug_event_loop::Grammar;
use ug_events::Event;
use ug_report::Status;
use ug_speaker::Speaker;
use ug_types::{Name, NoMemory, Sequence, Steps};

/// Runs the command that the words are, the first of them its name.
///
/// `one EVENTS DIR` and `run CONFIG EVENTS DIR [--workers 0 or 1]` read the file EVENTS of the site, tell the neighbours
/// of a world what they are owed, each over a wire that the site makes for DIR, and write the report: `one` over a fixed
/// world whose peer is up, and with the verbs of routes alone, `run` over the world of the file CONFIG. What they promise is
/// `one` and `run` below: *Whatever events are accepted and however builder and senders interleave, each session's bytes
/// are UPDATE and refresh-mark messages, cut only by a wire's fault; after each message every route stands as that peer's
/// private table held it at some version of the session, never going back; at every sync, and at the end for live
/// sessions, the whole table is the private one.*
///
/// `check [--add-path] [--extended] [--ipv6] STREAM` reads the bytes of a session and reports what they leave at the
/// receiver. `groups CONFIG` lists the groups of a configuration's peers. `selfrun NUMBER` runs over a world and events
/// that are drawn from that number, with workers, over wires in memory: it reports how many events were accepted and
/// refused, and for each peer that it is down, or the size of its private table in the last world, which its wire's bytes
/// leave. `audit CONFIG EVENTS REPORT DIR` judges the sessions that a run left in DIR, and reports how each climbs, or the
/// first breach. Words that are no command are `Usage`, and leave the site unread.
///
/// `ReadFault`, `ReportFault` and `SiteFault` come only where that count of faults rose, `Config` exactly where the
/// configuration is refused, `TooLong` only past a limit of a file, `Lost` only where a wire failed, and `Malformed` exactly
/// where the stream's first fault is that one; running out of memory can end a run at any point. `Refuted` comes
/// exactly where that session is the first that isn't right, and `Unclear` where that line of a report is the first
/// that tells nothing clear.
pub fn serve<S: Speaker, R: Threads + Wait + Sync, E: Site, K: Sink, L: Ledger>(
    rt: &R,
    alloc: Global,
    words: &[String],
    site: &mut E,
    report: &mut K,
    steps: &mut Steps<L>,
) -> Done<E::Wire, S>
    ensures one { (command : OneCommand) → command_of (map string_bytes words.now) ≡ Some (One command) →
        IsOne S.Machine.rules S.speech command.events (record {
          before = record { files = E.files site.old; picks = E.picks site.old; made = E.made site.old; held = K.held report.old; faults = K.faults report.old };
          after = record { picks = E.picks site.new; left = E.left site.new; made = E.made site.new; held = K.held report.new; faults = K.faults report.new };
          status = result.status;
          wires = map (λ wire. record { sessions = E.Wire.sessions wire; faults = E.Wire.faults wire }) result.wires.items;
          made_for = map E.Wire.made_for result.wires.items;
          history = result.history.items;
          spent = result.spent;
        }) }
    ensures run { (command : RunCommand) → command_of (map string_bytes words.now) ≡ Some (Run command) →
        IsRunOf S.Machine.rules S.speech command (record {
          before = record { files = E.files site.old; picks = E.picks site.old; made = E.made site.old; held = K.held report.old; faults = K.faults report.old };
          after = record { picks = E.picks site.new; left = E.left site.new; made = E.made site.new; held = K.held report.new; faults = K.faults report.new };
          status = result.status;
          wires = map (λ wire. record { sessions = E.Wire.sessions wire; faults = E.Wire.faults wire }) result.wires.items;
          made_for = map E.Wire.made_for result.wires.items;
          history = result.history.items;
          spent = result.spent;
        }) }
    ensures checked { (command : CheckCommand) → command_of (map string_bytes words.now) ≡ Some (Check command) →
        IsChecked command (file_told (E.files site.old) command.stream) (E.picks site.new).is_open (E.left site.new) result.status (K.held report.old) (K.held report.new) (Rose (K.faults report.old) (K.faults report.new)) }
    ensures listed { (command : GroupsCommand) → command_of (map string_bytes words.now) ≡ Some (Groups command) →
        IsListed (file_told (E.files site.old) command.config) result.status (K.held report.old) (K.held report.new) (Rose (K.faults report.old) (K.faults report.new)) }
    ensures audited { (command : AuditCommand) → command_of (map string_bytes words.now) ≡ Some (Audit command) →
        IsAuditing command (file_told (E.files site.old)) (AppendsAll (E.picks site.old).names (E.picks site.new).names) result.status (K.held report.old) (K.held report.new) (Rose (K.faults report.old) (K.faults report.new)) }
    // Where an audit says that all is right, the files that the site tells are, and where it refutes a session they aren't.
    ensures audit_right { (command : AuditCommand) → command_of (map string_bytes words.now) ≡ Some (Audit command) → (told : List FileText) → E.files site.old ≡ Some told →
        result.status ≡ Status.Ok → AreRight command told }
    ensures audit_refuted { (command : AuditCommand) → command_of (map string_bytes words.now) ≡ Some (Audit command) → (told : List FileText) → E.files site.old ≡ Some told →
        (peer : ℕ) (session : ℕ) (kind : ℕ) (message : ℕ) (key : Option keys.Key) → result.status ≡ Status.Refuted peer session kind message key → AreRight command told → ⊥ }
    ensures drawn { (command : SelfRunCommand) → command_of (map string_bytes words.now) ≡ Some (SelfRun command) →
        IsSelfRun S.Machine.rules S.speech command.number result.status result.history.items result.spent (K.held report.old) (K.held report.new) (Rose (K.faults report.old) (K.faults report.new)) }
    // The runs of the outbound rules are counted.
    ensures one_counted { (command : OneCommand) → command_of (map string_bytes words.now) ≡ Some (One command) →
        IsCounted S.Machine.rules S.speech one_world (row_of result.status).completed result.history.items steps.old steps.new }
    ensures run_counted { (command : RunCommand) → command_of (map string_bytes words.now) ≡ Some (Run command) →
        IsCountedRun S.Machine.rules S.speech (file_told (E.files site.old) command.config) (row_of result.status).completed result.history.items steps.old steps.new }
    ensures drawn_counted { (command : SelfRunCommand) → command_of (map string_bytes words.now) ≡ Some (SelfRun command) →
        IsCounted S.Machine.rules S.speech drawn_world (row_of result.status).completed result.history.items steps.old steps.new }
    // A file that the site says is missing was read by nobody, and the status says so.
    ensures check_missing { (command : CheckCommand) → command_of (map string_bytes words.now) ≡ Some (Check command) →
        file_told (E.files site.old) command.stream ≡ Missing → (row_of result.status).may_be_unread ≡ true }
    ensures groups_missing { (command : GroupsCommand) → command_of (map string_bytes words.now) ≡ Some (Groups command) →
        file_told (E.files site.old) command.config ≡ Missing → (row_of result.status).may_be_unread ≡ true }
    ensures audit_missing { (command : AuditCommand) → command_of (map string_bytes words.now) ≡ Some (Audit command) →
        file_told (E.files site.old) command.config ≡ Missing → (row_of result.status).may_be_unread ≡ true }
    // A command without sessions picks its one file once. What `one` and `run` pick they promise themselves.
    ensures check_picked { (command : CheckCommand) → command_of (map string_bytes words.now) ≡ Some (Check command) →
        PicksJust (E.picks site.old).names (E.picks site.new).names command.stream result.status }
    ensures groups_picked { (command : GroupsCommand) → command_of (map string_bytes words.now) ≡ Some (Groups command) →
        PicksJust (E.picks site.old).names (E.picks site.new).names command.config result.status }
    // The wires given back are all that were made, each for the peer of its place, in the folder of the command.
    ensures one_made { (command : OneCommand) → command_of (map string_bytes words.now) ≡ Some (One command) →
        AreMadeFor (E.made site.old) (E.made site.new) command.dir (names_in one_world) (map E.Wire.made_for result.wires.items) }
    ensures check_unmade { (command : CheckCommand) → command_of (map string_bytes words.now) ≡ Some (Check command) → E.made site.new ≡ E.made site.old }
    ensures groups_unmade { (command : GroupsCommand) → command_of (map string_bytes words.now) ≡ Some (Groups command) → E.made site.new ≡ E.made site.old }
    ensures audit_unmade { (command : AuditCommand) → command_of (map string_bytes words.now) ≡ Some (Audit command) → E.made site.new ≡ E.made site.old }
    ensures check_idle { (command : CheckCommand) → command_of (map string_bytes words.now) ≡ Some (Check command) → (result.wires.items ≡ []) × (result.history.items ≡ []) × (result.spent ≡ false) × (steps.new ≡ steps.old) }
    ensures groups_idle { (command : GroupsCommand) → command_of (map string_bytes words.now) ≡ Some (Groups command) → (result.wires.items ≡ []) × (result.history.items ≡ []) × (result.spent ≡ false) × (steps.new ≡ steps.old) }
    ensures audit_idle { (command : AuditCommand) → command_of (map string_bytes words.now) ≡ Some (Audit command) → (result.wires.items ≡ []) × (result.history.items ≡ []) × (result.spent ≡ false) × (steps.new ≡ steps.old) }
    // `selfrun` leaves the site alone: nothing is read, and no wire is made.
    ensures drawn_alone { (command : SelfRunCommand) → command_of (map string_bytes words.now) ≡ Some (SelfRun command) → (site.new ≡ site.old) × (result.wires.items ≡ []) }
    // Words that are no command.
    ensures usage { (result.status ≡ Status.Usage) ↔ (is_command (map string_bytes words.now) ≡ false) }
    ensures no_command { is_command (map string_bytes words.now) ≡ false →
        AppendsThenStatus (K.held report.old) (K.held report.new) (Rose (K.faults report.old) (K.faults report.new)) [] (status_text Status.Usage) }
    ensures idle { is_command (map string_bytes words.now) ≡ false → (result.wires.items ≡ []) × (result.history.items ≡ []) × (result.spent ≡ false) × (steps.new ≡ steps.old) }
    ensures unmade { is_command (map string_bytes words.now) ≡ false → E.made site.new ≡ E.made site.old }
    ensures unread { is_command (map string_bytes words.now) ≡ false → E.left site.new ≡ E.left site.old }
    ensures unpicked { is_command (map string_bytes words.now) ≡ false → E.picks site.new ≡ E.picks site.old }
    // What a status says of the outside.
    ensures read { result.status ≡ Status.ReadFault → Rose (E.faults site.old) (E.faults site.new) }
    ensures unharmed { (result.status ≡ Status.ReadFault → ⊥) → E.faults site.new ≡ E.faults site.old }
    ensures report { result.status ≡ Status.ReportFault → Rose (K.faults report.old) (K.faults report.new) }
    ensures site { result.status ≡ Status.SiteFault → Rose (E.wire_faults site.old) (E.wire_faults site.new) }
    ensures all_wired { (result.status ≡ Status.SiteFault → ⊥) → E.wire_faults site.new ≡ E.wire_faults site.old }
    ensures ended { is_fed (command_of (map string_bytes words.now)) ≡ true → (row_of result.status).completed ≡ true → IsEnded (E.left site.new) }
{
    let command = match read_command(alloc, words) {
        Ok(Some(command)) => command,
        Ok(None) => return Done::idle(alloc, end(report, Status::Usage), Sequence::new(alloc)),
        Err(NoMemory) => return Done::idle(
            alloc,
            end(report, Status::NoMemory),
            Sequence::new(alloc),
        ),
    };
    match command {
        Command::One(words) => one(rt, alloc, &words, site, report, steps),
        Command::Run(words) => run(rt, alloc, &words, site, report, steps),
        Command::Check(words) => {
            let status = check(alloc, words.session, words.stream, site, report);
            Done::idle(alloc, status, Sequence::new(alloc))
        }
        Command::Groups(words) => {
            let status = groups(alloc, words.config, site, report);
            Done::idle(alloc, status, Sequence::new(alloc))
        }
        Command::SelfRun(words) => selfrun(rt, alloc, words.number, report, steps),
        Command::Audit(words) => {
            let status = audit(alloc, words, site, report);
            Done::idle(alloc, status, Sequence::new(alloc))
        }
    }
}

/// Runs `one`: over its fixed world, whose peer comes up before the first line, with every lane here.
fn one<S: Speaker, R: Threads + Wait + Sync, E: Site, K: Sink, L: Ledger>(
    rt: &R,
    alloc: Global,
    words: &OneWords<'_>,
    site: &mut E,
    report: &mut K,
    steps: &mut Steps<L>,
) -> Done<E::Wire, S>
    ensures promised { IsOne S.Machine.rules S.speech words.now.events.now (record {
      before = record { files = E.files site.old; picks = E.picks site.old; made = E.made site.old; held = K.held report.old; faults = K.faults report.old };
      after = record { picks = E.picks site.new; left = E.left site.new; made = E.made site.new; held = K.held report.new; faults = K.faults report.new };
      status = result.status;
      wires = map (λ wire. record { sessions = E.Wire.sessions wire; faults = E.Wire.faults wire }) result.wires.items;
      made_for = map E.Wire.made_for result.wires.items;
      history = result.history.items;
      spent = result.spent;
    }) }
    ensures made { AreMadeFor (E.made site.old) (E.made site.new) words.now.dir.now (names_in one_world) (map E.Wire.made_for result.wires.items) }
    ensures read { result.status ≡ Status.ReadFault → Rose (E.faults site.old) (E.faults site.new) }
    ensures unharmed { (result.status ≡ Status.ReadFault → ⊥) → E.faults site.new ≡ E.faults site.old }
    ensures report { result.status ≡ Status.ReportFault → Rose (K.faults report.old) (K.faults report.new) }
    ensures site { result.status ≡ Status.SiteFault → Rose (E.wire_faults site.old) (E.wire_faults site.new) }
    ensures all_wired { (result.status ≡ Status.SiteFault → ⊥) → E.wire_faults site.new ≡ E.wire_faults site.old }
    ensures ended { (row_of result.status).completed ≡ true → IsEnded (E.left site.new) }
    ensures usage { result.status ≡ Status.Usage → ⊥ }
    ensures counted { IsCounted S.Machine.rules S.speech one_world (row_of result.status).completed result.history.items steps.old steps.new }
{
    one_opens();
    let Ok(world) = one_world(alloc) else {
        return Done::idle(alloc, end(report, Status::NoMemory), Sequence::new(alloc));
    };
    let Ok(first) = up_p1(alloc) else {
        return Done::idle(alloc, end(report, Status::NoMemory), Sequence::new(alloc));
    };
    let plan = Plan {
        world,
        grammar: Grammar::Routes,
        first,
        apart: false,
    };
    run_over(
        rt,
        alloc,
        plan,
        words.events,
        words.dir,
        site,
        report,
        steps,
    )
}

/// The event that p1 comes up, alone.
fn up_p1(alloc: Global) -> Result<Vec<Event>, NoMemory>
    ensures events { IfOk result (λ events. first_of events.items ≡ up_p1) }
    ensures form { IfOk result (λ events. AreEvents (map event_of events.items)) }
{
    let Some(peer) = Name::read(alloc, b"p1")? else {
        unreachable!()
    };
    let mut events = Vec::new(alloc);
    events.push(Event::Up { peer })?;
    Ok(events)
}

/// Runs `run`: over the world of its configuration.
fn run<S: Speaker, R: Threads + Wait + Sync, E: Site, K: Sink, L: Ledger>(
    rt: &R,
    alloc: Global,
    words: &RunWords<'_>,
    site: &mut E,
    report: &mut K,
    steps: &mut Steps<L>,
) -> Done<E::Wire, S>
    ensures promised { IsRunOf S.Machine.rules S.speech (record { config = words.now.config.now; events = words.now.events.now; dir = words.now.dir.now; apart = words.now.apart }) (record {
      before = record { files = E.files site.old; picks = E.picks site.old; made = E.made site.old; held = K.held report.old; faults = K.faults report.old };
      after = record { picks = E.picks site.new; left = E.left site.new; made = E.made site.new; held = K.held report.new; faults = K.faults report.new };
      status = result.status;
      wires = map (λ wire. record { sessions = E.Wire.sessions wire; faults = E.Wire.faults wire }) result.wires.items;
      made_for = map E.Wire.made_for result.wires.items;
      history = result.history.items;
      spent = result.spent;
    }) }
    ensures read { result.status ≡ Status.ReadFault → Rose (E.faults site.old) (E.faults site.new) }
    ensures unharmed { (result.status ≡ Status.ReadFault → ⊥) → E.faults site.new ≡ E.faults site.old }
    ensures report { result.status ≡ Status.ReportFault → Rose (K.faults report.old) (K.faults report.new) }
    ensures site { result.status ≡ Status.SiteFault → Rose (E.wire_faults site.old) (E.wire_faults site.new) }
    ensures all_wired { (result.status ≡ Status.SiteFault → ⊥) → E.wire_faults site.new ≡ E.wire_faults site.old }
    ensures ended { (row_of result.status).completed ≡ true → IsEnded (E.left site.new) }
    ensures usage { result.status ≡ Status.Usage → ⊥ }
    ensures counted { IsCountedRun S.Machine.rules S.speech (file_told (E.files site.old) words.now.config.now) (row_of result.status).completed result.history.items steps.old steps.new }
{
    configurations_open();
    let world = match configure(alloc, words.config, site) {
        Ok(world) => world,
        Err(stop) => {
            let status = end_unset(alloc, stop, report);
            return Done::idle(alloc, status, Sequence::new(alloc));
        }
    };
    let plan = Plan {
        world,
        grammar: Grammar::Every,
        first: Vec::new(alloc),
        apart: words.apart,
    };
    run_over(
        rt,
        alloc,
        plan,
        words.events,
        words.dir,
        site,
        report,
        steps,
    )
}
