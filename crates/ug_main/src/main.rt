//! The program: a run over the files of the system.
#![tactic(auto)]

ghost use Rattle.std.specs.Prelude.{◌≡◌, ◌<◌, ◌↔◌, ℕ, List, Option, drop, IfOk, IfErr, OnErr, Err, true, false, map, [], Some};
ghost use Rattle.std.specs.Process.{exit_status};
ghost use Rattle.std.specs.IoError.{error_kind};
ghost use Rattle.std.specs.String.{string_bytes};
ghost use Rattle.std.specs.Vec.Iter.{into_iter_items};
ghost use Rattle.ug_types.specs.declared.key.Key as keys;
ghost use Rattle.ug_edge.specs.Told.{Rose, IsEnded, AppendsAll, FileText, file_told, Missing};
ghost use Rattle.ug_report.specs.Report.{names_in};
ghost use Rattle.ug_config.specs.One.{one_world};
ghost use Rattle.ug_commands.specs.Words.{OneCommand, RunCommand, CheckCommand, GroupsCommand, SelfRunCommand, AuditCommand, One, Run, Check, Groups, SelfRun, Audit, command_of, is_command};
ghost use Rattle.ug_run.specs.Wires.{AreMadeFor};
ghost use Rattle.ug_report.specs.Statuses.{row_of, is_fixed, status_text};
ghost use Rattle.ug_commands.specs.Files.{AppendsThenStatus, PicksJust};
ghost use Rattle.ug_commands.specs.Checked.{IsChecked};
ghost use Rattle.ug_commands.specs.Listed.{IsListed};
ghost use Rattle.ug_audit.specs.Auditing.{IsAuditing};
ghost use Rattle.ug_audit.specs.Right.{AreRight};
ghost use Rattle.ug_run.specs.Commands.{has_sessions, is_fed, IsOne, IsRunOf};
ghost use Rattle.ug_run.specs.Drawn.{drawn_world, IsSelfRun};
ghost use Rattle.ug_group_rules.specs.Rules.{group_rules, group_speech};
ghost use Rattle.ug_main.specs.Counting.{CountsEvents, CountsRun};
ghost use Rattle.ug_main.specs.Ran.{Ran, IsOneRun, HasDrawn};

use std::alloc::Global;
use std::io::{self, ErrorKind};
use std::marker::Brand;
use std::mem::forget;
use std::process::ExitCode;
use std::rt::Files;
use std::sync::Wait;
use std::sync::ledger::{Blank, Ledger};
use std::thread::Threads;
use std::{env, fs};
use ug_commands::{command_in, end};
use ug_edge::{HostSite, Sink, Site, StdoutSink};
use ug_groups::Groups as UpdateGroups;
use ug_report::Status;
use ug_run::{Done, answer_alone, serve};
use ug_types::Steps;

/// Runs the command that the arguments are, over the files of the system, and ends with the number of its status.
fn main(rt: HostRuntime) -> ExitCode {
    let mut report = StdoutSink::new(rt);
    let words = match words_of(rt.alloc(), env::args(&rt)) {
        Ok(words) => words,
        Err(status) => return code_of(&end(&mut report, status)),
    };
    let _held = match may_run(&rt, words.as_slice()) {
        Ok(held) => held,
        Err(status) => return code_of(&end(&mut report, status)),
    };
    let mut site = HostSite::new(rt, rt.alloc());
    code_of(&answer(&rt, rt.alloc(), words.as_slice(), &mut site, &mut report))
}

/// The standard streams, held for a command; else what is the matter: words that are no command, whatever the streams are, or
/// that the streams can't be held.
fn may_run<R: Files>(rt: &R, words: &[String]) -> Result<Held<R::File>, Status>
    ensures usage { is_command (map string_bytes words.now) ≡ false → result ≡ Err Status.Usage }
    ensures unheld { is_command (map string_bytes words.now) ≡ true → OnErr result (result ≡ Err Status.ReadFault) }
{
    if command_in(words).is_none() {
        return Err(Status::Usage);
    }
    match hold_standard_streams(rt) {
        Ok(held) => Ok(held),
        Err(_) => Err(Status::ReadFault),
    }
}

/// What a process ends with whose run came to this status.
fn code_of(status: &Status) -> ExitCode
    ensures { exit_status result ≡ (row_of status.now).number }
{
    ExitCode::from(status.number())
}

/// Three files that stand where standard streams were closed, or behind the streams.
#[derive(Drop)]
struct Held<F> {
    _first: F,
    _second: F,
    _third: F,
}

/// Opens three files, which get the lowest descriptors that are free. While they are held no other file can stand at
/// that of a standard stream, and get what is meant for the report. The root folder can be opened everywhere, and takes
/// no bytes.
fn hold_standard_streams<R: Files>(rt: &R) -> io::Result<Held<R::File>> {
    Ok(Held {
        _first: fs::open(rt, "/")?,
        _second: fs::open(rt, "/")?,
        _third: fs::open(rt, "/")?,
    })
}

/// The arguments after the program's own name, as the system gave them. Ones that are no text are no command.
fn words_of(alloc: Global, args: io::Result<env::Args>) -> Result<Vec<String>, Status>
    ensures words { IfOk args (λ args. IfOk result (λ words. words.items ≡ drop 1 (into_iter_items args))) }
    ensures unkept { IfOk args (λ args. OnErr result (result ≡ Err Status.NoMemory)) }
    ensures starved { IfErr args (λ e. error_kind e ≡ ErrorKind.OutOfMemory → result ≡ Err Status.NoMemory) }
    ensures no_text { IfErr args (λ e. (error_kind e ≡ ErrorKind.OutOfMemory → ⊥) → result ≡ Err Status.Usage) }
    ensures fixed { IfErr result (λ status. is_fixed status ≡ true) }
{
    match args {
        Ok(args) => all_but_first(alloc, args),
        Err(e) => match e.kind() {
            ErrorKind::OutOfMemory => Err(Status::NoMemory),
            _ => Err(Status::Usage),
        },
    }
}

/// All arguments but the first, which is the program's own name.
fn all_but_first(alloc: Global, args: env::Args) -> Result<Vec<String>, Status>
    ensures words { IfOk result (λ words. words.items ≡ drop 1 (into_iter_items args)) }
    ensures starved { OnErr result (result ≡ Err Status.NoMemory) }
{
    let mut args = args;
    let _name = args.next();
    let mut words = Vec::new(alloc);
    for word in args {
        match words.push(word) {
            Ok(()) => {}
            Err(_) => return Err(Status::NoMemory),
        }
    }
    Ok(words)
}

/// Runs the command that the words are, once, and answers its status. A command without sessions is answered alone: no lane is
/// there, and nobody is waited for.
fn answer<R: Threads + Wait + Sync, E: Site, K: Sink>(
    rt: &R,
    alloc: Global,
    words: &[String],
    site: &mut E,
    report: &mut K,
) -> Status
    ensures one { (command : OneCommand) → command_of (map string_bytes words.now) ≡ Some (One command) →
        Ran (record { files = E.files site.old; picks = E.picks site.old; made = E.made site.old; held = K.held report.old; faults = K.faults report.old })
        (record { picks = E.picks site.new; left = E.left site.new; made = E.made site.new; held = K.held report.new; faults = K.faults report.new }) result (IsOneRun command) }
    ensures run { (command : RunCommand) → command_of (map string_bytes words.now) ≡ Some (Run command) →
        Ran (record { files = E.files site.old; picks = E.picks site.old; made = E.made site.old; held = K.held report.old; faults = K.faults report.old })
        (record { picks = E.picks site.new; left = E.left site.new; made = E.made site.new; held = K.held report.new; faults = K.faults report.new }) result (IsRunOf group_rules group_speech command) }
    ensures drawn { (command : SelfRunCommand) → command_of (map string_bytes words.now) ≡ Some (SelfRun command) →
        HasDrawn command.number result (K.held report.old) (K.held report.new) (Rose (K.faults report.old) (K.faults report.new)) }
    ensures checked { (command : CheckCommand) → command_of (map string_bytes words.now) ≡ Some (Check command) →
        IsChecked command (file_told (E.files site.old) command.stream) (E.picks site.new).is_open (E.left site.new) result (K.held report.old) (K.held report.new) (Rose (K.faults report.old) (K.faults report.new)) }
    ensures listed { (command : GroupsCommand) → command_of (map string_bytes words.now) ≡ Some (Groups command) →
        IsListed (file_told (E.files site.old) command.config) result (K.held report.old) (K.held report.new) (Rose (K.faults report.old) (K.faults report.new)) }
    ensures audited { (command : AuditCommand) → command_of (map string_bytes words.now) ≡ Some (Audit command) →
        IsAuditing command (file_told (E.files site.old)) (AppendsAll (E.picks site.old).names (E.picks site.new).names) result (K.held report.old) (K.held report.new) (Rose (K.faults report.old) (K.faults report.new)) }
    // Where an audit says that all is right, the files that the site tells are, and where it refutes a session they aren't.
    ensures audit_right { (command : AuditCommand) → command_of (map string_bytes words.now) ≡ Some (Audit command) → (told : List FileText) → E.files site.old ≡ Some told →
        result ≡ Status.Ok → AreRight command told }
    ensures audit_refuted { (command : AuditCommand) → command_of (map string_bytes words.now) ≡ Some (Audit command) → (told : List FileText) → E.files site.old ≡ Some told →
        (peer : ℕ) (session : ℕ) (kind : ℕ) (message : ℕ) (key : Option keys.Key) → result ≡ Status.Refuted peer session kind message key → AreRight command told → ⊥ }
    // A command without sessions picks its one file once, and where that is missing the status says so.
    ensures check_picked { (command : CheckCommand) → command_of (map string_bytes words.now) ≡ Some (Check command) →
        PicksJust (E.picks site.old).names (E.picks site.new).names command.stream result }
    ensures groups_picked { (command : GroupsCommand) → command_of (map string_bytes words.now) ≡ Some (Groups command) →
        PicksJust (E.picks site.old).names (E.picks site.new).names command.config result }
    ensures check_missing { (command : CheckCommand) → command_of (map string_bytes words.now) ≡ Some (Check command) →
        file_told (E.files site.old) command.stream ≡ Missing → (row_of result).may_be_unread ≡ true }
    ensures groups_missing { (command : GroupsCommand) → command_of (map string_bytes words.now) ≡ Some (Groups command) →
        file_told (E.files site.old) command.config ≡ Missing → (row_of result).may_be_unread ≡ true }
    ensures audit_missing { (command : AuditCommand) → command_of (map string_bytes words.now) ≡ Some (Audit command) →
        file_told (E.files site.old) command.config ≡ Missing → (row_of result).may_be_unread ≡ true }
    // `selfrun` and words that are no command leave the site alone, and no command but `one` and `run` makes a wire.
    ensures drawn_alone { (command : SelfRunCommand) → command_of (map string_bytes words.now) ≡ Some (SelfRun command) → site.new ≡ site.old }
    ensures usage { (result ≡ Status.Usage) ↔ (is_command (map string_bytes words.now) ≡ false) }
    ensures untouched { is_command (map string_bytes words.now) ≡ false → site.new ≡ site.old }
    ensures no_command { is_command (map string_bytes words.now) ≡ false →
        AppendsThenStatus (K.held report.old) (K.held report.new) (Rose (K.faults report.old) (K.faults report.new)) [] (status_text Status.Usage) }
    ensures unmade { has_sessions (command_of (map string_bytes words.now)) ≡ false → E.made site.new ≡ E.made site.old }
    // What a status says of the outside.
    ensures read { result ≡ Status.ReadFault → Rose (E.faults site.old) (E.faults site.new) }
    ensures unharmed { (result ≡ Status.ReadFault → ⊥) → E.faults site.new ≡ E.faults site.old }
    ensures report { result ≡ Status.ReportFault → Rose (K.faults report.old) (K.faults report.new) }
    ensures site { result ≡ Status.SiteFault → Rose (E.wire_faults site.old) (E.wire_faults site.new) }
    ensures all_wired { (result ≡ Status.SiteFault → ⊥) → E.wire_faults site.new ≡ E.wire_faults site.old }
    ensures ended { is_fed (command_of (map string_bytes words.now)) ≡ true → (row_of result).completed ≡ true → IsEnded (E.left site.new) }
{
    if let Some(status) = answer_alone(alloc, words, site, report) {
        return status;
    }
    begin::<Brand, R, E, K>(rt, alloc, words, site, report, Blank::new(1))
}

/// Runs a command with sessions, with a counter of its own, and answers its status. What `run` says of a status is said of this one.
///
/// The history and the machine aren't taken apart, of which the first alone took a twelfth of a run: the process ends behind them.
fn begin<L: Ledger, R: Threads + Wait + Sync, E: Site, K: Sink>(
    rt: &R,
    alloc: Global,
    words: &[String],
    site: &mut E,
    report: &mut K,
    blank: Blank,
) -> Status
    requires name { blank.name ≡ L.name }
    requires parts { blank.parts ≡ L.parts }
    requires some { 0 < blank.parts }
    ensures one { (command : OneCommand) → command_of (map string_bytes words.now) ≡ Some (One command) →
        Ran (record { files = E.files site.old; picks = E.picks site.old; made = E.made site.old; held = K.held report.old; faults = K.faults report.old })
        (record { picks = E.picks site.new; left = E.left site.new; made = E.made site.new; held = K.held report.new; faults = K.faults report.new }) result (IsOneRun command) }
    ensures run { (command : RunCommand) → command_of (map string_bytes words.now) ≡ Some (Run command) →
        Ran (record { files = E.files site.old; picks = E.picks site.old; made = E.made site.old; held = K.held report.old; faults = K.faults report.old })
        (record { picks = E.picks site.new; left = E.left site.new; made = E.made site.new; held = K.held report.new; faults = K.faults report.new }) result (IsRunOf group_rules group_speech command) }
    ensures drawn { (command : SelfRunCommand) → command_of (map string_bytes words.now) ≡ Some (SelfRun command) →
        HasDrawn command.number result (K.held report.old) (K.held report.new) (Rose (K.faults report.old) (K.faults report.new)) }
    ensures drawn_alone { (command : SelfRunCommand) → command_of (map string_bytes words.now) ≡ Some (SelfRun command) → site.new ≡ site.old }
    ensures usage { (result ≡ Status.Usage) ↔ (is_command (map string_bytes words.now) ≡ false) }
    ensures read { result ≡ Status.ReadFault → Rose (E.faults site.old) (E.faults site.new) }
    ensures unharmed { (result ≡ Status.ReadFault → ⊥) → E.faults site.new ≡ E.faults site.old }
    ensures report { result ≡ Status.ReportFault → Rose (K.faults report.old) (K.faults report.new) }
    ensures site { result ≡ Status.SiteFault → Rose (E.wire_faults site.old) (E.wire_faults site.new) }
    ensures all_wired { (result ≡ Status.SiteFault → ⊥) → E.wire_faults site.new ≡ E.wire_faults site.old }
    ensures ended { is_fed (command_of (map string_bytes words.now)) ≡ true → (row_of result).completed ≡ true → IsEnded (E.left site.new) }
{
    let mut steps = Steps::<L>::new(blank);
    let Done {
        status,
        history,
        machine,
        ..
    } = run(rt, alloc, words, site, report, &mut steps);
    forget(history);
    forget(machine);
    status
}

/// The run of the shipped program: `serve` over update groups. What it gives back, and what the site and the report came
/// to, is all that `serve` says of these.
///
/// An event is a legal job only where the machine is settled: no two subgroups may merge, no slow member has to move, and
/// after each `coalesce` events nothing is left to format but behind a full queue. The counter rises by the runs of the
/// outbound rules, once a group key and path, exactly.
fn run<R: Threads + Wait + Sync, E: Site, K: Sink, L: Ledger>(
    rt: &R,
    alloc: Global,
    words: &[String],
    site: &mut E,
    report: &mut K,
    steps: &mut Steps<L>,
) -> Done<E::Wire, UpdateGroups>
    ensures one { (command : OneCommand) → command_of (map string_bytes words.now) ≡ Some (One command) →
        IsOne group_rules group_speech command.events (record {
          before = record { files = E.files site.old; picks = E.picks site.old; made = E.made site.old; held = K.held report.old; faults = K.faults report.old };
          after = record { picks = E.picks site.new; left = E.left site.new; made = E.made site.new; held = K.held report.new; faults = K.faults report.new };
          status = result.status;
          wires = map (λ wire. record { sessions = E.Wire.sessions wire; faults = E.Wire.faults wire }) result.wires.items;
          made_for = map E.Wire.made_for result.wires.items;
          history = result.history.items;
          spent = result.spent;
        }) }
    ensures run { (command : RunCommand) → command_of (map string_bytes words.now) ≡ Some (Run command) →
        IsRunOf group_rules group_speech command (record {
          before = record { files = E.files site.old; picks = E.picks site.old; made = E.made site.old; held = K.held report.old; faults = K.faults report.old };
          after = record { picks = E.picks site.new; left = E.left site.new; made = E.made site.new; held = K.held report.new; faults = K.faults report.new };
          status = result.status;
          wires = map (λ wire. record { sessions = E.Wire.sessions wire; faults = E.Wire.faults wire }) result.wires.items;
          made_for = map E.Wire.made_for result.wires.items;
          history = result.history.items;
          spent = result.spent;
        }) }
    ensures checked { (command : CheckCommand) → command_of (map string_bytes words.now) ≡ Some (Check command) →
        IsChecked command (file_told (E.files site.old) command.stream) (E.picks site.new).is_open (E.left site.new) result.status (K.held report.old) (K.held report.new) (Rose (K.faults report.old) (K.faults report.new)) }
    ensures listed { (command : GroupsCommand) → command_of (map string_bytes words.now) ≡ Some (Groups command) →
        IsListed (file_told (E.files site.old) command.config) result.status (K.held report.old) (K.held report.new) (Rose (K.faults report.old) (K.faults report.new)) }
    ensures audited { (command : AuditCommand) → command_of (map string_bytes words.now) ≡ Some (Audit command) →
        IsAuditing command (file_told (E.files site.old)) (AppendsAll (E.picks site.old).names (E.picks site.new).names) result.status (K.held report.old) (K.held report.new) (Rose (K.faults report.old) (K.faults report.new)) }
    // Where an audit says that all is right, the files that the site tells are, and where it refutes a session they aren't.
    ensures audit_right { (command : AuditCommand) → command_of (map string_bytes words.now) ≡ Some (Audit command) → (told : List FileText) → E.files site.old ≡ Some told →
        result.status ≡ Status.Ok → AreRight command told }
    ensures audit_refuted { (command : AuditCommand) → command_of (map string_bytes words.now) ≡ Some (Audit command) → (told : List FileText) → E.files site.old ≡ Some told →
        (peer : ℕ) (session : ℕ) (kind : ℕ) (message : ℕ) (key : Option keys.Key) → result.status ≡ Status.Refuted peer session kind message key → AreRight command told → ⊥ }
    ensures drawn { (command : SelfRunCommand) → command_of (map string_bytes words.now) ≡ Some (SelfRun command) →
        IsSelfRun group_rules group_speech command.number result.status result.history.items result.spent (K.held report.old) (K.held report.new) (Rose (K.faults report.old) (K.faults report.new)) }
    // The runs of the outbound rules are counted.
    ensures one_counted { (command : OneCommand) → command_of (map string_bytes words.now) ≡ Some (One command) →
        CountsEvents one_world (row_of result.status).completed result.history.items steps.old steps.new }
    ensures run_counted { (command : RunCommand) → command_of (map string_bytes words.now) ≡ Some (Run command) →
        CountsRun (file_told (E.files site.old) command.config) (row_of result.status).completed result.history.items steps.old steps.new }
    ensures drawn_counted { (command : SelfRunCommand) → command_of (map string_bytes words.now) ≡ Some (SelfRun command) →
        CountsEvents drawn_world (row_of result.status).completed result.history.items steps.old steps.new }
    // A file that the site says is missing was read by nobody, and the status says so.
    ensures check_missing { (command : CheckCommand) → command_of (map string_bytes words.now) ≡ Some (Check command) →
        file_told (E.files site.old) command.stream ≡ Missing → (row_of result.status).may_be_unread ≡ true }
    ensures groups_missing { (command : GroupsCommand) → command_of (map string_bytes words.now) ≡ Some (Groups command) →
        file_told (E.files site.old) command.config ≡ Missing → (row_of result.status).may_be_unread ≡ true }
    ensures audit_missing { (command : AuditCommand) → command_of (map string_bytes words.now) ≡ Some (Audit command) →
        file_told (E.files site.old) command.config ≡ Missing → (row_of result.status).may_be_unread ≡ true }
    // A command without sessions picks its one file once. What `one` and `run` pick they promise themselves.
    ensures check_picked { (command : CheckCommand) → command_of (map string_bytes words.now) ≡ Some (Check command) →
        PicksJust (E.picks site.old).names (E.picks site.new).names command.stream result.status }
    ensures groups_picked { (command : GroupsCommand) → command_of (map string_bytes words.now) ≡ Some (Groups command) →
        PicksJust (E.picks site.old).names (E.picks site.new).names command.config result.status }
    // The wires given back are all that were made, each for the peer of its place, in the folder of the command.
    ensures one_made { (command : OneCommand) → command_of (map string_bytes words.now) ≡ Some (One command) →
        AreMadeFor (E.made site.old) (E.made site.new) command.dir (names_in one_world) (map E.Wire.made_for result.wires.items) }
    ensures check_unmade { (command : CheckCommand) → command_of (map string_bytes words.now) ≡ Some (Check command) → E.made site.new ≡ E.made site.old }
    ensures groups_unmade { (command : GroupsCommand) → command_of (map string_bytes words.now) ≡ Some (Groups command) → E.made site.new ≡ E.made site.old }
    ensures audit_unmade { (command : AuditCommand) → command_of (map string_bytes words.now) ≡ Some (Audit command) → E.made site.new ≡ E.made site.old }
    ensures check_idle { (command : CheckCommand) → command_of (map string_bytes words.now) ≡ Some (Check command) → (result.wires.items ≡ []) × (result.history.items ≡ []) × (result.spent ≡ false) × (steps.new ≡ steps.old) }
    ensures groups_idle { (command : GroupsCommand) → command_of (map string_bytes words.now) ≡ Some (Groups command) → (result.wires.items ≡ []) × (result.history.items ≡ []) × (result.spent ≡ false) × (steps.new ≡ steps.old) }
    ensures audit_idle { (command : AuditCommand) → command_of (map string_bytes words.now) ≡ Some (Audit command) → (result.wires.items ≡ []) × (result.history.items ≡ []) × (result.spent ≡ false) × (steps.new ≡ steps.old) }
    // `selfrun` leaves the site alone: nothing is read, and no wire is made.
    ensures drawn_alone { (command : SelfRunCommand) → command_of (map string_bytes words.now) ≡ Some (SelfRun command) → (site.new ≡ site.old) × (result.wires.items ≡ []) }
    // Words that are no command.
    ensures usage { (result.status ≡ Status.Usage) ↔ (is_command (map string_bytes words.now) ≡ false) }
    ensures no_command { is_command (map string_bytes words.now) ≡ false →
        AppendsThenStatus (K.held report.old) (K.held report.new) (Rose (K.faults report.old) (K.faults report.new)) [] (status_text Status.Usage) }
    ensures idle { is_command (map string_bytes words.now) ≡ false → (result.wires.items ≡ []) × (result.history.items ≡ []) × (result.spent ≡ false) × (steps.new ≡ steps.old) }
    ensures unmade { is_command (map string_bytes words.now) ≡ false → E.made site.new ≡ E.made site.old }
    ensures unread { is_command (map string_bytes words.now) ≡ false → E.left site.new ≡ E.left site.old }
    ensures unpicked { is_command (map string_bytes words.now) ≡ false → E.picks site.new ≡ E.picks site.old }
    // What a status says of the outside.
    ensures read { result.status ≡ Status.ReadFault → Rose (E.faults site.old) (E.faults site.new) }
    ensures unharmed { (result.status ≡ Status.ReadFault → ⊥) → E.faults site.new ≡ E.faults site.old }
    ensures report { result.status ≡ Status.ReportFault → Rose (K.faults report.old) (K.faults report.new) }
    ensures site { result.status ≡ Status.SiteFault → Rose (E.wire_faults site.old) (E.wire_faults site.new) }
    ensures all_wired { (result.status ≡ Status.SiteFault → ⊥) → E.wire_faults site.new ≡ E.wire_faults site.old }
    ensures ended { is_fed (command_of (map string_bytes words.now)) ≡ true → (row_of result.status).completed ≡ true → IsEnded (E.left site.new) }
{
    serve::<UpdateGroups, R, E, K, L>(rt, alloc, words, site, report, steps)
}
