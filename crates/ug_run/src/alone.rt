//! The words that need no lanes: `check`, `groups`, `audit`, and those that are no command.

ghost use Rattle.std.specs.Prelude.{◌≡◌, ◌↔◌, ℕ, List, Option, [], map, true, false, Some, None, IfSome, IfNone};
ghost use Rattle.std.specs.String.{string_bytes};
ghost use Rattle.ug_types.specs.declared.key.Key as keys;
ghost use Rattle.ug_edge.specs.Told.{Rose, IsEnded, AppendsAll, FileText, file_told, Missing};
ghost use Rattle.ug_commands.specs.Words.{CheckCommand, GroupsCommand, AuditCommand, Check, Groups, Audit, command_of, is_command};
ghost use Rattle.ug_report.specs.Statuses.{row_of, status_text};
ghost use Rattle.ug_commands.specs.Files.{AppendsThenStatus, PicksJust};
ghost use Rattle.ug_commands.specs.Checked.{IsChecked};
ghost use Rattle.ug_commands.specs.Listed.{IsListed};
ghost use Rattle.ug_audit.specs.Auditing.{IsAuditing};
ghost use Rattle.ug_audit.specs.Right.{AreRight};
ghost use Rattle.ug_run.specs.Commands.{has_sessions, is_fed};

use std::alloc::Global;
use ug_audit::audit;
use ug_commands::{Command, check, command_in, end, groups, read_command};
use ug_edge::{Sink, Site};
use ug_report::Status;
use ug_types::NoMemory;

/// How a command without sessions ended, or that the words are no command; `None` where they are `one`, `run` or `selfrun`,
/// of which nothing was begun, nor was memory asked for. No lane is there, and nobody is waited for: the call ends.
pub fn answer_alone<E: Site, K: Sink>(
    alloc: Global,
    words: &[String],
    site: &mut E,
    report: &mut K,
) -> Option<Status>
    ensures alone { (result ≡ None) ↔ (has_sessions (command_of (map string_bytes words.now)) ≡ true) }
    ensures untouched { IfNone result ((site.new ≡ site.old) × (report.new ≡ report.old)) }
    ensures checked { (command : CheckCommand) → command_of (map string_bytes words.now) ≡ Some (Check command) → IfSome result (λ status.
        IsChecked command (file_told (E.files site.old) command.stream) (E.picks site.new).is_open (E.left site.new) status (K.held report.old) (K.held report.new) (Rose (K.faults report.old) (K.faults report.new))) }
    ensures check_picked { (command : CheckCommand) → command_of (map string_bytes words.now) ≡ Some (Check command) → IfSome result (λ status.
        PicksJust (E.picks site.old).names (E.picks site.new).names command.stream status) }
    ensures check_missing { (command : CheckCommand) → command_of (map string_bytes words.now) ≡ Some (Check command) →
        file_told (E.files site.old) command.stream ≡ Missing → IfSome result (λ status. (row_of status).may_be_unread ≡ true) }
    ensures listed { (command : GroupsCommand) → command_of (map string_bytes words.now) ≡ Some (Groups command) → IfSome result (λ status.
        IsListed (file_told (E.files site.old) command.config) status (K.held report.old) (K.held report.new) (Rose (K.faults report.old) (K.faults report.new))) }
    ensures groups_picked { (command : GroupsCommand) → command_of (map string_bytes words.now) ≡ Some (Groups command) → IfSome result (λ status.
        PicksJust (E.picks site.old).names (E.picks site.new).names command.config status) }
    ensures groups_missing { (command : GroupsCommand) → command_of (map string_bytes words.now) ≡ Some (Groups command) →
        file_told (E.files site.old) command.config ≡ Missing → IfSome result (λ status. (row_of status).may_be_unread ≡ true) }
    ensures audited { (command : AuditCommand) → command_of (map string_bytes words.now) ≡ Some (Audit command) → IfSome result (λ status.
        IsAuditing command (file_told (E.files site.old)) (AppendsAll (E.picks site.old).names (E.picks site.new).names) status (K.held report.old) (K.held report.new) (Rose (K.faults report.old) (K.faults report.new))) }
    ensures audit_right { (command : AuditCommand) → command_of (map string_bytes words.now) ≡ Some (Audit command) → (told : List FileText) → E.files site.old ≡ Some told →
        result ≡ Some Status.Ok → AreRight command told }
    ensures audit_refuted { (command : AuditCommand) → command_of (map string_bytes words.now) ≡ Some (Audit command) → (told : List FileText) → E.files site.old ≡ Some told →
        (peer : ℕ) (session : ℕ) (kind : ℕ) (message : ℕ) (key : Option keys.Key) → result ≡ Some (Status.Refuted peer session kind message key) → AreRight command told → ⊥ }
    ensures audit_missing { (command : AuditCommand) → command_of (map string_bytes words.now) ≡ Some (Audit command) →
        file_told (E.files site.old) command.config ≡ Missing → IfSome result (λ status. (row_of status).may_be_unread ≡ true) }
    ensures usage { is_command (map string_bytes words.now) ≡ false → (result ≡ Some Status.Usage) × (site.new ≡ site.old) }
    ensures misused { result ≡ Some Status.Usage → is_command (map string_bytes words.now) ≡ false }
    ensures no_command { is_command (map string_bytes words.now) ≡ false →
        AppendsThenStatus (K.held report.old) (K.held report.new) (Rose (K.faults report.old) (K.faults report.new)) [] (status_text Status.Usage) }
    ensures unmade { E.made site.new ≡ E.made site.old }
    // What a status says of the outside.
    ensures read { result ≡ Some Status.ReadFault → Rose (E.faults site.old) (E.faults site.new) }
    ensures unharmed { (result ≡ Some Status.ReadFault → ⊥) → E.faults site.new ≡ E.faults site.old }
    ensures unwired { result ≡ Some Status.SiteFault → ⊥ }
    ensures wire_faults { E.wire_faults site.new ≡ E.wire_faults site.old }
    ensures report { result ≡ Some Status.ReportFault → Rose (K.faults report.old) (K.faults report.new) }
    ensures ended { is_fed (command_of (map string_bytes words.now)) ≡ true → IfSome result (λ status. (row_of status).completed ≡ true → IsEnded (E.left site.new)) }
{
    if let Some(Command::One(_) | Command::Run(_) | Command::SelfRun(_)) = command_in(words) {
        return None;
    }
    match read_command(alloc, words) {
        Ok(Some(Command::Check(words))) => {
            Some(check(alloc, words.session, words.stream, site, report))
        }
        Ok(Some(Command::Groups(words))) => Some(groups(alloc, words.config, site, report)),
        Ok(Some(Command::Audit(words))) => Some(audit(alloc, words, site, report)),
        Ok(Some(Command::One(_) | Command::Run(_) | Command::SelfRun(_))) => None,
        Ok(None) => Some(end(report, Status::Usage)),
        Err(NoMemory) => Some(end(report, Status::NoMemory)),
    }
}
