//! The command.

ghost use Rattle.std.specs.Prelude.{◌≡◌, ℕ, List, Option, Some, true, IfOk, IfErr, IsErrOf};
ghost use Rattle.ug_types.specs.declared.key.Key as keys;
ghost use Rattle.ug_edge.specs.Told.{Rose, AppendsAll, FileText, file_told, Missing};
ghost use Rattle.ug_report.specs.Statuses.{row_of};
ghost use Rattle.ug_audit.specs.Auditing.{IsAuditing, IsRight};
ghost use Rattle.ug_audit.specs.Stopping.{said, IsStopped};
ghost use Rattle.ug_audit.specs.Right.{AreRight};

use crate::ending::{end_right, end_stopped};
use crate::events::read_events;
use crate::report::read_told;
use crate::run::Run;
use crate::settings::read_first;
use crate::stop::Stop;
use std::alloc::Global;
use ug_audit_rules::history_of;
use ug_commands::{AuditWords, configurations_open};
use ug_edge::{Sink, Site, Source};
use ug_pieces::ShortText;
use ug_report::Status;
use ug_types::NoMemory;

/// Runs `audit`. It reads the configuration, the events and the report of a run, and then its sessions, by peer in configured
/// order and by number: these files alone, each once. Where all is right the report gets the certificate of all sessions, and
/// else the status line alone.
pub fn audit<E: Site, K: Sink>(
    alloc: Global,
    words: AuditWords<'_>,
    site: &mut E,
    report: &mut K,
) -> Status
    ensures audited { IsAuditing (said words.entry) (file_told (E.files site.old)) (AppendsAll (E.picks site.old).names (E.picks site.new).names) result (K.held report.old) (K.held report.new) (Rose (K.faults report.old) (K.faults report.new)) }
    ensures right { result ≡ Status.Ok → (told : List FileText) → E.files site.old ≡ Some told → AreRight (said words.entry) told }
    ensures refuted { (peer : ℕ) (session : ℕ) (kind : ℕ) (message : ℕ) (key : Option keys.Key) (told : List FileText) →
        result ≡ Status.Refuted peer session kind message key → E.files site.old ≡ Some told → AreRight (said words.entry) told → ⊥ }
    ensures missing { file_told (E.files site.old) words.entry.config.now ≡ Missing → (row_of result).may_be_unread ≡ true }
    ensures read { result ≡ Status.ReadFault → Rose (E.faults site.old) (E.faults site.new) }
    ensures unharmed { (result ≡ Status.ReadFault → ⊥) → E.faults site.new ≡ E.faults site.old }
    ensures report { result ≡ Status.ReportFault → Rose (K.faults report.old) (K.faults report.new) }
    ensures files { E.files site.new ≡ E.files site.old }
    ensures unmade { E.made site.new ≡ E.made site.old }
    ensures wire_faults { E.wire_faults site.new ≡ E.wire_faults site.old }
{
    audit_files(alloc, &words, site, report)
}

/// The same, as far as it speaks of one call.
fn audit_files<E: Site, K: Sink>(
    alloc: Global,
    words: &AuditWords<'_>,
    site: &mut E,
    report: &mut K,
) -> Status
    ensures audited { IsAuditing (said words.now) (file_told (E.files site.old)) (AppendsAll (E.picks site.old).names (E.picks site.new).names) result (K.held report.old) (K.held report.new) (Rose (K.faults report.old) (K.faults report.new)) }
    ensures read { result ≡ Status.ReadFault → Rose (E.faults site.old) (E.faults site.new) }
    ensures unharmed { (result ≡ Status.ReadFault → ⊥) → E.faults site.new ≡ E.faults site.old }
    ensures report { result ≡ Status.ReportFault → Rose (K.faults report.old) (K.faults report.new) }
    ensures files { E.files site.new ≡ E.files site.old }
    ensures unmade { E.made site.new ≡ E.made site.old }
    ensures wire_faults { E.wire_faults site.new ≡ E.wire_faults site.old }
{
    match certificate_of(alloc, words, site) {
        Ok(text) => end_right(report, &text),
        Err(stop) => end_stopped(alloc, report, stop),
    }
}

/// The certificate of a run by its files, or why there is none.
fn certificate_of<E: Site>(
    alloc: Global,
    words: &AuditWords<'_>,
    site: &mut E,
) -> Result<ShortText, Stop>
    ensures right { IfOk result (λ text. IsRight (said words.now) (file_told (E.files site.old)) (AppendsAll (E.picks site.old).names (E.picks site.new).names) (λ (certificate : List ℕ). text ≡ certificate)) }
    ensures stopped { IfErr result (IsStopped (said words.now) (file_told (E.files site.old)) (AppendsAll (E.picks site.old).names (E.picks site.new).names)) }
    ensures unread { IsErrOf result Stop.Read → Rose (E.faults site.old) (E.faults site.new) }
    ensures unharmed { (IsErrOf result Stop.Read → ⊥) → E.faults site.new ≡ E.faults site.old }
    ensures files { E.files site.new ≡ E.files site.old }
    ensures made { E.made site.new ≡ E.made site.old }
    ensures wire_faults { E.wire_faults site.new ≡ E.wire_faults site.old }
{
    let first = match read_first(alloc, words, site) {
        Ok(first) => first,
        Err(stop) => return Err(stop),
    };
    let events = match read_events(alloc, words, site) {
        Ok(events) => events,
        Err(stop) => return Err(stop),
    };
    configurations_open();
    let (history, mut last) = match history_of(alloc, &first, events.as_slice()) {
        Ok(found) => found,
        Err(NoMemory) => return Err(Stop::NoMemory),
    };
    let entries = match read_told(alloc, words, &mut last, site) {
        Ok(entries) => entries,
        Err(stop) => return Err(stop),
    };
    let run = match Run::of(alloc, first, events, history, last, entries) {
        Ok(run) => run,
        Err(NoMemory) => return Err(Stop::NoMemory),
    };
    match run.certificate(alloc, words.dir, site) {
        Ok(text) => Ok(text),
        Err(stop) => Err(stop),
    }
}
