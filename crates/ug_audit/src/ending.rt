//! How an audit ends.

ghost use Rattle.std.specs.Prelude.{◌≡◌, ◌⊎◌, [], ℕ, Option, List};
ghost use Rattle.ug_edge.specs.Told.{Rose, AppendsPiece, AppendsAll, FileText, file_told};
ghost use Rattle.ug_pieces.specs.Reporting.{AppendsFront};
ghost use Rattle.ug_hearing.specs.Breaches.{kind_number};
ghost use Rattle.ug_audit.specs.Texts as texts;
ghost use Rattle.ug_commands.specs.Files.{AppendsThenStatus};
ghost use Rattle.ug_report.specs.Statuses.{status_text};
ghost use Rattle.ug_commands.specs.Words as words;
ghost use Rattle.ug_audit.specs.Auditing.{IsAuditing};
ghost use Rattle.ug_audit.specs.Stopping.{IsStopped};

use crate::answers::{kind_number, unclear_text};
use crate::stop::Stop;
use std::alloc::Global;
use ug_commands::{end, end_refused};
use ug_edge::{Failed, Sink};
use ug_pieces::{ShortText, write_all};
use ug_report::Status;
use ug_types::NoMemory;

/// Writes the certificate, a piece after another. It takes no memory.
pub fn end_right<K: Sink>(report: &mut K, text: &ShortText) -> Status
    ensures status { (result ≡ Status.Ok) ⊎ (result ≡ Status.ReportFault) }
    ensures whole { result ≡ Status.Ok → AppendsPiece (K.held report.old) (K.held report.new) text.now }
    ensures front { result ≡ Status.ReportFault → AppendsFront (K.held report.old) (K.held report.new) text.now }
    ensures failed { result ≡ Status.ReportFault → Rose (K.faults report.old) (K.faults report.new) }
{
    match text.write(report) {
        Ok(()) => Status::Ok,
        Err(Failed) => Status::ReportFault,
    }
}

/// Tries the status line of an audit that stopped. Where memory runs out for that of a stop, that is the status.
pub fn end_stopped<K: Sink>(alloc: Global, report: &mut K, stop: Stop) -> Status
    ensures ended { (command : words.AuditCommand) (told : Option (List FileText)) (names : Option (List (List ℕ))) (names' : Option (List (List ℕ))) → IsStopped command (file_told told) (AppendsAll names names') stop →
        IsAuditing command (file_told told) (AppendsAll names names') result (K.held report.old) (K.held report.new) (Rose (K.faults report.old) (K.faults report.new)) }
    ensures read { result ≡ Status.ReadFault → stop ≡ Stop.Read }
    ensures unread { stop ≡ Stop.Read → result ≡ Status.ReadFault }
    ensures report { result ≡ Status.ReportFault → ⊥ }
{
    match stop {
        Stop::Read => end(report, Status::ReadFault),
        Stop::NoMemory => end(report, Status::NoMemory),
        Stop::TooLong => end(report, Status::TooLong),
        Stop::Config { number, field } => end_refused(alloc, report, number, field),
        Stop::Unclear { line } => end_unclear(alloc, report, line),
        Stop::Refuted {
            peer,
            session,
            breach,
            text,
        } => {
            write_line(report, text.as_bytes());
            Status::Refuted {
                peer,
                session,
                kind: kind_number(breach.kind),
                message: breach.message,
                key: breach.key,
            }
        }
    }
}

/// Tries the status line of a report with a line that isn't clear.
fn end_unclear<K: Sink>(alloc: Global, report: &mut K, line: u64) -> Status
    ensures status { (result ≡ Status.Unclear line) ⊎ (result ≡ Status.NoMemory) }
    ensures unclear { result ≡ Status.Unclear line → AppendsThenStatus (K.held report.old) (K.held report.new) (Rose (K.faults report.old) (K.faults report.new)) [] (texts.unclear_text line) }
    ensures starved { result ≡ Status.NoMemory → AppendsThenStatus (K.held report.old) (K.held report.new) (Rose (K.faults report.old) (K.faults report.new)) [] (status_text Status.NoMemory) }
{
    let Ok(text) = unclear_text(alloc, line) else {
        return end(report, Status::NoMemory);
    };
    write_line(report, text.as_bytes());
    Status::Unclear { line }
}

/// Tries a status line once.
fn write_line<K: Sink>(report: &mut K, line: &[u8])
    ensures { AppendsThenStatus (K.held report.old) (K.held report.new) (Rose (K.faults report.old) (K.faults report.new)) [] line.now }
{
    match write_all(report, line) {
        Ok(()) => {}
        Err(Failed) => {}
    }
}
