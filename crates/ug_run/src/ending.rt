//! The end of a run: its last lines, and its status.

ghost use Rattle.std.specs.Prelude.{◌≡◌, ◌≤◌, ◌<◌, ◌⊎◌, [], IfOk, IfSome, IfNone, Some};
ghost use Rattle.std.specs.String.{string_bytes};
ghost use Rattle.ug_edge.specs.Told.{Rose, AppendsPiece};
ghost use Rattle.ug_pieces.specs.Reporting.{AppendsFront};
ghost use Rattle.ug_report.specs.Report.{name_at, lost_status, losses_from};
ghost use Rattle.ug_report.specs.Statuses.{status_text};
ghost use Rattle.ug_commands.specs.Files.{AppendsThenStatus};
ghost use Rattle.ug_event_loop.specs.Crew.{all_losses};
ghost use Rattle.ug_run.specs.Ends.{last_text, IsFirst, IsConcluded, CompletesBy, IsFinished};

use crate::losses::losses_of;
use std::alloc::Global;
use ug_board::History;
use ug_commands::end;
use ug_edge::{Failed, Sink};
use ug_event_loop::{End, Tally};
use ug_pieces::write_all;
use ug_report::{Loss, Status, write_counts, write_losses, write_lost_status};
use ug_types::{Name, NoMemory};

/// What a run came to, when its board is closed: how reading ended, how many lines were taken, and whether the loss of a
/// session was passed over.
#[derive(Clone, Copy)]
pub(crate) struct Outcome {
    pub(crate) end: End,
    pub(crate) tally: Tally,
    pub(crate) unnoted: bool,
}

/// Writes the end of the report of a run over so many peers.
pub(crate) fn finish<J: Drop, R: Drop, K: Sink>(
    alloc: Global,
    names: &[Name],
    peers: u32,
    outcome: Outcome,
    history: &History<J, R>,
    report: &mut K,
) -> Status
    ensures finished { IsFinished names.now (losses_from 0 (all_losses 0 peers history.now.items)) outcome.tally.accepted outcome.tally.refused
        (K.held report.old) (K.held report.new) (Rose (K.faults report.old) (K.faults report.new)) outcome.end outcome.unnoted result }
    ensures faults { K.faults report.old ≤ K.faults report.new }
{
    match outcome.end {
        End::Complete => complete(alloc, names, peers, outcome, history, report),
        End::Read => end(report, Status::ReadFault),
        End::Report => Status::ReportFault,
        End::NoMemory => end(report, Status::NoMemory),
        End::TooLong => end(report, Status::TooLong),
    }
}

/// Writes the end of the report of a run that completed, unless a loss was passed over.
fn complete<J: Drop, R: Drop, K: Sink>(
    alloc: Global,
    names: &[Name],
    peers: u32,
    outcome: Outcome,
    history: &History<J, R>,
    report: &mut K,
) -> Status
    ensures completes { CompletesBy names.now (losses_from 0 (all_losses 0 peers history.now.items)) outcome.tally.accepted outcome.tally.refused
        (K.held report.old) (K.held report.new) (Rose (K.faults report.old) (K.faults report.new)) outcome.unnoted result }
    ensures faults { K.faults report.old ≤ K.faults report.new }
{
    if outcome.unnoted {
        return end(report, Status::NoMemory);
    }
    let Ok(losses) = losses_of(alloc, peers, history) else {
        return end(report, Status::NoMemory);
    };
    conclude(alloc, names, losses.as_slice(), outcome.tally, report)
}

/// Writes the last lines, for which memory may be wanting.
fn conclude<K: Sink>(
    alloc: Global,
    names: &[Name],
    losses: &[Loss],
    tally: Tally,
    report: &mut K,
) -> Status
    ensures concluded { IsConcluded names.now losses.now tally.accepted tally.refused (K.held report.old) (K.held report.new) (Rose (K.faults report.old) (K.faults report.new)) result }
    ensures faults { K.faults report.old ≤ K.faults report.new }
{
    let Ok(lines) = last_lines(alloc, names, losses, tally) else {
        return end(report, Status::NoMemory);
    };
    match first_of(losses) {
        None => end_whole(lines.as_bytes(), report),
        Some(first) => end_lost(alloc, names, first, lines.as_bytes(), report),
    }
}

/// The first loss, where there are some.
fn first_of(losses: &[Loss]) -> Option<Loss>
    ensures none { IfNone result (losses.now ≡ []) }
    ensures first { IfSome result (λ first. IsFirst first.peer first.session losses.now) }
{
    match losses {
        [] => None,
        [first, _others @ ..] => Some(*first),
    }
}

/// The lines of the lost sessions and of the counts.
fn last_lines(
    alloc: Global,
    names: &[Name],
    losses: &[Loss],
    tally: Tally,
) -> Result<String, NoMemory>
    ensures { IfOk result (λ lines. string_bytes lines ≡ last_text names.now losses.now tally.accepted tally.refused) }
{
    let mut lines = String::new(alloc);
    write_losses(&mut lines, names, losses)?;
    write_counts(&mut lines, tally.accepted, tally.refused)?;
    Ok(lines)
}

/// Writes the last lines of a run that lost no session.
fn end_whole<K: Sink>(lines: &[u8], report: &mut K) -> Status
    ensures status { (result ≡ Status.Ok) ⊎ (result ≡ Status.ReportFault) }
    ensures whole { result ≡ Status.Ok → AppendsPiece (K.held report.old) (K.held report.new) lines.now }
    ensures front { result ≡ Status.ReportFault → Rose (K.faults report.old) (K.faults report.new) × AppendsFront (K.held report.old) (K.held report.new) lines.now }
    ensures faults { K.faults report.old ≤ K.faults report.new }
{
    match write_all(report, lines) {
        Ok(()) => Status::Ok,
        Err(Failed) => Status::ReportFault,
    }
}

/// Writes the last lines of a run that lost sessions, and then the status line, which names the first. The memory for both
/// is had before.
fn end_lost<K: Sink>(
    alloc: Global,
    names: &[Name],
    first: Loss,
    lines: &[u8],
    report: &mut K,
) -> Status
    ensures status { (result ≡ Status.Lost first.peer first.session) ⊎ ((result ≡ Status.ReportFault) ⊎ (result ≡ Status.NoMemory)) }
    ensures lost { result ≡ Status.Lost first.peer first.session →
        AppendsThenStatus (K.held report.old) (K.held report.new) (Rose (K.faults report.old) (K.faults report.new)) lines.now (lost_status (name_at names.now first.peer) first.session) }
    ensures front { result ≡ Status.ReportFault → Rose (K.faults report.old) (K.faults report.new) × AppendsFront (K.held report.old) (K.held report.new) lines.now }
    ensures starved { result ≡ Status.NoMemory →
        AppendsThenStatus (K.held report.old) (K.held report.new) (Rose (K.faults report.old) (K.faults report.new)) [] (status_text Status.NoMemory) }
    ensures faults { K.faults report.old ≤ K.faults report.new }
{
    let Ok(line) = lost_line(alloc, names, first) else {
        return end(report, Status::NoMemory);
    };
    match write_all(report, lines) {
        Ok(()) => {}
        Err(Failed) => return Status::ReportFault,
    }
    end_with(line.as_bytes(), first, report)
}

/// Tries the status line once.
fn end_with<K: Sink>(line: &[u8], first: Loss, report: &mut K) -> Status
    ensures status { result ≡ Status.Lost first.peer first.session }
    ensures report { AppendsThenStatus (K.held report.old) (K.held report.new) (Rose (K.faults report.old) (K.faults report.new)) [] line.now }
    ensures faults { K.faults report.old ≤ K.faults report.new }
{
    let Loss { peer, session } = first;
    match write_all(report, line) {
        Ok(()) => Status::Lost { peer, session },
        Err(Failed) => Status::Lost { peer, session },
    }
}

/// The status line of a run whose first lost session is this one.
fn lost_line(alloc: Global, names: &[Name], first: Loss) -> Result<String, NoMemory>
    ensures { IfOk result (λ line. string_bytes line ≡ lost_status (name_at names.now first.peer) first.session) }
{
    let mut line = String::new(alloc);
    write_lost_status(&mut line, names, first)?;
    Ok(line)
}
