//! What a run came to, as lines.

use crate::bytes::{first_message, spelled};
use crate::case::{Case, Shown, Table};
use crate::running::{Ended, run};
use crate::text::Text;
use crate::told::{Told, add_told};
use crate::wrong::Wrong;
use std::alloc::Global;
use std::sync::Wait;
use std::sync::ledger::Ledger;
use std::thread::Threads;
use ug_board::{BoardSaid, BoardStep, LaneSaid, LaneStep};
use ug_edge::{MemSink, MemWire};
use ug_types::{PeerId, Steps};

/// The number of the status, and that the board was spent, where it was; the report, and the sessions of each wire, as the
/// case has them shown.
pub fn tell<L: Ledger, R: Threads + Wait + Sync>(
    rt: &R,
    alloc: Global,
    case: &Case,
    done: &Ended,
    report: &MemSink,
    steps: &mut Steps<L>,
) -> Result<Vec<Told>, Wrong> {
    let mut lines = Vec::new(alloc);
    let spent = if done.spent { ", spent" } else { "" };
    let exit = format!(in alloc; "exit {}{spent}", done.status.number())?;
    add_told(&mut lines, exit, false)?;
    tell_report(alloc, &mut lines, report.bytes(), case.without_marks)?;
    let wires = done.wires.as_slice();
    for (place, wire) in wires.iter().enumerate() {
        let number = place.saturating_add(1);
        match case.shown {
            Shown::All => tell_sessions(alloc, &mut lines, number, wire)?,
            Shown::Last => tell_last(alloc, &mut lines, number, wire)?,
            Shown::None => {}
        }
    }
    if case.numbered {
        tell_numbers(alloc, &mut lines, done)?;
    }
    for table in &case.tables {
        tell_table(rt, alloc, &mut lines, wires, table, steps)?;
    }
    Ok(lines)
}

/// The lines of a report; without those of marks, where these aren't to be shown.
fn tell_report(
    alloc: Global,
    lines: &mut Vec<Told>,
    report: &[u8],
    without_marks: bool,
) -> Result<(), Wrong> {
    let Ok(text) = str::from_utf8(report) else {
        return add_told(
            lines,
            String::from_str(alloc, "(the report is no text)")?,
            false,
        );
    };
    for line in text.lines() {
        let is_mark = line.starts_with("sync ") || line.starts_with("refresh ");
        if !is_mark || !without_marks {
            add_told(lines, String::from_str(alloc, line)?, false)?;
        }
    }
    if !text.is_empty() && !text.ends_with('\n') {
        add_told(
            lines,
            String::from_str(alloc, "(the report has no end)")?,
            false,
        )?;
    }
    Ok(())
}

/// Each session of a wire, its messages line by line.
fn tell_sessions(
    alloc: Global,
    lines: &mut Vec<Told>,
    number: usize,
    wire: &MemWire,
) -> Result<(), Wrong> {
    if wire.sessions() == 0 {
        add_told(lines, format!(in alloc; "{number}.0")?, true)?;
    }
    for session in 1..=wire.sessions() {
        let title = format!(in alloc; "{number}.{session}")?;
        tell_session(alloc, lines, title.as_str(), wire.session(session))?;
    }
    Ok(())
}

/// The last session of a wire that has one.
fn tell_last(
    alloc: Global,
    lines: &mut Vec<Told>,
    number: usize,
    wire: &MemWire,
) -> Result<(), Wrong> {
    let last = wire.sessions();
    if last == 0 {
        return Ok(());
    }
    let title = format!(in alloc; "{number}.{last}")?;
    tell_session(alloc, lines, title.as_str(), wire.session(last))
}

fn tell_session(
    alloc: Global,
    lines: &mut Vec<Told>,
    title: &str,
    bytes: &[u8],
) -> Result<(), Wrong> {
    if bytes.is_empty() {
        return add_told(lines, String::from_str(alloc, title)?, true);
    }
    let mut rest = bytes;
    for _ in 0..bytes.len() {
        if rest.is_empty() {
            break;
        }
        let (message, others) = first_message(rest);
        let text = spelled(alloc, message)?;
        add_told(lines, format!(in alloc; "{title} {text}")?, true)?;
        rest = others;
    }
    Ok(())
}

/// Of each session of each wire, the numbers of the packets that were handed out in it. Those who share a packet are handed
/// the same number, and the numbers are those of the steps that formatted them, from 0 on.
fn tell_numbers(alloc: Global, lines: &mut Vec<Told>, done: &Ended) -> Result<(), Wrong> {
    let mut peer: PeerId = 0;
    for wire in done.wires.as_slice() {
        for session in 1..=wire.sessions() {
            let text = numbers_of(alloc, done, peer, session)?;
            add_told(lines, text, false)?;
        }
        peer = peer.saturating_add(1);
    }
    Ok(())
}

/// A line with the numbers of the packets that were handed out in a session.
fn numbers_of(alloc: Global, done: &Ended, peer: PeerId, session: u32) -> Result<String, Wrong> {
    let mut text = format!(in alloc; "made {}.{session}", peer.saturating_add(1))?;
    for i in 0..done.history.len() {
        let entry = done.history.at(i);
        let BoardStep::Lane(LaneStep::Next { peer: to }) = entry.step() else {
            continue;
        };
        let BoardSaid::Lane(
            LaneSaid::Hand {
                session: of,
                made,
                ..
            },
        ) = entry.said()
        else {
            continue;
        };
        if to == peer && of == session {
            write!(text, " {made}")?;
        }
    }
    Ok(text)
}

/// The rows of a table.
fn tell_table<L: Ledger, R: Threads + Wait + Sync>(
    rt: &R,
    alloc: Global,
    lines: &mut Vec<Told>,
    wires: &[MemWire],
    table: &Table,
    steps: &mut Steps<L>,
) -> Result<(), Wrong> {
    let Some(wire) = wires.get((table.wire as usize).saturating_sub(1)) else {
        return add_told(lines, String::from_str(alloc, "(no such wire)")?, false);
    };
    let last = wire.sessions();
    add_told(lines, format!(in alloc; "{}.{last}", table.wire)?, false)?;
    if last == 0 {
        return Ok(());
    }
    let words = check_of(alloc, table.options.as_slice())?;
    let case = case_of(alloc, wire.session(last))?;
    let (_, report) = run(rt, alloc, words.as_slice(), &case, 65536, steps)?;
    tell_rows(alloc, lines, report.bytes())
}

/// The words of a check with these options.
fn check_of(alloc: Global, options: &[String]) -> Result<Vec<String>, Wrong> {
    let mut words = Vec::new(alloc);
    words.push(String::from_str(alloc, "check")?)?;
    for option in options {
        words.push(option.clone()?)?;
    }
    words.push(String::from_str(alloc, "session")?)?;
    Ok(words)
}

/// A case with a session as its file.
fn case_of(alloc: Global, session: &[u8]) -> Result<Case, Wrong> {
    let mut case = Case::new(alloc);
    let name = String::from_str(alloc, "session")?;
    let bytes = Vec::from_slice(alloc, session)?;
    case.files.push(Text { name, bytes })?;
    Ok(case)
}

/// The lines of a check, but for the one that counts messages.
fn tell_rows(alloc: Global, lines: &mut Vec<Told>, report: &[u8]) -> Result<(), Wrong> {
    for line in str::from_utf8(report).unwrap_or("no text").lines() {
        if !line.starts_with("messages ") {
            add_told(lines, String::from_str(alloc, line)?, false)?;
        }
    }
    Ok(())
}
