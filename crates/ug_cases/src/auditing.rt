//! What a run left is audited, as whoever has its files would do.

ghost use Rattle.std.specs.Prelude.{◌≡◌, ◌<◌};

use crate::case::{Case, words_of};
use crate::running::{Ended, run};
use crate::text::{Text, named};
use crate::told::{Told, add_told};
use crate::wrong::Wrong;
use std::alloc::Global;
use std::sync::Wait;
use std::sync::ledger::Ledger;
use std::thread::Threads;
use ug_config::read_config;
use ug_edge::{MemSink, MemWire};
use ug_types::Steps;
use ug_world::World;

/// Where a run read all, and what it left doesn't audit to 0, what the audit says.
pub fn tell_audit<L: Ledger, R: Threads + Wait + Sync>(
    rt: &R,
    alloc: Global,
    lines: &mut Vec<Told>,
    words: &[String],
    case: &Case,
    done: &Ended,
    report: &MemSink,
    steps: &mut Steps<L>,
) -> Result<(), Wrong> {
    let Some(left) = left_by(alloc, words, case, done, report)? else {
        return Ok(());
    };
    let words = words_of(alloc, "audit c e r d")?;
    let (ended, said) = run(rt, alloc, words.as_slice(), &left, 65536, steps)?;
    let number = ended.status.number();
    if number != 0 {
        let text = str::from_utf8(said.bytes()).unwrap_or("");
        let line = text.lines().next().unwrap_or("");
        add_told(lines, format!(in alloc; "audit {number} {line}")?, false)?;
    }
    Ok(())
}

/// A case with the files of a run that read all: its configuration, its events, its report, and its sessions. None where it
/// wasn't one, or didn't.
fn left_by(
    alloc: Global,
    words: &[String],
    case: &Case,
    done: &Ended,
    report: &MemSink,
) -> Result<Option<Case>, Wrong> {
    if !has_read_all(words, done) {
        return Ok(None);
    }
    let Some((config, events)) = files_of(words, case) else {
        return Ok(None);
    };
    let Ok(world) = read_config(alloc, config) else {
        return Ok(None);
    };
    let left = case_of(
        alloc,
        config,
        events,
        report.bytes(),
        &world,
        done.wires.as_slice(),
    )?;
    Ok(Some(left))
}

/// Whether the words are a run, and it read all.
fn has_read_all(words: &[String], done: &Ended) -> bool {
    let number = done.status.number();
    match words.first() {
        Some(command) => command.as_str() == "run" && (number == 0 || number == 8),
        None => false,
    }
}

/// The bytes of the configuration and of the events of a run.
fn files_of<'a>(words: &[String], case: &'a Case) -> Option<(&'a [u8], &'a [u8])> {
    let config = named(case.files.as_slice(), words.get(1)?.as_str())?;
    let events = named(case.files.as_slice(), words.get(2)?.as_str())?;
    Some((config.bytes.as_slice(), events.bytes.as_slice()))
}

/// A case with these files, and the sessions of these wires.
fn case_of(
    alloc: Global,
    config: &[u8],
    events: &[u8],
    report: &[u8],
    world: &World,
    wires: &[MemWire],
) -> Result<Case, Wrong> {
    let mut left = Case::new(alloc);
    add_file(alloc, &mut left, "c", config)?;
    add_file(alloc, &mut left, "e", events)?;
    add_file(alloc, &mut left, "r", report)?;
    add_wires(alloc, &mut left, world, wires)?;
    Ok(left)
}

/// The sessions of each peer, in configured order.
fn add_wires(
    alloc: Global,
    left: &mut Case,
    world: &World,
    wires: &[MemWire],
) -> Result<(), Wrong> {
    let mut peer: u32 = 0;
    for wire in wires {
        add_sessions(alloc, left, world, peer, wire)?;
        peer = peer.saturating_add(1);
    }
    Ok(())
}

/// The sessions of a peer, each a file.
fn add_sessions(
    alloc: Global,
    left: &mut Case,
    world: &World,
    peer: u32,
    wire: &MemWire,
) -> Result<(), Wrong> {
    if peer >= world.peers() {
        return Ok(());
    }
    let name = world.peer(peer).name.text();
    for session in 1..=wire.sessions() {
        let file = format!(in alloc; "d/{name}.{session}")?;
        add_file(alloc, left, file.as_str(), wire.session(session))?;
    }
    Ok(())
}

fn add_file(alloc: Global, left: &mut Case, name: &str, bytes: &[u8]) -> Result<(), Wrong> {
    let name = String::from_str(alloc, name)?;
    let bytes = Vec::from_slice(alloc, bytes)?;
    left.files.push(Text { name, bytes })?;
    Ok(())
}
