//! What a report tells of one session.

ghost use Rattle.std.specs.Prelude.{◌≡◌, ◌++◌, IfOk, OnOk};
ghost use Rattle.std.specs.List.Sorted.{IsPermutation, IsNonDecreasingBy};
ghost use Rattle.ug_types.specs.declared.mark.Mark as marks;
ghost use Rattle.ug_audit_rules.specs.Audited.{is_loss_of, is_lost_in, mark_in, marks_in, marks_to};

use std::alloc::Global;
use ug_audit_rules::Entry;
use ug_types::{Mark, NoMemory, PeerId};

/// The marks of a session in the order of their messages.
pub fn marks_to(
    alloc: Global,
    entries: &[Entry],
    id: PeerId,
    number: u32,
) -> Result<Vec<Mark>, NoMemory>
    ensures same { IfOk result (λ sorted. IsPermutation (marks_to id number (marks_in entries.now)) sorted.items) }
    ensures rise { IfOk result (λ sorted. IsNonDecreasingBy (λ (m : marks.Mark). m.handed) sorted.items) }
{
    let mut sorted = marks_found(alloc, entries, id, number)?;
    sorted.sort_by_key(
        |mark| -> u64
            ensures { result ≡ mark.now.handed }
        { mark.handed },
    )?;
    Ok(sorted)
}

/// The marks of a session in the order of the lines.
fn marks_found(
    alloc: Global,
    entries: &[Entry],
    id: PeerId,
    number: u32,
) -> Result<Vec<Mark>, NoMemory>
    ensures { IfOk result (λ found. found.items ≡ marks_to id number (marks_in entries.now)) }
{
    let mut found = Vec::new(alloc);
    for entry in entries {
        keep(&mut found, *entry, id, number)?;
    }
    Ok(found)
}

/// Adds the mark that a line tells, where it is of the session.
fn keep(found: &mut Vec<Mark>, entry: Entry, id: PeerId, number: u32) -> Result<(), NoMemory>
    ensures { OnOk result (found.new.items ≡ found.old.items ++ marks_to id number (mark_in entry)) }
{
    if let Entry::Sync(mark) = entry {
        if mark.peer == id && mark.session == number {
            found.push(mark)?;
        }
    }
    Ok(())
}

/// Whether a line tells the loss of the session.
pub fn is_lost(entries: &[Entry], id: PeerId, number: u32) -> bool
    ensures { result ≡ is_lost_in entries.now id number }
{
    for entry in entries {
        if is_loss_of(*entry, id, number) {
            return true;
        }
    }
    false
}

fn is_loss_of(entry: Entry, id: PeerId, number: u32) -> bool
    ensures { result ≡ is_loss_of id number entry }
{
    match entry {
        Entry::Lost { peer, session } => peer == id && session == number,
        Entry::Passes | Entry::Sync(_) | Entry::Unclear => false,
    }
}
