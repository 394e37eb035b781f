//! How long a peer's filter is after the changes of a message, told without making it.

ghost use Rattle.std.specs.Prelude.{◌≡◌, ◌<◌, ◌-◌, ◌^◌, Some, length};
ghost use Rattle.ug_policy.specs.declared.list_entry.ListEntry as stored;
ghost use Rattle.ug_policy.specs.OrfApplying.{applied};
ghost use Rattle.ug_world.specs.Filtered.{has_seq, has_seq_then, count_then};

use ug_policy::{Action, Filter, ListEntry, OrfEntry};

/// How many entries the filter has after the changes, in their order. It takes no memory; for each change it looks back
/// at those before, of which a message has a few hundred at most.
pub fn length_after(filter: &Filter, changes: &[OrfEntry]) -> usize
    ensures { result ≡ length (applied changes.now filter.now) }
{
    let entries = filter.entries().as_slice();
    let mut count = entries.len();
    for i in 0..changes.len() {
        let change = &changes[i];
        let there = is_there_before(entries, &changes[..i], change);
        count = count_then(count, there, change);
    }
    count
}

/// Whether an entry of the sequence that a change is about is there after those before it.
fn is_there_before(entries: &[ListEntry], before: &[OrfEntry], change: &OrfEntry) -> bool
    ensures { (e : stored.ListEntry) → change.now.entry ≡ Some e → has_seq e.seq (applied before.now entries.now) ≡ result }
{
    match change.entry {
        None => false,
        Some(entry) => is_there_after(entries, before, entry.seq),
    }
}

/// Whether an entry of that sequence is there after the changes.
fn is_there_after(entries: &[ListEntry], changes: &[OrfEntry], seq: u32) -> bool
    ensures { has_seq seq (applied changes.now entries.now) ≡ result }
{
    let mut there = is_there(entries, seq);
    for i in 0..changes.len() {
        let change = &changes[i];
        there = is_there_then(there, change, seq);
    }
    there
}

/// Whether it is there after one change, where it was or wasn't there before.
fn is_there_then(there: bool, change: &OrfEntry, seq: u32) -> bool
    ensures { result ≡ has_seq_then there change.now seq }
{
    match (change.action, change.entry) {
        (Action::RemoveAll, _) => false,
        (_, None) => there,
        (Action::Add, Some(entry)) => entry.seq == seq || there,
        (Action::Remove, Some(entry)) => there && entry.seq != seq,
    }
}

/// How many entries there are after one change.
fn count_then(count: usize, there: bool, change: &OrfEntry) -> usize
    requires { count < 2 ^ 64 - 1 }
    ensures { result ≡ count_then count there change.now.action change.now.entry }
{
    match (change.action, change.entry) {
        (Action::RemoveAll, _) => 0,
        (_, None) => count,
        (Action::Add, Some(_)) => if there { count } else { count + 1 },
        (Action::Remove, Some(_)) => if there {
            count.saturating_sub(1)
        } else {
            count
        },
    }
}

fn is_there(entries: &[ListEntry], seq: u32) -> bool
    ensures { result ≡ has_seq seq entries.now }
{
    for entry in entries {
        if entry.seq == seq {
            return true;
        }
    }
    false
}
