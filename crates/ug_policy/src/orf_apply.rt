//! What a message makes of a peer's own list.

ghost use Rattle.std.specs.Prelude.{◌≡◌, ◌+◌, ◌<◌, ◌≤◌, [], true, length, OnOk, OnErr};
ghost use Rattle.ug_policy.specs.Order.{rises};
ghost use Rattle.ug_policy.specs.Lists.{seq_of, is_good};
ghost use Rattle.ug_policy.specs.OrfApplying.{place_of, is_there, without_place, without_sequence, with_entry, changed_by, applied};
ghost use Rattle.ug_policy.specs.OrfViews.{AreGood};

use crate::list_entry::{EntryList, ListEntry};
use crate::orf_action::Action;
use crate::orf_message::{OrfEntry, OrfMessage};
use ug_types::NoMemory;

/// Makes the changes in their order. An entry that is added takes the place of the one of its sequence; where there is
/// none, it comes before the first of a greater sequence, and else at the end. One that is removed takes away the one
/// of its sequence, where there is one. The sequences of the list rise before and after. Running out of memory changes
/// nothing.
#[tactic(auto, unfolding(crate::specs::OrfApplying::applied))]
pub fn apply_orf(entries: &mut EntryList, message: &OrfMessage) -> Result<(), NoMemory>
    requires { rises seq_of entries.old.items ≡ true }
    ensures ok { OnOk result (entries.new.items ≡ applied message.entry.now.entries.items entries.old.items) }
    ensures err { OnErr result (entries.new.items ≡ entries.old.items) }
    ensures rising { rises seq_of entries.new.items ≡ true }
    ensures good { AreGood entries.old.items → AreGood entries.new.items }
{
    entries.reserve(message.entries.len())?;
    for change in message.entries.as_slice() {
        make_change(entries, change);
    }
    Ok(())
}

/// Makes a change for which there is room.
fn make_change(entries: &mut EntryList, change: &OrfEntry)
    requires room { 1 ≤ entries.old.spare }
    requires rising { rises seq_of entries.old.items ≡ true }
    ensures items { entries.new.items ≡ changed_by change.now.action change.now.entry entries.old.items }
    ensures rising { rises seq_of entries.new.items ≡ true }
    ensures good { AreGood entries.old.items → AreGood entries.new.items }
    ensures spare { entries.old.spare ≤ entries.new.spare + 1 }
{
    match (change.action, change.entry) {
        (Action::RemoveAll, _) => clear(entries),
        (Action::Add, Some(entry)) => add(entries, entry),
        (Action::Remove, Some(entry)) => remove(entries, entry.seq),
        _ => {}
    }
}

/// Adds an entry for which there is room.
fn add(entries: &mut EntryList, entry: ListEntry)
    requires room { 1 ≤ entries.old.spare }
    requires rising { rises seq_of entries.old.items ≡ true }
    ensures items { entries.new.items ≡ with_entry entry entries.old.items }
    ensures rising { rises seq_of entries.new.items ≡ true }
    ensures good { is_good entry ≡ true → AreGood entries.old.items → AreGood entries.new.items }
    ensures spare { entries.old.spare ≤ entries.new.spare + 1 }
{
    let place = take_out(entries, entry.seq);
    let _ = entries.insert(place, entry);
}

/// Takes the entry of a sequence away, where there is one.
fn remove(entries: &mut EntryList, seq: u32)
    requires { rises seq_of entries.old.items ≡ true }
    ensures items { entries.new.items ≡ without_sequence seq entries.old.items }
    ensures rising { rises seq_of entries.new.items ≡ true }
    ensures good { AreGood entries.old.items → AreGood entries.new.items }
    ensures spare { entries.old.spare ≤ entries.new.spare }
{
    let _place = take_out(entries, seq);
}

/// Takes the entry of a sequence out, where there is one, and tells its place.
fn take_out(entries: &mut EntryList, seq: u32) -> usize
    requires { rises seq_of entries.old.items ≡ true }
    ensures place { result ≡ place_of seq entries.old.items }
    ensures within { result ≤ length entries.new.items }
    ensures taken { entries.new.items ≡ without_place (is_there seq entries.old.items) result entries.old.items }
    ensures spare { entries.old.spare ≤ entries.new.spare }
{
    let place = place_of(entries.as_slice(), seq);
    if is_at(entries.as_slice(), place, seq) {
        let _ = entries.remove(place);
    }
    place
}

/// Takes all entries out.
fn clear(entries: &mut EntryList)
    ensures items { entries.new.items ≡ [] }
    ensures spare { entries.old.spare ≤ entries.new.spare }
{
    while let Some(_) = entries.pop() {}
}

/// Whether the entry at the place of a sequence has it.
#[tactic(auto, using(crate::proofs::OrfChanged::place_steps))]
fn is_at(entries: &[ListEntry], place: usize, seq: u32) -> bool
    requires { place ≡ place_of seq entries.now }
    ensures there { result ≡ is_there seq entries.now }
    ensures within { result ≡ true → place < length entries.now }
{
    place < entries.len() && entries[place].seq == seq
}

/// How many entries stand before those of a sequence and of greater ones.
fn place_of(entries: &[ListEntry], seq: u32) -> usize
    requires { rises seq_of entries.now ≡ true }
    ensures place { result ≡ place_of seq entries.now }
    ensures within { result ≤ length entries.now }
{
    entries.partition_point(|e| e.seq < seq)
}
