//! A step, done where the row lies.
ghost use Rattle.std.specs.Prelude.{◌≡◌, ◌<◌, ◌^◌, ℕ, true, OnOk, OnErr, IsOk, IfOk, IfSome, IfNone, IsSome, Some, None};
ghost use Rattle.ug_adjout.specs.Tables.{value_at, with_value, IsTable};
ghost use Rattle.ug_adjout.specs.Seats.{seat_at, key_of, row_of, handle_with, IsReseated, IsChanged};
ghost use Rattle.ug_adjout.specs.Stepped.{known, makes_row, stepped, lined, IsReady};
ghost use Rattle.ug_adjout.specs.declared.step.Step.TheVariants.{Format};

use crate::kept::Kept;
use crate::line::Line;
use crate::out_key::OutKey;
use crate::row::{Row, known};
use crate::seat::{Handle, Seat};
use crate::seats::{reseat, row_at};
use crate::step::Step;
use slab::Slab;
use std::collections::BTreeMap;
use std::collections::btree_map::Entry;
use ug_types::NoMemory;

/// The step is done with the row at the key's handle, and with the list. What the row was. Running out of memory changes
/// nothing.
pub fn step_seat<K: OutKey>(
    index: &mut BTreeMap<K, Handle>,
    seats: &mut Slab<Seat<K>>,
    line: &mut Line<Handle>,
    handle: Handle,
    key: K,
    step: Step,
) -> Result<Row, NoMemory>
    requires ordered { IsTable K.cmp index.old.entries }
    requires found { value_at K.cmp index.old.entries key ≡ Some handle }
    requires seat { key_of (seat_at seats.old.slots handle) ≡ Some key }
    requires ready { IsReady step handle (known (row_of (seat_at seats.old.slots handle))) line.old }
    ensures ok { IfOk result (λ row. IsChanged K.cmp index.old.entries index.new.entries (seat_at seats.old.slots) (seat_at seats.new.slots) handle key (Some row) (stepped step row)) }
    ensures line { IfOk result (λ row. line.new ≡ lined step handle row line.old) }
    ensures err_index { OnErr result (index.new.entries ≡ index.old.entries) }
    ensures err_seats { OnErr result (seats.new.slots ≡ seats.old.slots) }
    ensures err_line { OnErr result (line.new ≡ line.old) }
    ensures format { step ≡ Format → IsOk result }
{
    let Some(row) = row_at(seats, handle) else {
        unreachable!()
    };
    line.step(handle, row, step)?;
    settle(index, seats, handle, key, step.row(row));
    Ok(row)
}

/// The key's row is this now, or it goes and its handle is free.
fn settle<K: OutKey>(
    index: &mut BTreeMap<K, Handle>,
    seats: &mut Slab<Seat<K>>,
    handle: Handle,
    key: K,
    row: Option<Row>,
)
    requires ordered { IsTable K.cmp index.old.entries }
    requires found { value_at K.cmp index.old.entries key ≡ Some handle }
    requires seat { IsSome (seat_at seats.old.slots handle) }
    ensures seats { IsReseated (seat_at seats.old.slots) (seat_at seats.new.slots) handle key row }
    ensures index { index.new.entries ≡ with_value K.cmp index.old.entries key (handle_with handle row) }
{
    match row {
        Some(row) => {
            let row = Kept::of(row);
            reseat(seats, handle, Seat { key, row });
        }
        None => {
            index.remove(&key);
            seats.remove(handle as usize);
        }
    }
}

/// The key's handle. A key without one gets one, and the step is done with its row, which says nothing yet, and with the
/// list: then None. Running out of memory, or of handles, changes nothing.
pub fn enter<K: OutKey>(
    index: &mut BTreeMap<K, Handle>,
    seats: &mut Slab<Seat<K>>,
    line: &mut Line<Handle>,
    key: K,
    step: Step,
) -> Result<Option<Handle>, NoMemory>
    requires makes { makes_row step ≡ true }
    requires ready { value_at K.cmp index.old.entries key ≡ None → (handle : ℕ) → IsReady step handle (known None) line.old }
    ensures found { IfOk result (λ found. found ≡ value_at K.cmp index.old.entries key) }
    ensures same_index { IfOk result (λ found. IfSome found (λ _. index.new.entries ≡ index.old.entries)) }
    ensures same_seats { IfOk result (λ found. IfSome found (λ _. seats.new.slots ≡ seats.old.slots)) }
    ensures same_line { IfOk result (λ found. IfSome found (λ _. line.new ≡ line.old)) }
    ensures made { IfOk result (λ found. IfNone found (IsChanged K.cmp index.old.entries index.new.entries (seat_at seats.old.slots) (seat_at seats.new.slots) seats.old.vacant_key key None (stepped step (known None)))) }
    ensures made_line { IfOk result (λ found. IfNone found (line.new ≡ lined step seats.old.vacant_key (known None) line.old)) }
    ensures err_index { OnErr result (index.new.entries ≡ index.old.entries) }
    ensures err_seats { OnErr result (seats.new.slots ≡ seats.old.slots) }
    ensures err_line { OnErr result (line.new ≡ line.old) }
{
    match index.entry(key)? {
        Entry::Occupied(entry) => Ok(Some(*entry.get())),
        Entry::Vacant(entry) => {
            let handle = next_handle(seats);
            let entry = entry.insert_entry(handle);
            match sit(seats, line, handle, key, step) {
                Ok(()) => Ok(None),
                Err(e) => {
                    entry.remove();
                    Err(e)
                }
            }
        }
    }
}

/// The handle that is given out next, or the last one where there are 2^32 rows.
fn next_handle<T>(seats: &Slab<T>) -> Handle
    ensures { seats.now.vacant_key < 2 ^ 32 → result ≡ seats.now.vacant_key }
{
    let vacant = seats.vacant_key();
    if vacant > u32::MAX as usize {
        return u32::MAX;
    }
    vacant as u32
}

/// The key's row lies at the handle from now on, where that is given out next: the step is done with a row that says nothing
/// yet, and with the list. Running out of memory, or of handles, changes nothing.
fn sit<K: OutKey>(
    seats: &mut Slab<Seat<K>>,
    line: &mut Line<Handle>,
    handle: Handle,
    key: K,
    step: Step,
) -> Result<(), NoMemory>
    requires makes { makes_row step ≡ true }
    requires ready { IsReady step handle (known None) line.old }
    ensures handle { OnOk result (handle ≡ seats.old.vacant_key) }
    ensures vacant { OnOk result (seat_at seats.old.slots handle ≡ None) }
    ensures seats { OnOk result (IsReseated (seat_at seats.old.slots) (seat_at seats.new.slots) handle key (stepped step (known None))) }
    ensures line { OnOk result (line.new ≡ lined step handle (known None) line.old) }
    ensures err_seats { OnErr result (seats.new.slots ≡ seats.old.slots) }
    ensures err_line { OnErr result (line.new ≡ line.old) }
{
    if seats.vacant_key() != handle as usize {
        return Err(NoMemory);
    }
    seats.reserve(1)?;
    let row = known(None);
    let Some(now) = step.row(row) else {
        unreachable!()
    };
    line.step(handle, row, step)?;
    let row = Kept::of(now);
    seats.insert_reserved(Seat { key, row });
    Ok(())
}
