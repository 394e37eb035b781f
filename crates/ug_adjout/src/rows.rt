//! The rows by key, and how many are of formatted and of forced keys.
ghost use Rattle.std.specs.Prelude.{◌≡◌, ◌+◌, ◌<◌, ◌^◌, ℕ, [], is_some, length, IsTrue, IsOk, IfOk, IfSome, IfNone, OnOk, OnErr, Some, None, true, false, if◌then◌else◌, option_copied, slice_get};
ghost use Rattle.std.specs.Map.{keys_of};
ghost use Rattle.std.specs.BTreeMap.{insert_entry};
ghost use Rattle.ug_adjout.specs.Tables.{value_at, with_value, rows_after};
ghost use Rattle.ug_adjout.specs.Seats.{seat_in, rows_in, named_in, key_of, IsLined, HaveRows};
ghost use Rattle.ug_adjout.specs.Stored.{projected, formatted_of, desired_of, mark_of, of_row};
ghost use Rattle.ug_adjout.specs.Stepped.{known, makes_row, stepped, lined, IsReady};
ghost use Rattle.ug_adjout.specs.declared.step.Step.TheVariants.{Format};

use crate::after::{first_desired, first_formatted};
use crate::copied::copied;
use crate::kept::Kept;
use crate::line::Line;
use crate::out_key::OutKey;
use crate::row::{Row, known};
use crate::seat::{Handle, Seat};
use crate::seats::{key_at, reseat, row_at};
use crate::step::Step;
use crate::stepping::{enter, step_seat};
use slab::Slab;
use std::alloc::Global;
use std::collections::BTreeMap;
use std::marker::Model;
use ug_intern::AttrId;
use ug_types::{KeyList, NoMemory, Sequence};

/// The rows by key, and how many of them are of formatted and how many of forced keys. The tree of the keys has a handle
/// for each, at which its row lies. So what has the handle finds the row with no search.
#[derive(Drop)]
pub struct Rows<K: Ord> {
    index: BTreeMap<K, Handle>,
    seats: Slab<Seat<K>>,
    formatted: usize,
    forced: usize,
}

impl<K: Ord> Model for Rows<K> {
    ghost use Rattle.ug_adjout.specs.Seats.{Seated, seat_at, IsRows};

    ghost Value = { Seated K };

    ghost view = { λ r. record { index = r.index.entries; slots = r.seats.slots } };

    ghost invariant = { λ r. IsRows K.cmp r.index.entries (seat_at r.seats.slots) r.formatted r.forced };
}

impl<K: Ord + Copy + Drop> Rows<K> {
    #[tactic(auto, using(crate::proofs::Seated::nothing_lies))]
    pub fn new(alloc: Global) -> Rows<K>
        ensures index { result.index ≡ [] }
        ensures slots { result.slots ≡ [] }
    {
        Rows {
            index: BTreeMap::new(alloc),
            seats: Slab::new(alloc),
            formatted: 0,
            forced: 0,
        }
    }

    /// An equal one of its own, with the same handles.
    pub fn copy(&self, alloc: Global) -> Result<Rows<K>, NoMemory>
        ensures { IfOk result (λ copy. copy ≡ self.now) }
    {
        Ok(Rows {
            index: copied(alloc, &self.index)?,
            seats: self.seats.clone()?,
            formatted: self.formatted,
            forced: self.forced,
        })
    }

    /// What lies at the handles.
    pub fn seats(&self) -> &Slab<Seat<K>>
        ensures { result.now.slots ≡ self.now.slots }
    {
        &self.seats
    }

    /// How many are of formatted keys.
    pub fn formatted_len(&self) -> usize
        ensures { result ≡ length (projected formatted_of (rows_in self.now)) }
    {
        self.formatted
    }

    /// How many are of forced keys.
    pub fn forced_len(&self) -> usize
        ensures { result ≡ length (projected mark_of (rows_in self.now)) }
    {
        self.forced
    }

    /// The least formatted row above the key, or the first one.
    pub fn formatted_after(&self, key: Option<&K>) -> Option<(K, AttrId)>
        ensures { result ≡ slice_get (rows_after K.cmp (option_copied key.entry) (projected formatted_of (rows_in self.now))) 0 }
    {
        first_formatted(&self.index, &self.seats, key)
    }

    /// The least desired row above the key, or the first one.
    pub fn desired_after(&self, key: Option<&K>) -> Option<(K, AttrId)>
        ensures { result ≡ slice_get (rows_after K.cmp (option_copied key.entry) (projected desired_of (rows_in self.now))) 0 }
    {
        first_desired(&self.index, &self.seats, key)
    }
}

impl<K: OutKey> Rows<K> {
    /// The keys that have a row.
    pub fn keys(&self, alloc: Global) -> Result<KeyList<K>, NoMemory>
        ensures { IfOk result (λ keys. keys.items ≡ keys_of (rows_in self.now)) }
    {
        keys_in(alloc, &self.index)
    }

    /// How many there are.
    pub fn len(&self) -> usize
        ensures len { result ≡ length (rows_in self.now) }
        ensures small { result < 2 ^ 64 }
    {
        self.index.len()
    }

    /// The key's handle.
    pub fn handle(&self, key: &K) -> Option<Handle>
        ensures handle { result ≡ value_at K.cmp self.now.index key.now }
        ensures missing { result ≡ None → value_at K.cmp (rows_in self.now) key.now ≡ None }
        ensures key { IfSome result (λ handle. key_of (seat_in self.now handle) ≡ Some key.now) }
        ensures only { (other : ℕ) → key_of (seat_in self.now other) ≡ Some key.now → result ≡ Some other }
    {
        match self.index.get(key) {
            Some(handle) => Some(*handle),
            None => None,
        }
    }

    /// The key's row.
    pub fn row(&self, key: &K) -> Option<Row>
        ensures { result ≡ value_at K.cmp (rows_in self.now) key.now }
    {
        match self.index.get(key) {
            Some(handle) => row_at(&self.seats, *handle),
            None => None,
        }
    }

    /// Whether this key's row lies at the handle.
    pub fn is_at(&self, handle: Handle, key: &K) -> bool
        ensures { IsTrue result → value_at K.cmp self.now.index key.now ≡ Some handle }
    {
        match key_at(&self.seats, handle) {
            Some(there) => key.cmp(&there).is_eq(),
            None => false,
        }
    }

    /// The key has this row now, which had one.
    pub fn put(&mut self, handle: Handle, key: K, row: Row)
        requires { value_at K.cmp self.old.index key ≡ Some handle }
        ensures rows { rows_in self.new ≡ insert_entry K.cmp (rows_in self.old) key row }
        ensures keys { (other : ℕ) → key_of (seat_in self.new other) ≡ key_of (seat_in self.old other) }
    {
        let _len = self.index.len();
        let was = row_at(&self.seats, handle);
        let kept = Kept::of(row);
        reseat(&mut self.seats, handle, Seat { key, row: kept });
        self.formatted = recounted(self.formatted, is_formatted(was), row.formatted.is_some());
        self.forced = recounted(self.forced, is_forced(was), row.forced);
    }

    /// The step is done with the key's row and with the list. What the row was; None where the key had none. Running
    /// out of memory changes nothing.
    pub fn step(
        &mut self,
        line: &mut Line<Handle>,
        key: K,
        step: Step,
    ) -> Result<Option<Row>, NoMemory>
        requires lined { IsLined (seat_in self.old) line.old }
        requires ready { IsReady step key (known (value_at K.cmp (rows_in self.old) key)) (named_in self.old line.old) }
        requires kept { HaveRows K.cmp (with_value K.cmp (rows_in self.old) key (stepped step (known (value_at K.cmp (rows_in self.old) key)))) (lined step key (known (value_at K.cmp (rows_in self.old) key)) (named_in self.old line.old)) }
        ensures was { IfOk result (λ was. was ≡ value_at K.cmp (rows_in self.old) key) }
        ensures rows { OnOk result (rows_in self.new ≡ with_value K.cmp (rows_in self.old) key (stepped step (known (value_at K.cmp (rows_in self.old) key)))) }
        ensures line { OnOk result (named_in self.new line.new ≡ lined step key (known (value_at K.cmp (rows_in self.old) key)) (named_in self.old line.old)) }
        ensures lined { OnOk result (IsLined (seat_in self.new) line.new) }
        ensures err_rows { OnErr result (self.new ≡ self.old) }
        ensures err_line { OnErr result (line.new ≡ line.old) }
    {
        if step.makes_row() {
            let Some(handle) = self.enter(line, key, step)? else {
                return Ok(None);
            };
            let row = self.step_at(line, handle, key, step)?;
            return Ok(Some(row));
        }
        let Some(handle) = self.handle(&key) else {
            return Ok(None);
        };
        let row = self.step_at(line, handle, key, step)?;
        Ok(Some(row))
    }

    /// The key's handle. A key without one gets one, and the step is done with its row, which says nothing yet, and with
    /// the list: then None. Running out of memory, or of handles, changes nothing.
    fn enter(
        &mut self,
        line: &mut Line<Handle>,
        key: K,
        step: Step,
    ) -> Result<Option<Handle>, NoMemory>
        requires makes { makes_row step ≡ true }
        requires lined { IsLined (seat_in self.old) line.old }
        requires ready { IsReady step key (known (value_at K.cmp (rows_in self.old) key)) (named_in self.old line.old) }
        ensures found { IfOk result (λ found. found ≡ value_at K.cmp self.old.index key) }
        ensures same_rows { IfOk result (λ found. IfSome found (λ _. self.new ≡ self.old)) }
        ensures same_line { IfOk result (λ found. IfSome found (λ _. line.new ≡ line.old)) }
        ensures was { IfOk result (λ found. IfNone found (value_at K.cmp (rows_in self.old) key ≡ None)) }
        ensures rows { IfOk result (λ found. IfNone found (rows_in self.new ≡ with_value K.cmp (rows_in self.old) key (stepped step (known (value_at K.cmp (rows_in self.old) key))))) }
        ensures line { IfOk result (λ found. IfNone found (named_in self.new line.new ≡ lined step key (known (value_at K.cmp (rows_in self.old) key)) (named_in self.old line.old))) }
        ensures lined { IfOk result (λ found. IfNone found (IsLined (seat_in self.new) line.new)) }
        ensures err_rows { OnErr result (self.new ≡ self.old) }
        ensures err_line { OnErr result (line.new ≡ line.old) }
    {
        let _len = self.index.len();
        let Some(handle) = enter(&mut self.index, &mut self.seats, line, key, step)? else {
            return Ok(None);
        };
        Ok(Some(handle))
    }

    /// The step is done with the row at the key's handle and with the list. What the row was. Running out of memory changes
    /// nothing, and comes only where the key is desired anew.
    pub fn step_at(
        &mut self,
        line: &mut Line<Handle>,
        handle: Handle,
        key: K,
        step: Step,
    ) -> Result<Row, NoMemory>
        requires found { value_at K.cmp self.old.index key ≡ Some handle }
        requires lined { IsLined (seat_in self.old) line.old }
        requires ready { IsReady step key (known (value_at K.cmp (rows_in self.old) key)) (named_in self.old line.old) }
        requires kept { HaveRows K.cmp (with_value K.cmp (rows_in self.old) key (stepped step (known (value_at K.cmp (rows_in self.old) key)))) (lined step key (known (value_at K.cmp (rows_in self.old) key)) (named_in self.old line.old)) }
        ensures was { IfOk result (λ row. value_at K.cmp (rows_in self.old) key ≡ Some row) }
        ensures rows { OnOk result (rows_in self.new ≡ with_value K.cmp (rows_in self.old) key (stepped step (known (value_at K.cmp (rows_in self.old) key)))) }
        ensures line { OnOk result (named_in self.new line.new ≡ lined step key (known (value_at K.cmp (rows_in self.old) key)) (named_in self.old line.old)) }
        ensures lined { OnOk result (IsLined (seat_in self.new) line.new) }
        ensures err_rows { OnErr result (self.new ≡ self.old) }
        ensures err_line { OnErr result (line.new ≡ line.old) }
        ensures format { step ≡ Format → IsOk result }
    {
        let _len = self.index.len();
        let row = step_seat(&mut self.index, &mut self.seats, line, handle, key, step)?;
        let now = step.row(row);
        self.formatted = recounted(self.formatted, row.formatted.is_some(), is_formatted(now));
        self.forced = recounted(self.forced, row.forced, is_forced(now));
        Ok(row)
    }
}

/// The keys of the map.
fn keys_in<K: Ord + Copy + Drop>(
    alloc: Global,
    index: &BTreeMap<K, Handle>,
) -> Result<KeyList<K>, NoMemory>
    ensures { IfOk result (λ keys. keys.items ≡ keys_of index.now.entries) }
{
    let mut keys = Sequence::new(alloc);
    for key in index.keys() {
        let Ok(()) = keys.push(*key) else {
            return Err(NoMemory);
        };
    }
    Ok(keys)
}

/// A count where what was counted, or wasn't, gives way to what is, or isn't.
fn recounted(count: usize, old: bool, new: bool) -> usize
    requires counted { IsTrue old → 0 < count }
    requires small { count < 2 ^ 63 }
    ensures { result + (if old then 1 else 0) ≡ count + (if new then 1 else 0) }
{
    if old == new {
        return count;
    }
    if new { count + 1 } else { count - 1 }
}

/// Whether there is a row of a formatted key.
fn is_formatted(row: Option<Row>) -> bool
    ensures { result ≡ is_some (of_row formatted_of row) }
{
    match row {
        Some(row) => row.formatted.is_some(),
        None => false,
    }
}

/// Whether there is a row of a forced key.
fn is_forced(row: Option<Row>) -> bool
    ensures { result ≡ is_some (of_row mark_of row) }
{
    match row {
        Some(row) => row.forced,
        None => false,
    }
}
