//! The rows and the list of those that wait.
ghost use Rattle.std.specs.Prelude.{◌≡◌, ◌<◌, ◌^◌, [], length, IsSome, IfOk, OnOk, OnErr, IsOk, Some, None, option_copied, slice_get};
ghost use Rattle.std.specs.Map.{keys_of, remove_entry};
ghost use Rattle.std.specs.Ordering.{nat_cmp};
ghost use Rattle.std.specs.BTreeMap.{insert_entry, is_at};
ghost use Rattle.ug_adjout.specs.Tables.{value_at, with_value, rows_after};
ghost use Rattle.ug_adjout.specs.Formatting.{fitting};
ghost use Rattle.ug_adjout.specs.Seats.{HaveRows, rows_in};
ghost use Rattle.ug_adjout.specs.Stored.{projected, formatted_of, desired_of, mark_of};
ghost use Rattle.ug_adjout.specs.Stepped.{known, stepped, lined, IsReady};
ghost use Rattle.ug_adjout.specs.Waits.{keys_for, first_announced, from_place};
ghost use Rattle.ug_adjout.specs.declared.step.Step.TheVariants.{Format};

use crate::line::Line;
use crate::out_key::OutKey;
use crate::row::Row;
use crate::rows::Rows;
use crate::seat::Handle;
use crate::seats::key_at;
use crate::step::Step;
use crate::waiting::Waiting;
use std::alloc::Global;
use std::marker::Model;
use ug_intern::AttrId;
use ug_types::{KeyList, NoMemory};

/// The rows by key, and those that wait by their places. The list knows them by their handles: contracts see the keys.
#[derive(Drop)]
pub struct Queue<K: OutKey> {
    rows: Rows<K>,
    line: Line<Handle>,
}

impl<K: OutKey> Model for Queue<K> {
    ghost use Rattle.ug_adjout.specs.Seats.{Told, rows_in, named_in, seat_in, IsLined};

    ghost Value = { Told K };

    ghost view = { λ q. record { rows = rows_in q.rows; waiting = named_in q.rows q.line } };

    ghost invariant = { λ q. IsLined (seat_in q.rows) q.line };
}

impl<K: OutKey> Queue<K> {
    #[tactic(auto, using(crate::proofs::Handles::nobody_lined))]
    pub fn new(alloc: Global) -> Queue<K>
        ensures rows { result.rows ≡ [] }
        ensures waiting { result.waiting ≡ [] }
    {
        Queue {
            rows: Rows::new(alloc),
            line: Line::new(alloc),
        }
    }

    /// An equal one of its own.
    pub fn copy(&self, alloc: Global) -> Result<Queue<K>, NoMemory>
        ensures { IfOk result (λ copy. copy ≡ self.now) }
    {
        Ok(Queue {
            rows: self.rows.copy(alloc)?,
            line: self.line.copy(alloc)?,
        })
    }

    /// The keys that have a row.
    pub fn keys(&self, alloc: Global) -> Result<KeyList<K>, NoMemory>
        ensures { IfOk result (λ keys. keys.items ≡ keys_of self.now.rows) }
    {
        self.rows.keys(alloc)
    }

    /// The key's row.
    pub fn row(&self, key: &K) -> Option<Row>
        ensures { result ≡ value_at K.cmp self.now.rows key.now }
    {
        self.rows.row(key)
    }

    /// How many rows there are.
    pub fn len(&self) -> usize
        ensures len { result ≡ length self.now.rows }
        ensures small { result < 2 ^ 64 }
    {
        self.rows.len()
    }

    /// How many are of formatted keys.
    pub fn formatted_len(&self) -> usize
        ensures { result ≡ length (projected formatted_of self.now.rows) }
    {
        self.rows.formatted_len()
    }

    /// How many are of forced keys.
    pub fn forced_len(&self) -> usize
        ensures { result ≡ length (projected mark_of self.now.rows) }
    {
        self.rows.forced_len()
    }

    /// The least formatted row above the key, or the first one.
    pub fn formatted_after(&self, key: Option<&K>) -> Option<(K, AttrId)>
        ensures { result ≡ slice_get (rows_after K.cmp (option_copied key.entry) (projected formatted_of self.now.rows)) 0 }
    {
        self.rows.formatted_after(key)
    }

    /// The least desired row above the key, or the first one.
    pub fn desired_after(&self, key: Option<&K>) -> Option<(K, AttrId)>
        ensures { result ≡ slice_get (rows_after K.cmp (option_copied key.entry) (projected desired_of self.now.rows)) 0 }
    {
        self.rows.desired_after(key)
    }

    /// How many wait.
    pub fn waiting_len(&self) -> usize
        ensures len { result ≡ length self.now.waiting }
        ensures small { result < 2 ^ 63 }
    {
        self.line.len()
    }

    /// The first keys that wait for this value, or for their withdrawal, as many as have room.
    pub fn first_for(
        &self,
        alloc: Global,
        value: Option<AttrId>,
        room: usize,
    ) -> Result<KeyList<K>, NoMemory>
        ensures { IfOk result (λ keys. keys.items ≡ fitting K.bytes room (keys_for value self.now.waiting)) }
    {
        self.line.first_for(self.rows.seats(), alloc, value, room)
    }

    /// The first key that waits for this value, or for its withdrawal.
    pub fn first_of(&self, value: Option<AttrId>) -> Option<K>
        ensures { result ≡ slice_get (keys_for value self.now.waiting) 0 }
    {
        match self.line.first_of(value) {
            Some(handle) => key_at(self.rows.seats(), handle),
            None => None,
        }
    }

    /// The value of the first announcement that waits.
    pub fn first_value(&self) -> Option<AttrId>
        ensures { result ≡ first_announced self.now.waiting }
    {
        self.line.first_value()
    }

    /// The first place from this one on at which something waits, and what waits there.
    pub fn first_from(&self, place: u32) -> Option<(u32, Waiting<K>)>
        ensures { result ≡ slice_get (from_place place self.now.waiting) 0 }
    {
        let Some((at, waiting)) = self.line.first_from(place) else {
            return None;
        };
        let Some(key) = key_at(self.rows.seats(), waiting.key) else {
            unreachable!()
        };
        let waiting = Waiting {
            key,
            value: waiting.value,
        };
        Some((at, waiting))
    }

    /// The step is done with the key's row and with the list. What the row was; None where the key had none. Running
    /// out of memory changes nothing.
    pub fn step(&mut self, key: K, step: Step) -> Result<Option<Row>, NoMemory>
        requires ready { IsReady step key (known (value_at K.cmp self.old.rows key)) self.old.waiting }
        requires kept { HaveRows K.cmp (with_value K.cmp self.old.rows key (stepped step (known (value_at K.cmp self.old.rows key)))) (lined step key (known (value_at K.cmp self.old.rows key)) self.old.waiting) }
        ensures was { IfOk result (λ was. was ≡ value_at K.cmp self.old.rows key) }
        ensures rows { OnOk result (self.new.rows ≡ with_value K.cmp self.old.rows key (stepped step (known (value_at K.cmp self.old.rows key)))) }
        ensures waiting { OnOk result (self.new.waiting ≡ lined step key (known (value_at K.cmp self.old.rows key)) self.old.waiting) }
        ensures err { OnErr result (self.new ≡ self.old) }
    {
        let was = self.rows.step(&mut self.line, key, step)?;
        Ok(was)
    }

    /// The key is formatted. What its row was; None where the key had none, and then nothing changes.
    pub fn format(&mut self, key: K) -> Option<Row>
        requires ready { IsReady Format key (known (value_at K.cmp self.old.rows key)) self.old.waiting }
        requires kept { HaveRows K.cmp (with_value K.cmp self.old.rows key (stepped Format (known (value_at K.cmp self.old.rows key)))) (lined Format key (known (value_at K.cmp self.old.rows key)) self.old.waiting) }
        ensures was { result ≡ value_at K.cmp self.old.rows key }
        ensures rows { IsSome result → self.new.rows ≡ with_value K.cmp self.old.rows key (stepped Format (known (value_at K.cmp self.old.rows key))) }
        ensures waiting { IsSome result → self.new.waiting ≡ lined Format key (known (value_at K.cmp self.old.rows key)) self.old.waiting }
        ensures none { result ≡ None → self.new ≡ self.old }
    {
        let Some(handle) = handle_of(&self.rows, &self.line, &key) else {
            return None;
        };
        let Ok(row) = self.rows.step_at(&mut self.line, handle, key, Step::Format) else {
            unreachable!()
        };
        Some(row)
    }

    /// The key's row is this now, where it had one. Nothing waits otherwise.
    pub fn put(&mut self, key: K, row: Row)
        requires { IsSome (value_at K.cmp self.old.rows key) }
        ensures rows { self.new.rows ≡ insert_entry K.cmp self.old.rows key row }
        ensures waiting { self.new.waiting ≡ self.old.waiting }
    {
        let Some(handle) = self.rows.handle(&key) else {
            unreachable!()
        };
        self.rows.put(handle, key, row);
    }

    /// The key's row is this now, where it had one, and it waits at the place for this value, where nothing did. Running
    /// out of memory changes nothing.
    pub fn begin(
        &mut self,
        key: K,
        row: Row,
        place: u32,
        value: Option<AttrId>,
    ) -> Result<(), NoMemory>
        requires there { IsSome (value_at K.cmp self.old.rows key) }
        requires free { value_at nat_cmp self.old.waiting place ≡ None }
        ensures rows { OnOk result (self.new.rows ≡ insert_entry K.cmp self.old.rows key row) }
        ensures waiting { OnOk result (self.new.waiting ≡ insert_entry nat_cmp self.old.waiting place (record { key = key; value = value })) }
        ensures err { OnErr result (self.new ≡ self.old) }
    {
        let Some(handle) = self.rows.handle(&key) else {
            unreachable!()
        };
        self.line.add(place, Waiting { key: handle, value })?;
        self.rows.put(handle, key, row);
        Ok(())
    }

    /// What waits at a place waits at this one, where nothing did, and its key's row is this now. Running out of memory
    /// changes nothing.
    pub fn bring(
        &mut self,
        was: u32,
        waiting: Waiting<K>,
        row: Row,
        place: u32,
    ) -> Result<(), NoMemory>
        requires waits { value_at nat_cmp self.old.waiting was ≡ Some waiting }
        requires free { value_at nat_cmp self.old.waiting place ≡ None }
        requires there { IsSome (value_at K.cmp self.old.rows waiting.key) }
        ensures rows { OnOk result (self.new.rows ≡ insert_entry K.cmp self.old.rows waiting.key row) }
        ensures waiting { OnOk result (self.new.waiting ≡ remove_entry (is_at (nat_cmp was)) (insert_entry nat_cmp self.old.waiting place waiting)) }
        ensures err { OnErr result (self.new ≡ self.old) }
    {
        let Some(handle) = self.rows.handle(&waiting.key) else {
            unreachable!()
        };
        let there = Waiting {
            key: handle,
            value: waiting.value,
        };
        self.line.add(place, there)?;
        self.rows.put(handle, waiting.key, row);
        self.line.remove(was, there);
        Ok(())
    }
}

/// The key's handle. Keys are formatted in the order in which they wait, so that of the first announcement is looked at first,
/// which needs no search.
fn handle_of<K: OutKey>(rows: &Rows<K>, line: &Line<Handle>, key: &K) -> Option<Handle>
    ensures handle { result ≡ value_at K.cmp rows.now.index key.now }
    ensures missing { result ≡ None → value_at K.cmp (rows_in rows.now) key.now ≡ None }
{
    if let Some(handle) = first_announcement(line) {
        if rows.is_at(handle, key) {
            return Some(handle);
        }
    }
    rows.handle(key)
}

/// The handle of the first announcement that waits.
fn first_announcement(line: &Line<Handle>) -> Option<Handle> {
    let value = line.first_value()?;
    line.first_of(Some(value))
}
