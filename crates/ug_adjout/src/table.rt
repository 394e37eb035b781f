//! The rows and the list of waiting keys, kept together.
ghost use Rattle.std.specs.Prelude.{◌≡◌, ◌+◌, ◌<◌, ◌≤◌, ◌^◌, nat_eq, is_some, true, false, ℕ, [], ◌∷◌, ◌++◌, length, OnOk, OnErr, IfOk, IfSome, IfNone, IsSome, Some, None, option_copied, slice_get, IsTrue, ◌↔◌};
ghost use Rattle.std.specs.Map.{keys_of};
ghost use Rattle.std.specs.List.{AllByRecursion};
ghost use Rattle.std.specs.Ordering.{nat_cmp};
ghost use Rattle.std.specs.BTreeMap.{insert_entry};
ghost use Rattle.ug_adjout.specs.Tables.{value_at, has, rows_after};
ghost use Rattle.ug_adjout.specs.Pending.{with_desired, with_formatted, with_all_forced, IsExact};
ghost use Rattle.ug_adjout.specs.Desiring.{AreForcedShown};
ghost use Rattle.ug_adjout.specs.Formatting.{fitting, withdrawals, announcements, alike, value_of_first};
ghost use Rattle.std.specs.Option.{option_map};
ghost use Rattle.ug_adjout.specs.Waits.{keys_for, first_announced, from_place, waiting_keys};
ghost use Rattle.ug_adjout.specs.Stored.{is_owed, IsFree, with_change, adj_of, with_one_forced, with_each_forced, IsShown, IsStored};

use crate::marked::Marked;
use crate::out_key::OutKey;
use crate::queue::Queue;
use crate::row::{Change, Row, known};
use crate::step::Step;
use std::alloc::Global;
use std::marker::Model;
use ug_intern::AttrId;
use ug_types::{KeyList, NoMemory, Sequence};

/// A quarter of the places that may be empty beside those of four times as many keys as wait.
const SPARE_PLACES: usize = 256;

/// The rows by key, the waiting keys by their places, and the place that the next one gets. A row waits exactly where
/// its key has a place in the list.
#[derive(Drop)]
pub struct Table<K: OutKey> {
    queue: Queue<K>,
    next: u32,
}

impl<K: OutKey> Model for Table<K> {
    ghost use Rattle.ug_adjout.specs.Stored.{Stored, IsStored};

    ghost Value = { Stored K };

    ghost view = { λ t. record { rows = t.queue.rows; waiting = t.queue.waiting; next = t.next } };

    ghost invariant = { λ t. IsStored K.cmp t.queue.rows t.queue.waiting t.next };
}

impl<K: OutKey> Table<K> {
    pub fn new(alloc: Global) -> Table<K>
        ensures rows { result.rows ≡ [] }
        ensures waiting { result.waiting ≡ [] }
    {
        Table {
            queue: Queue::new(alloc),
            next: 0,
        }
    }

    /// The key's row.
    pub fn row(&self, key: &K) -> Option<Row>
        ensures { result ≡ value_at K.cmp self.now.rows key.now }
    {
        self.queue.row(key)
    }

    /// A key that waits for nothing waits for this value from now on, at the end of the list. Running out of memory
    /// changes nothing.
    fn begin(&mut self, key: K, row: Row, desired: Option<AttrId>) -> Result<(), NoMemory>
        requires there { IsSome (value_at K.cmp self.old.rows key) }
        requires free { IsFree (value_at K.cmp self.old.rows key) }
        requires owed { is_owed row.formatted desired row.forced ≡ true }
        requires numbered { self.old.next + 1 < 2 ^ 32 }
        ensures rows { OnOk result (self.new.rows ≡ insert_entry K.cmp self.old.rows key (with_change row self.old.next desired)) }
        ensures waiting { OnOk result (self.new.waiting ≡ insert_entry nat_cmp self.old.waiting self.old.next (record { key = key; value = desired })) }
        ensures err { OnErr result (self.new ≡ self.old) }
    {
        let place = self.next;
        let row = Row {
            formatted: row.formatted,
            forced: row.forced,
            change: Some(Change { place, desired }),
        };
        self.queue.begin(key, row, place, desired)?;
        self.next += 1;
        Ok(())
    }

    /// A key that waits has this row now, and waits for the same at its place.
    fn keep(&mut self, key: K, row: Row, change: Change)
        requires waits { IfSome (value_at K.cmp self.old.rows key) (λ was. was.change ≡ Some change) }
        requires there { IsSome (value_at K.cmp self.old.rows key) }
        requires owed { is_owed row.formatted change.desired row.forced ≡ true }
        ensures rows { self.new.rows ≡ insert_entry K.cmp self.old.rows key (with_change row change.place change.desired) }
        ensures waiting { self.new.waiting ≡ self.old.waiting }
    {
        let _next = self.next;
        let row = Row {
            formatted: row.formatted,
            forced: row.forced,
            change: Some(change),
        };
        self.queue.put(key, row);
    }

    /// The first of those that wait from this place on, where none waits before `from`, waits at the place now. Its key
    /// and its order stay. Where those behind it begin. Running out of memory changes nothing.
    fn bring(&mut self, place: u32, from: u32) -> Result<u32, NoMemory>
        requires some { 0 < length (from_place place self.old.waiting) }
        requires from { from_place from self.old.waiting ≡ from_place place self.old.waiting }
        ensures same { adj_of self.new.rows self.new.waiting ≡ adj_of self.old.rows self.old.waiting }
        ensures passed { OnOk result (length (from_place (place + 1) self.new.waiting) + 1 ≡ length (from_place place self.old.waiting)) }
        ensures from { IfOk result (λ behind. from_place behind self.new.waiting ≡ from_place (place + 1) self.new.waiting) }
    {
        let _next = self.next;
        let Some((was, waiting)) = self.queue.first_from(from) else {
            unreachable!()
        };
        if was == place {
            return Ok(place + 1);
        }
        let Some(row) = self.queue.row(&waiting.key) else {
            unreachable!()
        };
        let moved = Row {
            formatted: row.formatted,
            forced: row.forced,
            change: Some(Change {
                place,
                desired: waiting.value,
            }),
        };
        self.queue.bring(was, waiting, moved, place)?;
        Ok(was + 1)
    }

    /// All that wait are numbered anew from 0, in their order. After running out of memory some are.
    fn renumber(&mut self) -> Result<(), NoMemory>
        ensures same { adj_of self.new.rows self.new.waiting ≡ adj_of self.old.rows self.old.waiting }
        ensures room { OnOk result (self.new.next + 1 < 2 ^ 32) }
    {
        let _next = self.next;
        let waiting = self.queue.waiting_len();
        if waiting >= u32::MAX as usize {
            return Err(NoMemory);
        }
        let waiting = waiting as u32;
        let mut from = 0;
        for place in 0..waiting {
            from = self.bring(place, from)?;
        }
        self.next = waiting;
        Ok(())
    }

    /// There is a place behind all others now, and few places are empty: all that wait are numbered anew where their
    /// numbers have come to the end, or more than four times as many were given as keys wait. Each that waits is searched
    /// for a few times then, and three times as many places at least were given for it and are free again.
    fn make_room(&mut self) -> Result<(), NoMemory>
        ensures same { adj_of self.new.rows self.new.waiting ≡ adj_of self.old.rows self.old.waiting }
        ensures room { OnOk result (self.new.next + 1 < 2 ^ 32) }
    {
        let next = self.next;
        let waiting = self.queue.waiting_len();
        if next == u32::MAX || (next / 4) as usize > waiting + SPARE_PLACES {
            self.renumber()?;
        }
        Ok(())
    }

    /// A key is desired so from now on. What it was before. Running out of memory changes nothing.
    pub fn want(&mut self, key: K, desired: Option<AttrId>) -> Result<Option<AttrId>, NoMemory>
        ensures was { IfOk result (λ was. was ≡ value_at K.cmp (adj_of self.old.rows self.old.waiting).desired key) }
        ensures ok { OnOk result (adj_of self.new.rows self.new.waiting ≡ with_desired K.cmp nat_eq (adj_of self.old.rows self.old.waiting) key desired) }
        ensures err { OnErr result (adj_of self.new.rows self.new.waiting ≡ adj_of self.old.rows self.old.waiting) }
    {
        self.make_room()?;
        self.want_numbered(key, desired)
    }

    /// The same where there is a place for the key. A key that doesn't begin to wait leaves its place empty.
    fn want_numbered(&mut self, key: K, desired: Option<AttrId>) -> Result<Option<AttrId>, NoMemory>
        requires { self.old.next + 1 < 2 ^ 32 }
        ensures was { IfOk result (λ was. was ≡ value_at K.cmp (adj_of self.old.rows self.old.waiting).desired key) }
        ensures ok { OnOk result (adj_of self.new.rows self.new.waiting ≡ with_desired K.cmp nat_eq (adj_of self.old.rows self.old.waiting) key desired) }
        ensures err { OnErr result (self.new ≡ self.old) }
    {
        let place = self.next;
        let step = Step::Want(Change { place, desired });
        let was = self.queue.step(key, step)?;
        self.next = place + 1;
        Ok(known(was).desired())
    }

    /// A key that waits is formatted as it is desired, and forced no more. None where it doesn't wait, and then nothing
    /// changes.
    pub fn mark(&mut self, key: K) -> Option<Marked>
        ensures waits { is_some result ≡ has K.cmp (waiting_keys self.old.waiting) key }
        ensures ok { IfSome result (λ _. adj_of self.new.rows self.new.waiting ≡ with_formatted K.cmp nat_eq (adj_of self.old.rows self.old.waiting) key) }
        ensures was { IfSome result (λ marked. marked.was ≡ value_at K.cmp (adj_of self.old.rows self.old.waiting).formatted key) }
        ensures now { IfSome result (λ marked. marked.now ≡ value_at K.cmp (adj_of self.old.rows self.old.waiting).desired key) }
        ensures none { IfNone result (self.new ≡ self.old) }
    {
        let _next = self.next;
        let Some(row) = self.queue.format(key) else {
            return None;
        };
        let Some(change) = row.change else {
            return None;
        };
        Some(Marked {
            was: row.formatted,
            now: change.desired,
        })
    }

    /// All keys of both tables are forced. After running out of memory some are.
    pub fn force_all(&mut self, alloc: Global) -> Result<(), NoMemory>
        ensures ok { OnOk result (adj_of self.new.rows self.new.waiting ≡ with_all_forced K.cmp nat_eq (adj_of self.old.rows self.old.waiting)) }
    {
        let keys = self.keys(alloc)?;
        self.force_each(keys.as_slice())?;
        Ok(())
    }

    /// The keys that have a row.
    fn keys(&self, alloc: Global) -> Result<KeyList<K>, NoMemory>
        ensures keys { IfOk result (λ keys. keys.items ≡ keys_of self.now.rows) }
        ensures stored { IsStored K.cmp self.now.rows self.now.waiting self.now.next }
    {
        let _next = self.next;
        self.queue.keys(alloc)
    }

    /// These keys are forced, which all have a row.
    fn force_each(&mut self, keys: &[K]) -> Result<(), NoMemory>
        requires { AllByRecursion (λ key. IsShown K.cmp (adj_of self.old.rows self.old.waiting) key) keys.now }
        ensures ok { OnOk result (adj_of self.new.rows self.new.waiting ≡ with_each_forced K.cmp (adj_of self.old.rows self.old.waiting) keys.now) }
    {
        for key in keys {
            self.make_room()?;
            self.force(*key)?;
        }
        Ok(())
    }

    /// The key is forced, which has a row. Running out of memory changes nothing.
    fn force(&mut self, key: K) -> Result<(), NoMemory>
        requires shown { IsShown K.cmp (adj_of self.old.rows self.old.waiting) key }
        requires numbered { self.old.next + 1 < 2 ^ 32 }
        ensures ok { OnOk result (adj_of self.new.rows self.new.waiting ≡ with_one_forced K.cmp (adj_of self.old.rows self.old.waiting) key) }
    {
        let _next = self.next;
        let Some(row) = self.row(&key) else {
            unreachable!()
        };
        let forced = Row {
            formatted: row.formatted,
            forced: true,
            change: row.change,
        };
        match row.change {
            None => {
                self.begin(key, forced, row.formatted)?;
                Ok(())
            }
            Some(change) => {
                self.keep(key, forced, change);
                Ok(())
            }
        }
    }

    /// What was formatted for the key.
    pub fn formatted(&self, key: &K) -> Option<AttrId>
        ensures { result ≡ value_at K.cmp (adj_of self.now.rows self.now.waiting).formatted key.now }
    {
        let _next = self.next;
        match self.row(key) {
            Some(row) => row.formatted,
            None => None,
        }
    }

    /// What the key is desired with.
    pub fn desired(&self, key: &K) -> Option<AttrId>
        ensures { result ≡ value_at K.cmp (adj_of self.now.rows self.now.waiting).desired key.now }
    {
        let _next = self.next;
        match self.row(key) {
            Some(row) => match row.change {
                Some(change) => change.desired,
                None => row.formatted,
            },
            None => None,
        }
    }

    /// How many keys are formatted.
    pub fn formatted_len(&self) -> usize
        ensures { result ≡ length (adj_of self.now.rows self.now.waiting).formatted }
    {
        self.queue.formatted_len()
    }

    /// It does nothing. What is so of each Adj-RIB-Out that is stored.
    pub fn know(&self)
        ensures exact { IsExact K.cmp nat_eq (adj_of self.now.rows self.now.waiting) }
        ensures shown { AreForcedShown K.cmp (adj_of self.now.rows self.now.waiting) }
    {
        let _next = self.next;
    }

    /// How many keys have a row, formatted or desired.
    #[tactic(auto, using(crate::proofs::Counts::counted_most))]
    pub fn row_count(&self) -> usize
        ensures formatted { length (adj_of self.now.rows self.now.waiting).formatted ≤ result }
        ensures desired { length (adj_of self.now.rows self.now.waiting).desired ≤ result }
        ensures small { result < 2 ^ 64 }
    {
        self.queue.len()
    }

    /// Whether a key is forced.
    pub fn has_forced(&self) -> bool
        ensures { IsTrue result ↔ (0 < length (adj_of self.now.rows self.now.waiting).forced) }
    {
        self.queue.forced_len() > 0
    }

    /// The least formatted row above the key, or the first one.
    pub fn formatted_after(&self, key: Option<&K>) -> Option<(K, AttrId)>
        ensures { result ≡ slice_get (rows_after K.cmp (option_copied key.entry) (adj_of self.now.rows self.now.waiting).formatted) 0 }
    {
        self.queue.formatted_after(key)
    }

    /// The least desired row above the key, or the first one.
    pub fn desired_after(&self, key: Option<&K>) -> Option<(K, AttrId)>
        ensures { result ≡ slice_get (rows_after K.cmp (option_copied key.entry) (adj_of self.now.rows self.now.waiting).desired) 0 }
    {
        self.queue.desired_after(key)
    }

    /// An equal one of its own.
    pub fn copy(&self, alloc: Global) -> Result<Table<K>, NoMemory>
        ensures rows { IfOk result (λ copy. copy.rows ≡ self.now.rows) }
        ensures waiting { IfOk result (λ copy. copy.waiting ≡ self.now.waiting) }
    {
        Ok(Table {
            queue: self.queue.copy(alloc)?,
            next: self.next,
        })
    }

    /// Whether a packet is owed for the key.
    pub fn is_pending(&self, key: &K) -> bool
        ensures { result ≡ has K.cmp (waiting_keys self.now.waiting) key.now }
    {
        let _next = self.next;
        match self.row(key) {
            Some(row) => row.change.is_some(),
            None => false,
        }
    }

    /// How many keys wait.
    pub fn waiting_len(&self) -> usize
        ensures { result ≡ length (waiting_keys self.now.waiting) }
    {
        self.queue.waiting_len()
    }

    /// The first keys that wait for their withdrawal, as many as have room.
    pub fn withdrawals(&self, alloc: Global, room: usize) -> Result<KeyList<K>, NoMemory>
        ensures { IfOk result (λ keys. keys.items ≡ fitting K.bytes room (withdrawals K.cmp (adj_of self.now.rows self.now.waiting))) }
    {
        self.queue.first_for(alloc, None, room)
    }

    /// The first key that waits for its announcement and those of its value, as many as have room.
    pub fn alike(&self, alloc: Global, room: usize) -> Result<KeyList<K>, NoMemory>
        ensures { IfOk result (λ keys. keys.items ≡ fitting K.bytes room (alike K.cmp nat_eq (adj_of self.now.rows self.now.waiting))) }
    {
        match self.queue.first_value() {
            None => Ok(Sequence::new(alloc)),
            Some(value) => self.queue.first_for(alloc, Some(value), room),
        }
    }

    /// The first key that waits for its withdrawal.
    pub fn first_withdrawal(&self) -> Option<K>
        ensures { result ≡ slice_get (withdrawals K.cmp (adj_of self.now.rows self.now.waiting)) 0 }
    {
        self.queue.first_of(None)
    }

    /// The first key that waits for its announcement, and the value that it waits for.
    pub fn first_announcement(&self) -> Option<(K, AttrId)>
        ensures key { option_map (λ e. e.0) result ≡ slice_get (alike K.cmp nat_eq (adj_of self.now.rows self.now.waiting)) 0 }
        ensures value { option_map (λ e. e.1) result ≡ value_of_first (value_at K.cmp (adj_of self.now.rows self.now.waiting).desired) (announcements K.cmp (adj_of self.now.rows self.now.waiting)) }
    {
        let Some(value) = self.queue.first_value() else {
            return None;
        };
        let Some(key) = self.queue.first_of(Some(value)) else {
            unreachable!()
        };
        Some((key, value))
    }
}
