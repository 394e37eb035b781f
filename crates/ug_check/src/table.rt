ghost use Rattle.std.specs.Prelude.{◌≡◌, ◌==◌, [], length, Some, None, false, is_some, OnOk, IsSome, IfOk, IfSome, IfNone, option_copied, if◌then◌else◌};
ghost use Rattle.std.specs.Map.{keys_of};
ghost use Rattle.std.specs.BTreeMap.Range.{IsLeBy};
ghost use Rattle.std.specs.List.Sorted.{IsStrictlySortedBy};
ghost use Rattle.ug_types.specs.declared.key.Key as route_keys;
ghost use Rattle.ug_types.specs.Keys.{same_key};
ghost use Rattle.ug_types.specs.Messages.{message_of, changes_of, Updates};
ghost use Rattle.ug_message.specs.Tables.{applied, among};
ghost use Rattle.ug_check.specs.Rows.{reading_of, row_at, no_rows, IsAfter};
ghost use Rattle.ug_check.specs.Waiting.{with_waiting, with_change, AreV4, AreWaiting};

use crate::iter::RowIter;
use crate::row::{Announced, Row};
use crate::rows::{count_stale, put_v4, put_v6, remove_v4, remove_v6, stored_after, sweep};
use crate::sharing::Sharing;
use crate::waiting::{Change, add_each, announcement, are_v4, in_key_order};
use std::alloc::Global;
use std::collections::BTreeMap;
use std::marker::Model;
use std::mem::replace;
use std::rc::Rc;
use ug_short_key::{V4Key, V6Key};
use ug_types::{Attrs, Family, Item, Key, NoMemory, Update};

/// A table of so many rows is too large for the nearest caches, and announcements wait for it.
const LARGE: usize = 1 << 18;

/// So many messages that only announce, one after the other, are a long row of them.
const LONG: usize = 100;

/// What the messages of a session leave: for each key the attributes of its route, and which keys are stale since a
/// refresh began.
///
/// The routes of an UPDATE share what is kept of them, and so do UPDATEs that have the same attributes, one after the
/// other; a row is small. It tells how many refreshes had begun when its route was last announced, so that the begin of
/// a refresh touches none, and its end each once. The table counts too how many messages in a row only announced
/// routes, the first of each of IPv4.
#[derive(Drop)]
pub struct Table {
    alloc: Global,
    sharing: Sharing,
    v4: BTreeMap<V4Key, Row>,
    v6: BTreeMap<V6Key, Row>,
    refreshes: u64,
    refreshing: bool,
    in_a_row: usize,
}

impl Model for Table {
    ghost use Rattle.ug_check.specs.Rows.{Rows};
    ghost use Rattle.ug_check.specs.Stored.{rows_of, IsStored};

    ghost Value = { Rows };

    ghost view = { λ t. rows_of t.v4.entries t.v6.entries t.refreshes t.refreshing };

    ghost invariant = { λ t. IsStored t.v4.entries t.v6.entries t.refreshes };
}

impl Table {
    /// The table before any message. It takes no memory.
    pub fn new(alloc: Global) -> Table
        ensures { result ≡ no_rows }
    {
        Table {
            alloc,
            sharing: Sharing::new(),
            v4: BTreeMap::new(alloc),
            v6: BTreeMap::new(alloc),
            refreshes: 0,
            refreshing: false,
            in_a_row: 0,
        }
    }

    /// Does what a message says. An UPDATE removes the withdrawn routes, gives each announced one the attributes, and
    /// no key that it names is stale then. The begin of a refresh makes all rows stale, and its end removes those that
    /// still are. After running out of memory some of the changes may be made.
    pub fn apply(&mut self, item: &Item) -> Result<(), NoMemory>
        ensures table { OnOk result ((key : route_keys.Key) →
            (reading_of self.new).table key ≡ (applied (reading_of self.old) (message_of item.now)).table key) }
        ensures stale { OnOk result ((key : route_keys.Key) →
            (reading_of self.new).stale key ≡ (applied (reading_of self.old) (message_of item.now)).stale key) }
    {
        match item {
            Item::Update(update) => self.change(update)?,
            Item::Begin => self.begin_refresh()?,
            Item::End => self.end_refresh(),
            Item::Ignored => {}
        }
        Ok(())
    }

    /// Does what a message says, where some announcements still wait. Announcements of IPv4 are added to them. Where they
    /// are many, and before any other message, they are taken in.
    pub(crate) fn follow(&mut self, item: &Item, waiting: &mut Vec<Change>) -> Result<(), NoMemory>
        requires { AreWaiting self.old.refreshes waiting.old.items }
        ensures table { OnOk result ((key : route_keys.Key) →
            (reading_of (with_waiting self.new waiting.new.items)).table key ≡ (applied (reading_of (with_waiting self.old waiting.old.items)) (message_of item.now)).table key) }
        ensures stale { OnOk result ((key : route_keys.Key) →
            (reading_of (with_waiting self.new waiting.new.items)).stale key ≡ (applied (reading_of (with_waiting self.old waiting.old.items)) (message_of item.now)).stale key) }
        ensures waiting { AreWaiting self.new.refreshes waiting.new.items }
    {
        let announced = announcement(item);
        self.count_in_a_row(announced.is_some());
        match announced {
            // That all keys are of IPv4 is asked last: each is looked at.
            Some((keys, attrs)) if self.are_to_wait(keys, waiting.len()) && are_v4(keys) => {
                self.put_off(keys, attrs, waiting)
            }
            _ => {
                self.take_in(waiting)?;
                self.apply(item)
            }
        }
    }

    /// Counts a message: the row of announcements is longer by one that only announces, and any other ends it. All else
    /// stays as it is.
    fn count_in_a_row(&mut self, announces: bool)
        ensures same { self.new ≡ self.old }
    {
        self.in_a_row = if announces {
            self.in_a_row.saturating_add(1)
        } else {
            0
        };
    }

    /// Whether announcements of these keys are to wait, where so many do: not where those are many for the rows. Where
    /// none waits, they do behind a long row of announcements, but not where their place is found soon: in a small table
    /// or above all rows.
    fn are_to_wait(&self, keys: &[Key], count: usize) -> bool {
        if count == 0 {
            return self.in_a_row > LONG && self.len() >= LARGE && !self.ends_before(keys);
        }
        count < self.len() / 2
    }

    /// Whether the first of the keys stands above all rows of IPv4.
    fn ends_before(&self, keys: &[Key]) -> bool {
        let Some(first) = keys.first() else {
            return true;
        };
        match self.v4.last_key_value() {
            Some((last, _)) => last.widen() < *first,
            None => true,
        }
    }

    /// Puts off an announcement: these keys are added to those that wait, with the attributes, and the table stays as
    /// it is. After running out of memory some of the keys are added.
    fn put_off(
        &mut self,
        keys: &[Key],
        attrs: &Attrs,
        waiting: &mut Vec<Change>,
    ) -> Result<(), NoMemory>
        requires family { AreV4 keys.now }
        requires waiting { AreWaiting self.old.refreshes waiting.old.items }
        ensures row { OnOk result ((q : route_keys.Key) → row_at (with_waiting self.new waiting.new.items).rows q ≡ (if among keys.now q then Some attrs.now else row_at (with_waiting self.old waiting.old.items).rows q)) }
        ensures stale { OnOk result ((q : route_keys.Key) → among (with_waiting self.new waiting.new.items).stale q ≡ (if among keys.now q then false else among (with_waiting self.old waiting.old.items).stale q)) }
        ensures waiting { AreWaiting self.new.refreshes waiting.new.items }
        ensures same { self.new ≡ self.old }
    {
        let shared = self.share(attrs)?;
        add_each(waiting, keys, &shared)
    }

    /// Takes in the announcements that wait, and none does then. After running out of memory some may be lost.
    pub(crate) fn take_in(&mut self, waiting: &mut Vec<Change>) -> Result<(), NoMemory>
        requires { AreWaiting self.old.refreshes waiting.old.items }
        ensures row { OnOk result ((q : route_keys.Key) → row_at self.new.rows q ≡ row_at (with_waiting self.old waiting.old.items).rows q) }
        ensures stale { OnOk result ((q : route_keys.Key) → among self.new.stale q ≡ among (with_waiting self.old waiting.old.items).stale q) }
        ensures none { waiting.new.items ≡ [] }
    {
        if waiting.is_empty() {
            return Ok(());
        }
        let changes = replace(waiting, Vec::new(self.alloc));
        let sorted = in_key_order(changes)?;
        self.put_in_turn(sorted)
    }

    /// Makes these announcements in the table, one after the other. It leaves the keys that they don't name as they were.
    /// After running out of memory the first of them are made, and the others lost.
    fn put_in_turn(&mut self, changes: Vec<Change>) -> Result<(), NoMemory>
        requires { AreWaiting self.old.refreshes changes.items }
        ensures row { OnOk result ((q : route_keys.Key) → row_at self.new.rows q ≡ row_at (with_waiting self.old changes.items).rows q) }
        ensures stale { OnOk result ((q : route_keys.Key) → among self.new.stale q ≡ among (with_waiting self.old changes.items).stale q) }
    {
        let mut rest = changes.into_iter();
        while let Some(change) = rest.next() {
            self.put_change(change)?;
        }
        Ok(())
    }

    /// Makes an announcement in the table: its key gets its row, and isn't stale. It leaves all other keys as they were.
    fn put_change(&mut self, change: Change) -> Result<(), NoMemory>
        requires { change.row.shared.value.seen ≡ self.old.refreshes }
        ensures row { OnOk result ((q : route_keys.Key) → row_at self.new.rows q ≡ row_at (with_change change self.old).rows q) }
        ensures stale { OnOk result ((q : route_keys.Key) → among self.new.stale q ≡ among (with_change change self.old).stale q) }
        ensures refreshes { self.new.refreshes ≡ self.old.refreshes }
    {
        let Change { key, row } = change;
        self.put_row(&key.widen(), row)
    }

    fn change(&mut self, update: &Update) -> Result<(), NoMemory>
        ensures table { OnOk result ((key : route_keys.Key) →
            (reading_of self.new).table key ≡ (applied (reading_of self.old) (Updates (changes_of update.now))).table key) }
        ensures stale { OnOk result ((key : route_keys.Key) →
            (reading_of self.new).stale key ≡ (applied (reading_of self.old) (Updates (changes_of update.now))).stale key) }
    {
        let announced = update.announced.as_slice();
        self.withdraw(update.withdrawn.as_slice());
        match &update.attrs {
            Some(attrs) => self.announce(announced, attrs)?,
            // No UPDATE announces without attributes.
            None => self.withdraw(announced),
        }
        Ok(())
    }

    /// Removes the rows of these keys.
    fn withdraw(&mut self, keys: &[Key])
        ensures row { (q : route_keys.Key) → row_at self.new.rows q ≡ (if among keys.now q then None else row_at self.old.rows q) }
        ensures stale { (q : route_keys.Key) → among self.new.stale q ≡ (if among keys.now q then false else among self.old.stale q) }
    {
        for key in keys {
            self.remove(key);
        }
    }

    fn remove(&mut self, key: &Key)
        ensures row { (q : route_keys.Key) → row_at self.new.rows q ≡ (if same_key q key.now then None else row_at self.old.rows q) }
        ensures stale { (q : route_keys.Key) → among self.new.stale q ≡ (if same_key q key.now then false else among self.old.stale q) }
    {
        match key.prefix.family {
            Family::V4 => remove_v4(&mut self.v4, key),
            Family::V6 => remove_v6(&mut self.v6, key),
        }
    }

    /// Gives each of these keys the attributes. After running out of memory some have them.
    fn announce(&mut self, keys: &[Key], attrs: &Attrs) -> Result<(), NoMemory>
        ensures row { OnOk result ((q : route_keys.Key) → row_at self.new.rows q ≡ (if among keys.now q then Some attrs.now else row_at self.old.rows q)) }
        ensures stale { OnOk result ((q : route_keys.Key) → among self.new.stale q ≡ (if among keys.now q then false else among self.old.stale q)) }
    {
        let shared = self.share(attrs)?;
        self.put_each(keys, &shared)
    }

    /// The attributes, announced now.
    fn share(&mut self, attrs: &Attrs) -> Result<Rc<Announced>, NoMemory>
        ensures same { self.new ≡ self.old }
        ensures attrs { IfOk result (λ shared. shared.value.attrs ≡ attrs.now) }
        ensures seen { IfOk result (λ shared. shared.value.seen ≡ self.old.refreshes) }
    {
        self.sharing.share(self.alloc, attrs, self.refreshes)
    }

    fn put_each(&mut self, keys: &[Key], shared: &Rc<Announced>) -> Result<(), NoMemory>
        requires { shared.now.value.seen ≡ self.old.refreshes }
        ensures row { OnOk result ((q : route_keys.Key) → row_at self.new.rows q ≡ (if among keys.now q then Some shared.now.value.attrs else row_at self.old.rows q)) }
        ensures stale { OnOk result ((q : route_keys.Key) → among self.new.stale q ≡ (if among keys.now q then false else among self.old.stale q)) }
    {
        for key in keys {
            self.put(key, shared)?;
        }
        Ok(())
    }

    fn put(&mut self, key: &Key, shared: &Rc<Announced>) -> Result<(), NoMemory>
        requires { shared.now.value.seen ≡ self.old.refreshes }
        ensures row { OnOk result ((q : route_keys.Key) → row_at self.new.rows q ≡ (if same_key q key.now then Some shared.now.value.attrs else row_at self.old.rows q)) }
        ensures stale { OnOk result ((q : route_keys.Key) → among self.new.stale q ≡ (if same_key q key.now then false else among self.old.stale q)) }
        ensures refreshes { self.new.refreshes ≡ self.old.refreshes }
    {
        let row = Row {
            shared: shared.clone()?,
        };
        self.put_row(key, row)
    }

    fn put_row(&mut self, key: &Key, row: Row) -> Result<(), NoMemory>
        requires { row.shared.value.seen ≡ self.old.refreshes }
        ensures row { OnOk result ((q : route_keys.Key) → row_at self.new.rows q ≡ (if same_key q key.now then Some row.shared.value.attrs else row_at self.old.rows q)) }
        ensures stale { OnOk result ((q : route_keys.Key) → among self.new.stale q ≡ (if same_key q key.now then false else among self.old.stale q)) }
        ensures refreshes { self.new.refreshes ≡ self.old.refreshes }
    {
        match key.prefix.family {
            Family::V4 => put_v4(&mut self.v4, key, row),
            Family::V6 => put_v6(&mut self.v6, key, row),
        }
    }

    /// All rows are stale then. A refresh that can't be numbered any more, the 2^64th, counts as out of memory.
    fn begin_refresh(&mut self) -> Result<(), NoMemory>
        ensures row { OnOk result ((q : route_keys.Key) → row_at self.new.rows q ≡ row_at self.old.rows q) }
        ensures stale { OnOk result ((q : route_keys.Key) → among self.new.stale q ≡ is_some (row_at self.old.rows q)) }
    {
        if self.refreshes == u64::MAX {
            return Err(NoMemory);
        }
        self.refreshes += 1;
        self.refreshing = true;
        Ok(())
    }

    /// The stale rows go, and no key is stale then.
    fn end_refresh(&mut self)
        ensures row { (q : route_keys.Key) → row_at self.new.rows q ≡ (if among self.old.stale q then None else row_at self.old.rows q) }
        ensures stale { (q : route_keys.Key) → among self.new.stale q ≡ false }
    {
        if !self.refreshing {
            return;
        }
        sweep(&mut self.v4, self.refreshes);
        sweep(&mut self.v6, self.refreshes);
        self.refreshing = false;
    }

    /// The number of rows.
    pub fn len(&self) -> usize
        ensures count { result ≡ length self.now.rows }
        ensures ascending { IsStrictlySortedBy ⟦<Key as Ord>⟧.cmp (keys_of self.now.rows) }
    {
        self.v4.len() + self.v6.len()
    }

    /// Whether there is no row.
    pub fn is_empty(&self) -> bool
        ensures { result ≡ (length self.now.rows == 0) }
    {
        self.len() == 0
    }

    /// The number of stale keys. While a refresh is under way it looks at each row.
    pub fn stale_len(&self) -> usize
        ensures count { result ≡ length self.now.stale }
        ensures ascending { IsStrictlySortedBy ⟦<Key as Ord>⟧.cmp self.now.stale }
    {
        if !self.refreshing {
            return 0;
        }
        count_stale(&self.v4, self.refreshes) + count_stale(&self.v6, self.refreshes)
    }

    /// The least row above the key, or the first one; None exactly where there is none.
    pub fn row_after(&self, key: Option<&Key>) -> Option<(Key, &Attrs)>
        ensures row { IfSome result (λ row. row_at self.now.rows row.0 ≡ Some row.1.now) }
        ensures above { IfSome result (λ row. IsAfter ⟦<Key as Ord>⟧.cmp (option_copied key.entry) row.0) }
        ensures least { IfSome result (λ row. (q : route_keys.Key) → IsAfter ⟦<Key as Ord>⟧.cmp (option_copied key.entry) q →
            IsSome (row_at self.now.rows q) → IsLeBy ⟦<Key as Ord>⟧.cmp row.0 q) }
        ensures none { IfNone result ((q : route_keys.Key) → IsAfter ⟦<Key as Ord>⟧.cmp (option_copied key.entry) q → row_at self.now.rows q ≡ None) }
    {
        match stored_after(&self.v4, &self.v6, key) {
            Some((key, row)) => Some((key, &row.shared.as_ref().attrs)),
            None => None,
        }
    }

    /// The rows in key order.
    pub fn iter(&self) -> RowIter<'_>
        ensures rows { result ≡ self.now.rows }
        ensures ascending { IsStrictlySortedBy ⟦<Key as Ord>⟧.cmp (keys_of self.now.rows) }
    {
        RowIter {
            v4: self.v4.iter(),
            v6: self.v6.iter(),
        }
    }
}
