//! The list of waiting keys.
ghost use Rattle.std.specs.Prelude.{◌≡◌, ◌<◌, ◌^◌, [], length, OnOk, OnErr, IsOk, IfOk, IfSome, IfNone, Some, None, slice_get};
ghost use Rattle.std.specs.Map.{remove_entry};
ghost use Rattle.std.specs.Ordering.{nat_cmp};
ghost use Rattle.std.specs.BTreeMap.{insert_entry, is_at};
ghost use Rattle.ug_adjout.specs.Tables.{value_at, with_value};
ghost use Rattle.ug_adjout.specs.Formatting.{fitting};
ghost use Rattle.ug_adjout.specs.Waits.{keys_for, first_announced, from_place};
ghost use Rattle.ug_adjout.specs.Seats.{named, seat_at};
ghost use Rattle.ug_adjout.specs.Places.{IsFirstFrom, IsNoneBetween, AreNumbered, withdraws, announces};
ghost use Rattle.ug_adjout.specs.Stepped.{wanted_in, lined, IsReady, IsReadyBy};
ghost use Rattle.ug_adjout.specs.declared.step.Step.TheVariants.{Want, Format};

use crate::by_place::ByPlace;
use crate::copied::copied;
use crate::first::first_from;
use crate::kept_slot::KeptSlot;
use crate::out_key::OutKey;
use crate::row::{Change, Row};
use crate::seat::{Handle, Seat};
use crate::seats::key_at;
use crate::slot::Slot;
use crate::step::{Step, owes};
use crate::waiting::Waiting;
use slab::Slab;
use std::alloc::Global;
use std::collections::BTreeMap;
use std::marker::Model;
use std::ops::Bound;
use ug_intern::AttrId;
use ug_types::{KeyList, NoMemory, Sequence};

/// A number behind all places.
const PAST_ALL: u64 = 4_294_967_296;

/// The waiting keys by what they wait for and then by their places, and beside them a row of the values of those that wait
/// for an announcement, by place, so that the first of these is found at once. Contracts see what waits, by place.
#[derive(Drop)]
pub struct Line<K> {
    keys: BTreeMap<KeptSlot, K>,
    announced: ByPlace,
}

impl<K> Model for Line<K> {
    ghost use Rattle.std.specs.Prelude.{List, ℕ};
    ghost use Rattle.ug_adjout.specs.declared.waiting.Waiting.{Waiting as Waits};
    ghost use Rattle.ug_adjout.specs.Places.{by_place, IsLine};

    ghost Value = { List (ℕ × Waits K) };

    ghost view = { λ l. by_place l.keys.entries };

    ghost invariant = { λ l. IsLine l.keys.entries l.announced };
}

impl<K: Copy + Drop> Line<K> {
    #[tactic(auto, using(crate::proofs::Values::nothing_waits))]
    pub fn new(alloc: Global) -> Line<K>
        ensures { result ≡ [] }
    {
        Line {
            keys: BTreeMap::new(alloc),
            announced: ByPlace::new(alloc),
        }
    }

    /// An equal one of its own.
    pub fn copy(&self, alloc: Global) -> Result<Line<K>, NoMemory>
        ensures { IfOk result (λ copy. copy ≡ self.now) }
    {
        Ok(Line {
            keys: copied(alloc, &self.keys)?,
            announced: self.announced.copy(alloc)?,
        })
    }

    /// How many wait.
    pub fn len(&self) -> usize
        ensures len { result ≡ length self.now }
        ensures small { result < 2 ^ 63 }
    {
        self.keys.len()
    }

    /// This waits at the place from now on, where nothing does. Running out of memory changes nothing.
    pub fn add(&mut self, place: u32, waiting: Waiting<K>) -> Result<(), NoMemory>
        requires { value_at nat_cmp self.old place ≡ None }
        ensures ok { OnOk result (self.new ≡ insert_entry nat_cmp self.old place waiting) }
        ensures err { OnErr result (self.new ≡ self.old) }
    {
        let slot = KeptSlot::of(Slot {
            value: waiting.value,
            place,
        });
        self.keys.insert(slot, waiting.key)?;
        let Some(id) = waiting.value else {
            return Ok(());
        };
        let Ok(_) = self.announced.insert(place, id) else {
            self.keys.remove(&slot);
            return Err(NoMemory);
        };
        Ok(())
    }

    /// What waits at the place waits for this value now. Running out of memory changes nothing.
    pub fn change(
        &mut self,
        place: u32,
        was: Waiting<K>,
        value: Option<AttrId>,
    ) -> Result<(), NoMemory>
        requires { value_at nat_cmp self.old place ≡ Some was }
        ensures ok { OnOk result (self.new ≡ insert_entry nat_cmp self.old place (record { key = was.key; value = value })) }
        ensures err { OnErr result (self.new ≡ self.old) }
    {
        let _len = self.keys.len();
        if was.value == value {
            return Ok(());
        }
        let slot = KeptSlot::of(Slot { value, place });
        self.keys.insert(slot, was.key)?;
        let Ok(()) = announce(&mut self.announced, place, value) else {
            self.keys.remove(&slot);
            return Err(NoMemory);
        };
        let left = KeptSlot::of(Slot {
            value: was.value,
            place,
        });
        self.keys.remove(&left);
        Ok(())
    }

    /// What waits at the place waits no more.
    pub fn remove(&mut self, place: u32, was: Waiting<K>)
        requires { value_at nat_cmp self.old place ≡ Some was }
        ensures { self.new ≡ remove_entry (is_at (nat_cmp place)) self.old }
    {
        let slot = KeptSlot::of(Slot {
            value: was.value,
            place,
        });
        self.keys.remove(&slot);
        if was.value.is_some() {
            self.announced.remove(place);
        }
    }

    /// What the step does with the key of this row. Running out of memory changes nothing, and comes only where the key
    /// is desired anew.
    pub fn step(&mut self, key: K, row: Row, step: Step) -> Result<(), NoMemory>
        requires { IsReady step key row self.old }
        ensures ok { OnOk result (self.new ≡ lined step key row self.old) }
        ensures err { OnErr result (self.new ≡ self.old) }
        ensures format { step ≡ Format → IsOk result }
    {
        match step {
            Step::Want(want) => self.want(key, row, want),
            Step::Format => {
                self.format(key, row);
                Ok(())
            }
        }
    }

    /// The key of this row is desired anew.
    fn want(&mut self, key: K, row: Row, want: Change) -> Result<(), NoMemory>
        requires { IsReadyBy (Want want) key row.change self.old }
        ensures ok { OnOk result (self.new ≡ wanted_in key row want row.change self.old) }
        ensures err { OnErr result (self.new ≡ self.old) }
    {
        let _len = self.keys.len();
        let desired = want.desired;
        let Some(change) = row.change else {
            if row.formatted == desired {
                return Ok(());
            }
            let waiting = Waiting {
                key,
                value: desired,
            };
            return self.add(want.place, waiting);
        };
        let was = Waiting {
            key,
            value: change.desired,
        };
        if owes(row, desired) {
            return self.change(change.place, was, desired);
        }
        self.remove(change.place, was);
        Ok(())
    }

    /// The key of this row is formatted.
    fn format(&mut self, key: K, row: Row)
        requires { IsReady Format key row self.old }
        ensures { self.new ≡ lined Format key row self.old }
    {
        let _len = self.keys.len();
        let Some(change) = row.change else {
            return;
        };
        let was = Waiting {
            key,
            value: change.desired,
        };
        self.remove(change.place, was);
    }

    /// The first key that waits for this value, or for its withdrawal.
    pub fn first_of(&self, value: Option<AttrId>) -> Option<K>
        ensures { result ≡ slice_get (keys_for value self.now) 0 }
    {
        let start = KeptSlot::of(Slot { value, place: 0 });
        let bounds = (Bound::Included(start), Bound::Unbounded);
        let Some((slot, key)) = self.keys.range(bounds).next() else {
            return None;
        };
        if slot.value() != value {
            return None;
        }
        Some(*key)
    }

    /// The value of the first announcement that waits.
    pub fn first_value(&self) -> Option<AttrId>
        ensures { result ≡ first_announced self.now }
    {
        self.announced.first()
    }

    /// The first withdrawal that waits from this place on.
    fn withdrawal_from(&self, place: u32) -> Option<(u32, Waiting<K>)>
        ensures { IsFirstFrom withdraws place self.now result }
    {
        let start = KeptSlot::of(Slot { value: None, place });
        let Some((slot, key)) = first_from(&self.keys, start) else {
            return None;
        };
        if slot.value().is_some() {
            return None;
        }
        let waiting = Waiting {
            key: *key,
            value: None,
        };
        Some((slot.place(), waiting))
    }

    /// The first announcement that waits from this place on and before the end.
    fn announcement_between(&self, place: u32, end: u64) -> Option<(u32, Waiting<K>)>
        ensures first { IfSome result (λ e. IsFirstFrom announces place self.now (Some e)) }
        ensures before { IfSome result (λ e. e.0 < end) }
        ensures none { IfNone result (IsNoneBetween announces place end self.now) }
        ensures numbered { AreNumbered announces self.now }
    {
        let Some((at, id)) = self.announced.first_between(place, end) else {
            return None;
        };
        let slot = KeptSlot::of(Slot {
            value: Some(id),
            place: at,
        });
        let Some(key) = self.keys.get(&slot) else {
            unreachable!()
        };
        let waiting = Waiting {
            key: *key,
            value: Some(id),
        };
        Some((at, waiting))
    }

    /// The first place from this one on at which something waits, and what waits there.
    pub fn first_from(&self, place: u32) -> Option<(u32, Waiting<K>)>
        ensures { result ≡ slice_get (from_place place self.now) 0 }
    {
        let _len = self.keys.len();
        let Some(withdrawal) = self.withdrawal_from(place) else {
            return self.announcement_between(place, PAST_ALL);
        };
        let end = u64::from(withdrawal.0);
        let Some(announcement) = self.announcement_between(place, end) else {
            return Some(withdrawal);
        };
        Some(announcement)
    }
}

impl Line<Handle> {
    /// The first keys that wait for this value, or for their withdrawal, as many as have room.
    pub fn first_for<K: OutKey>(
        &self,
        seats: &Slab<Seat<K>>,
        alloc: Global,
        value: Option<AttrId>,
        room: usize,
    ) -> Result<KeyList<K>, NoMemory>
        ensures { IfOk result (λ keys. keys.items ≡ fitting K.bytes room (keys_for value (named (seat_at seats.now.slots) self.now))) }
    {
        let mut keys = Sequence::new(alloc);
        let mut left = room;
        let start = KeptSlot::of(Slot { value, place: 0 });
        for (slot, handle) in self.keys.range((Bound::Included(start), Bound::Unbounded)) {
            if slot.value() != value {
                break;
            }
            let Some(key) = key_at(seats, *handle) else {
                continue;
            };
            let weight = key.weight();
            if weight > left {
                break;
            }
            left -= weight;
            let Ok(()) = keys.push(key) else {
                return Err(NoMemory);
            };
        }
        Ok(keys)
    }
}

/// This value, or none, stands at the place now. Running out of memory changes nothing.
fn announce(values: &mut ByPlace, place: u32, value: Option<AttrId>) -> Result<(), NoMemory>
    ensures ok { OnOk result (values.new ≡ with_value nat_cmp values.old place value) }
    ensures err { OnErr result (values.new ≡ values.old) }
{
    match value {
        Some(id) => {
            values.insert(place, id)?;
        }
        None => {
            values.remove(place);
        }
    }
    Ok(())
}
