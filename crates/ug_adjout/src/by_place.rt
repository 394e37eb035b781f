//! Values by place.
ghost use Rattle.std.specs.Prelude.{◌≡◌, ◌+◌, ◌-◌, ◌<◌, ◌≤◌, ◌^◌, ℕ, [], ◌++◌, replicate, length, slice_get, IfSome, IfNone, IfOk, OnOk, OnErr, IsSome, Some, None};
ghost use Rattle.std.specs.Option.{option_map};
ghost use Rattle.std.specs.Map.{remove_entry};
ghost use Rattle.std.specs.Ordering.{nat_cmp};
ghost use Rattle.std.specs.BTreeMap.{insert_entry, is_at};
ghost use Rattle.ug_adjout.specs.Tables.{value_at};
ghost use Rattle.ug_adjout.specs.Placed.{placed};

use std::alloc::Global;
use std::collections::VecDeque;
use std::marker::Model;
use ug_intern::AttrId;
use ug_types::NoMemory;

/// How many places there is room for where none has a value any more.
const KEPT_ROOM: usize = 1_024;

/// Values by place, in a row from the first place that has one to the last. Contracts see the places that have a value.
/// A place between that has none takes as much memory, so places are to be given close to one another.
#[derive(Drop)]
pub struct ByPlace {
    values: VecDeque<Option<AttrId>>,
    start: u64,
}

impl Model for ByPlace {
    ghost use Rattle.std.specs.Prelude.{List, ℕ, length, ◌+◌, ◌≤◌, ◌^◌};
    ghost use Rattle.ug_adjout.specs.Placed.{placed};

    ghost Value = { List (ℕ × ℕ) };

    ghost view = { λ b. placed b.start b.values.items };

    ghost invariant = { λ b. b.start + length b.values.items ≤ 2 ^ 32 };
}

impl ByPlace {
    pub fn new(alloc: Global) -> ByPlace
        ensures { result ≡ [] }
    {
        ByPlace {
            values: VecDeque::new(alloc),
            start: 0,
        }
    }

    /// An equal one of its own.
    pub fn copy(&self, alloc: Global) -> Result<ByPlace, NoMemory>
        ensures { IfOk result (λ copy. copy ≡ self.now) }
    {
        Ok(ByPlace {
            values: copied_row(&self.values, alloc)?,
            start: self.start,
        })
    }

    /// The place has this value now. Running out of memory changes nothing.
    pub fn insert(&mut self, place: u32, value: AttrId) -> Result<(), NoMemory>
        ensures ok { OnOk result (self.new ≡ insert_entry nat_cmp self.old place value) }
        ensures err { OnErr result (self.new ≡ self.old) }
    {
        let place = u64::from(place);
        let start = make_place(&mut self.values, self.start, place)?;
        self.start = start;
        self.values[(place - start) as usize] = Some(value);
        Ok(())
    }

    /// The place has no value now.
    pub fn remove(&mut self, place: u32)
        ensures { self.new ≡ remove_entry (is_at (nat_cmp place)) self.old }
    {
        let place = u64::from(place);
        if place < self.start {
            return;
        }
        let at = (place - self.start) as usize;
        if at >= self.values.len() {
            return;
        }
        self.values[at] = None;
        let start = trim_front(&mut self.values, self.start);
        self.start = start;
        trim_back(&mut self.values, start);
    }

    /// The value at the first place that has one.
    pub fn first(&self) -> Option<AttrId>
        ensures { result ≡ option_map (λ e. e.1) (slice_get self.now 0) }
    {
        for at in 0..self.values.len() {
            if let Some(value) = self.values[at] {
                return Some(value);
            }
        }
        None
    }

    /// The first place from this one on and before the end that has a value, and the value.
    pub fn first_between(&self, place: u32, end: u64) -> Option<(u32, AttrId)>
        ensures value { IfSome result (λ e. value_at nat_cmp self.now e.0 ≡ Some e.1) }
        ensures above { IfSome result (λ e. place ≤ e.0) }
        ensures before { IfSome result (λ e. e.0 < end) }
        ensures least { IfSome result (λ e. (q : ℕ) → place ≤ q → IsSome (value_at nat_cmp self.now q) → e.0 ≤ q) }
        ensures none { IfNone result ((q : ℕ) → place ≤ q → q < end → value_at nat_cmp self.now q ≡ None) }
        ensures small { (q : ℕ) → IsSome (value_at nat_cmp self.now q) → q < 2 ^ 32 }
    {
        let from = u64::from(place).max(self.start);
        let end = end.min(self.start + self.values.len() as u64);
        for at in from..end {
            if let Some(value) = self.values[(at - self.start) as usize] {
                return Some((at as u32, value));
            }
        }
        None
    }
}

/// The same row.
fn copied_row(
    row: &VecDeque<Option<AttrId>>,
    alloc: Global,
) -> Result<VecDeque<Option<AttrId>>, NoMemory>
    ensures { IfOk result (λ copy. copy.items ≡ row.now.items) }
{
    let mut copy = VecDeque::with_capacity(alloc, row.len())?;
    for at in 0..row.len() {
        copy.push_back(row[at])?;
    }
    Ok(copy)
}

/// The row has the place now. Where it begins. Running out of memory changes nothing.
fn make_place(
    values: &mut VecDeque<Option<AttrId>>,
    start: u64,
    place: u64,
) -> Result<u64, NoMemory>
    requires fits { start + length values.old.items ≤ 2 ^ 32 }
    requires small { place < 2 ^ 32 }
    ensures same { IfOk result (λ now. placed now values.new.items ≡ placed start values.old.items) }
    ensures from { IfOk result (λ now. now ≤ place) }
    ensures to { IfOk result (λ now. place < now + length values.new.items) }
    ensures fits { IfOk result (λ now. now + length values.new.items ≤ 2 ^ 32) }
    ensures err { OnErr result (values.new.items ≡ values.old.items) }
{
    if values.is_empty() {
        values.push_back(None)?;
        return Ok(place);
    }
    if place < start {
        grow_front(values, (start - place) as usize)?;
        return Ok(place);
    }
    let needed = (place - start) as usize + 1;
    if values.len() < needed {
        let more = needed - values.len();
        grow_back(values, more)?;
    }
    Ok(start)
}

/// So many places without a value come to the front of the row. Running out of memory changes nothing.
fn grow_front(values: &mut VecDeque<Option<AttrId>>, more: usize) -> Result<(), NoMemory>
    ensures ok { OnOk result (values.new.items ≡ replicate more None ++ values.old.items) }
    ensures err { OnErr result (values.new.items ≡ values.old.items) }
{
    values.try_reserve(more)?;
    for _ in 0..more {
        values.push_front_reserved(None);
    }
    Ok(())
}

/// So many places without a value come to its end. Running out of memory changes nothing.
fn grow_back(values: &mut VecDeque<Option<AttrId>>, more: usize) -> Result<(), NoMemory>
    ensures ok { OnOk result (values.new.items ≡ values.old.items ++ replicate more None) }
    ensures err { OnErr result (values.new.items ≡ values.old.items) }
{
    values.try_reserve(more)?;
    for _ in 0..more {
        values.push_back_reserved(None);
    }
    Ok(())
}

/// Places without a value go from the front of the row. Where it begins now.
fn trim_front(values: &mut VecDeque<Option<AttrId>>, start: u64) -> u64
    requires { start + length values.old.items ≤ 2 ^ 32 }
    ensures same { placed result values.new.items ≡ placed start values.old.items }
    ensures fits { result + length values.new.items ≤ 2 ^ 32 }
{
    let mut now = start;
    for _ in 0..values.len() {
        let Some(first) = values.front() else {
            return now;
        };
        if first.is_some() {
            return now;
        }
        values.pop_front();
        now += 1;
    }
    now
}

/// Places without a value go from the end of the row, and memory that it hasn't needed of late.
fn trim_back(values: &mut VecDeque<Option<AttrId>>, start: u64)
    ensures same { placed start values.new.items ≡ placed start values.old.items }
    ensures len { length values.new.items ≤ length values.old.items }
{
    for _ in 0..values.len() {
        let Some(last) = values.back() else {
            return;
        };
        if last.is_some() {
            return;
        }
        values.pop_back();
    }
    values.shrink_to(KEPT_ROOM);
}
