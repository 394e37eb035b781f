//! The list over its segments.

ghost use Rattle.std.specs.Prelude.{◌≡◌, ◌+◌, ◌-◌, ◌<◌, ◌≤◌, [], ◌∷◌, ◌++◌, length, OnOk, IfNone, IfSome, IsOk, slice_get, Some, option_copied, IsTrue, ◌↔◌};

use crate::row::{add_segment, free_all, free_first, look, put, take_out};
use crate::segment::{SEGMENT_PLACES, Segment};
use std::alloc::Global;
use std::collections::VecDeque;
use std::marker::Model;
use ug_types::NoMemory;

/// The most segments of a chain: so many that their places have a number each.
const MOST_SEGMENTS: usize = 1 << 57;

/// A list that grows at its end and is taken from its front. Contracts see the items in order, and beside them
/// `spare`: the number of further items that it takes in without memory. An item stays in its place until it is taken.
pub struct SegChain<T> {
    segments: VecDeque<Segment<T>>,
    head: usize,
    len: usize,
    spare: usize,
    alloc: Global,
}

impl<T> Model for SegChain<T> {
    ghost use Rattle.ug_types.specs.Listed.{Listed};
    ghost use Rattle.ug_segchain.specs.Slots.{values, joined, IsChain};

    ghost Value = { Listed T };

    ghost view = { λ s. record { items = values (joined s.segments.items); spare = s.spare } };

    ghost invariant = { λ s. IsChain s.segments.items s.head s.len s.spare };
}

impl<T> SegChain<T> {
    /// The empty list. It takes no memory.
    pub fn new(alloc: Global) -> SegChain<T>
        ensures { result.items ≡ [] }
    {
        SegChain {
            segments: VecDeque::new(alloc),
            head: 0,
            len: 0,
            spare: 0,
            alloc,
        }
    }

    /// Makes room for `n` further items. Running out of memory leaves the items as they were.
    pub fn reserve(&mut self, n: usize) -> Result<(), NoMemory>
        ensures items { self.new.items ≡ self.old.items }
        ensures room { OnOk result (n ≤ self.new.spare) }
        ensures enough { n ≤ self.old.spare → IsOk result }
        ensures spare { self.old.spare ≤ self.new.spare }
    {
        while self.spare < n {
            self.add_segment()?;
        }
        Ok(())
    }

    fn add_segment(&mut self) -> Result<(), NoMemory>
        ensures items { self.new.items ≡ self.old.items }
        ensures room { OnOk result (self.old.spare < self.new.spare) }
        ensures spare { self.old.spare ≤ self.new.spare }
    {
        if MOST_SEGMENTS <= self.segments.len() {
            return Err(NoMemory);
        }
        add_segment(&mut self.segments, self.alloc)?;
        self.spare += SEGMENT_PLACES;
        Ok(())
    }

    /// Adds an item at the end, in a place that is there already. It moves no other item.
    pub fn push(&mut self, value: T)
        requires { 1 ≤ self.old.spare }
        ensures items { self.new.items ≡ self.old.items ++ value ∷ [] }
        ensures spare { self.new.spare + 1 ≡ self.old.spare }
    {
        let place = self.head + self.len;
        put(&mut self.segments, place, value);
        self.len += 1;
        self.spare -= 1;
    }

    /// The first item; None exactly where the list is empty.
    pub fn front(&self) -> Option<&T>
        ensures { option_copied result ≡ slice_get self.now.items 0 }
    {
        if self.is_empty() {
            return None;
        }
        Some(self.at(0))
    }

    /// Item `i`, counted from 0.
    pub fn at(&self, i: usize) -> &T
        requires { i < length self.now.items }
        ensures { slice_get self.now.items i ≡ Some result.now }
    {
        look(&self.segments, self.head + i)
    }

    /// Takes the first item out; None exactly where the list is empty. A segment whose items are all taken is given back.
    pub fn pop_front(&mut self) -> Option<T>
        ensures none { IfNone result ((self.old.items ≡ []) × (self.new.items ≡ [])) }
        ensures some { IfSome result (λ item. self.old.items ≡ item ∷ self.new.items) }
        ensures spare { self.old.spare ≤ self.new.spare }
    {
        if self.len == 0 {
            return None;
        }
        let value = take_out(&mut self.segments, self.head);
        self.len -= 1;
        self.head += 1;
        if self.head == SEGMENT_PLACES {
            free_first(&mut self.segments);
            self.head = 0;
            return Some(value);
        }
        Some(value)
    }

    /// The number of items.
    pub fn len(&self) -> usize
        ensures { result ≡ length self.now.items }
    {
        self.len
    }

    /// Whether there is no item.
    pub fn is_empty(&self) -> bool
        ensures { IsTrue result ↔ (self.now.items ≡ []) }
    {
        self.len == 0
    }

    /// Ends an empty chain. Its items need not be of a type that may be dropped.
    pub fn destroy_empty(self)
        requires { self.items ≡ [] }
    {
        let SegChain {
            segments,
            head: _,
            len: _,
            spare: _,
            alloc: _,
        } = self;
        free_all(segments);
    }
}

impl<T: Drop> Drop for SegChain<T> {
    fn drop(mut self) {
        while let Some(value) = self.pop_front() {
            drop(value);
        }
        self.destroy_empty();
    }
}
