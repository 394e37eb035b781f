//! The values that are there, by number.

ghost use Rattle.std.specs.Prelude.{◌≡◌, ◌<◌, ◌≤◌, [], ◌∷◌, ◌++◌, length, drop, slice_set, Some, None, option_copied, IsSome, IfSome, IfNone, IfOk, IfErr, OnOk, OnErr};
ghost use Rattle.std.specs.Borrow.{sem, Lends};
ghost use Rattle.ug_queue.specs.Spread.{AreRising, IsPlace, HasAt, HasNone, numbered, value_of, AreGone};
ghost use Rattle.ug_queue.specs.contracts.live.Live.{the_row};

use std::alloc::Global;
use std::marker::Model;

/// Values by number. A number is never used twice: where a value is gone there is none for ever. Contracts see the list of all
/// numbers that were given out; memory has those alone that are there.
#[derive(Drop)]
pub struct Live<T> {
    entries: Vec<(u32, T)>,
    next: u32,
}

impl<T> Model for Live<T> {
    ghost use Rattle.std.specs.Prelude.{List, Option};
    ghost use Rattle.ug_queue.specs.Spread.{spread_from, Rise};

    ghost Value = { List (Option T) };

    ghost view = { λ l. spread_from 0 l.next l.entries.items };

    ghost invariant = { λ l. Rise 0 l.next l.entries.items };
}

/// How many of the entries have a lower number.
fn place<T>(entries: &[(u32, T)], g: u32) -> usize
    requires { AreRising entries.now }
    ensures bound { result ≤ length entries.now }
    ensures place { IsPlace entries.now g result }
{
    entries.partition_point(|e| e.0 < g)
}

/// Where the entry of that number stands.
fn find<T>(entries: &[(u32, T)], g: u32) -> Option<usize>
    requires { AreRising entries.now }
    ensures bound { IfSome result (λ i. i < length entries.now) }
    ensures found { IfSome result (HasAt entries.now g) }
    ensures none { IfNone result (HasNone g entries.now) }
{
    let i = place(entries, g);
    if i >= entries.len() {
        return None;
    }
    let number = entries[i].0;
    if number != g {
        return None;
    }
    Some(i)
}

impl<T> Live<T> {
    /// None. It takes no memory.
    pub fn new(alloc: Global) -> Live<T>
        ensures { result ≡ [] }
    {
        Live {
            entries: Vec::new(alloc),
            next: 0,
        }
    }

    /// How many numbers were given out: the next number.
    pub fn next(&self) -> u32
        ensures { result ≡ length self.now }
    {
        self.next
    }

    /// Those that are there, with their numbers, which rise.
    pub fn entries(&self) -> &[(u32, T)]
        ensures { result.now ≡ numbered 0 self.now }
    {
        &self.entries
    }

    /// Those from this number on that are there, with their numbers, which rise.
    pub fn entries_from(&self, from: u32) -> &[(u32, T)]
        ensures { result.now ≡ numbered from (drop from self.now) }
    {
        let i = place(&self.entries, from);
        let (_, behind) = self.entries.as_slice().split_at(i);
        behind
    }

    /// The value of that number.
    pub fn get(&self, g: u32) -> Option<&T>
        ensures { option_copied result ≡ value_of g self.now }
    {
        let Some(i) = find(&self.entries, g) else {
            return None;
        };
        let entry = &self.entries[i];
        Some(&entry.1)
    }

    /// The value of that number, which is there.
    pub fn at(&self, g: u32) -> &T
        requires { IsSome (value_of g self.now) }
        ensures { value_of g self.now ≡ Some result.now }
    {
        let Some(value) = self.get(g) else {
            unreachable!()
        };
        value
    }

    /// The value of that number, to be changed.
    pub fn at_mut(&mut self, g: u32) -> &mut T
        requires { IsSome (value_of g self.old) }
        ensures* writes_back { sem 𝓛 (Lends (the_row T.row) T.row self.entry result (λ w. slice_set self.old g (Some w))) }
        ensures value { value_of g self.old ≡ Some result.now }
    {
        let Some(i) = find(&self.entries, g) else {
            unreachable!()
        };
        let entry = &mut self.entries[i];
        &mut entry.1
    }

    /// One more, under the next number. Running out of memory, or of numbers, hands it back and changes nothing.
    pub fn push(&mut self, value: T) -> Result<u32, T>
        ensures number { IfOk result (λ g. g ≡ length self.old) }
        ensures ok { OnOk result (self.new ≡ self.old ++ Some value ∷ []) }
        ensures err { OnErr result (self.new ≡ self.old) }
        ensures returned { IfErr result (λ back. back ≡ value) }
    {
        if self.next == u32::MAX {
            return Err(value);
        }
        let g = self.next;
        match self.entries.push((g, value)) {
            Ok(()) => {
                self.next = g + 1;
                Ok(g)
            }
            Err(e) => Err(e.value.1),
        }
    }

    /// Takes the value of that number out: it is gone.
    pub fn remove(&mut self, g: u32) -> T
        requires { IsSome (value_of g self.old) }
        ensures value { value_of g self.old ≡ Some result }
        ensures gone { self.new ≡ slice_set self.old g None }
    {
        let Some(i) = find(&self.entries, g) else {
            unreachable!()
        };
        let (_, value) = self.entries.remove(i);
        value
    }

    /// The first number from this one on that is there.
    pub fn first_from(&self, from: u32) -> Option<u32>
        ensures there { IfSome result (λ g. (from ≤ g) × IsSome (value_of g self.now)) }
        ensures below { IfSome result (λ g. g < u32.MAX) }
        ensures skipped { IfSome result (λ g. AreGone from g self.now) }
        ensures none { IfNone result (AreGone from (length self.now) self.now) }
    {
        let _next = self.next;
        let i = place(&self.entries, from);
        if i >= self.entries.len() {
            return None;
        }
        let number = self.entries[i].0;
        Some(number)
    }
}
