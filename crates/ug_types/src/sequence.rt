//! The one list type behind every type whose name ends in `List`.

ghost use Rattle.std.specs.Prelude.{◌≡◌, ◌+◌, ◌-◌, ◌<◌, ◌≤◌, [], ◌∷◌, ◌++◌, length, OnOk, OnErr, IfOk, IfErr, IfNone, IfSome, IsOk, insert, remove, slice_get, slice_set, Some, IsTrue, ◌↔◌};
ghost use Rattle.std.specs.Vec.{vec_len, vec_capacity};
ghost use Rattle.std.specs.Borrow.{sem, Lends};
ghost use Rattle.std.specs.Fn.{CalledAt};
ghost use Rattle.std.specs.List.Retain.{IsFiltered};
ghost use Rattle.std.specs.Cmp.{on_equiv, on_per};
ghost use Rattle.std.specs.Cmp.Lexicographic.{pointwise, lists_equiv, lists_per};
ghost use Rattle.std.specs.Hash as fed;
ghost use Rattle.std.specs.Hash.{on_Alike, items_Alike};
ghost use Rattle.ug_types.specs.Listed.{Listed};
ghost use Rattle.ug_types.specs.contracts.sequence.Sequence.{the_row};

use crate::memory::NoMemory;
use std::alloc::Global;
use std::hash::{Hash, Hasher};
use std::marker::Model;

/// A list of items on the heap. Contracts see the items in order, and beside them `spare`: the number of
/// further items that it takes in without memory.
#[derive(Debug, Drop)]
pub struct Sequence<T> {
    items: Vec<T>,
}

pub type ByteList = Sequence<u8>;

pub type NumberList = Sequence<u32>;

impl<T> Model for Sequence<T> {
    ghost use Rattle.std.specs.Prelude.{◌-◌};
    ghost use Rattle.std.specs.Vec.{vec_len, vec_capacity};
    ghost use Rattle.ug_types.specs.Listed.{Listed};

    ghost Value = { Listed T };

    ghost view = { λ s. record { items = s.items.items; spare = vec_capacity s.items - vec_len s.items } };
}

impl<T> Sequence<T> {
    /// The empty list. It takes no memory.
    pub fn new(alloc: Global) -> Self
        ensures { result.items ≡ [] }
    {
        Sequence {
            items: Vec::new(alloc),
        }
    }

    /// The items of a `Vec`, in its memory.
    pub fn from_vec(items: Vec<T>) -> Self
        ensures items { result.items ≡ items.items }
        ensures spare { result.spare ≡ vec_capacity items - vec_len items }
    {
        Sequence { items }
    }

    /// The items as a `Vec`, in the same memory.
    pub fn into_vec(self) -> Vec<T>
        ensures { result.items ≡ self.items }
    {
        self.items
    }

    /// Adds an item at the end. Running out of memory hands it back and leaves the list as it was.
    pub fn push(&mut self, item: T) -> Result<(), T>
        ensures ok { OnOk result (self.new.items ≡ self.old.items ++ item ∷ []) }
        ensures err { OnErr result (self.new.items ≡ self.old.items) }
        ensures returned { IfErr result (λ back. back ≡ item) }
        ensures room { 1 ≤ self.old.spare → IsOk result }
        ensures spare { self.old.spare ≤ self.new.spare + 1 }
    {
        match self.items.push(item) {
            Ok(()) => Ok(()),
            Err(e) => Err(e.value),
        }
    }

    /// Takes the last item out; None exactly where the list is empty.
    pub fn pop(&mut self) -> Option<T>
        ensures none { IfNone result ((self.old.items ≡ []) × (self.new.items ≡ [])) }
        ensures some { IfSome result (λ item. self.old.items ≡ self.new.items ++ item ∷ []) }
        ensures spare { self.old.spare ≤ self.new.spare }
    {
        self.items.pop()
    }

    /// The number of items.
    pub fn len(&self) -> usize
        ensures { result ≡ length self.now.items }
    {
        self.items.len()
    }

    /// Whether there is no item.
    pub fn is_empty(&self) -> bool
        ensures { IsTrue result ↔ (self.now.items ≡ []) }
    {
        self.items.is_empty()
    }

    /// Item `i`, counted from 0.
    pub fn at(&self, i: usize) -> &T
        requires { i < length self.now.items }
        ensures { slice_get self.now.items i ≡ Some result.now }
    {
        &self.items[i]
    }

    /// Takes item `i` out.
    pub fn remove(&mut self, i: usize) -> T
        requires { i < length self.old.items }
        ensures value { slice_get self.old.items i ≡ Some result }
        ensures items { self.new.items ≡ remove self.old.items i }
        ensures spare { self.old.spare ≤ self.new.spare }
    {
        self.items.remove(i)
    }

    /// Puts an item at place `i`. Running out of memory hands it back and leaves the list as it was.
    pub fn insert(&mut self, i: usize, item: T) -> Result<(), T>
        requires { i ≤ length self.old.items }
        ensures ok { OnOk result (self.new.items ≡ insert self.old.items i item) }
        ensures err { OnErr result (self.new.items ≡ self.old.items) }
        ensures returned { IfErr result (λ back. back ≡ item) }
        ensures room { 1 ≤ self.old.spare → IsOk result }
        ensures spare { self.old.spare ≤ self.new.spare + 1 }
    {
        match self.items.insert(i, item) {
            Ok(()) => Ok(()),
            Err(e) => Err(e.value),
        }
    }

    /// Drops each item of which `keeps` says no; the others stay in their order.
    pub fn retain<F: FnMut(&T) -> bool>(&mut self, keeps: F)
    where
        T: Drop,
        requires { F.IsAlwaysCallable keeps }
        ensures items { IsFiltered (CalledAt F.FnMut) keeps self.old.items self.new.items }
        ensures spare { self.old.spare ≤ self.new.spare }
    {
        self.items.retain(keeps);
    }

    /// The items as a slice.
    pub fn as_slice(&self) -> &[T]
        ensures { result.now ≡ self.now.items }
    {
        self.items.as_slice()
    }

    /// Makes room for `n` further items. Running out of memory changes nothing.
    pub fn reserve(&mut self, n: usize) -> Result<(), NoMemory>
        ensures items { self.new.items ≡ self.old.items }
        ensures room { OnOk result (n ≤ self.new.spare) }
        ensures enough { n ≤ self.old.spare → IsOk result }
        ensures spare { self.old.spare ≤ self.new.spare }
    {
        self.items.reserve(n)?;
        Ok(())
    }

    /// Item `i`, to be changed.
    pub fn at_mut(&mut self, i: usize) -> &mut T
        requires { i < length self.old.items }
        ensures* writes_back { sem 𝓛 (Lends (the_row T.row) T.row self.entry result (λ w. record { items = slice_set self.old.items i w; spare = self.old.spare })) }
        ensures value { slice_get self.old.items i ≡ Some result.now }
    {
        &mut self.items[i]
    }

    /// Adds the items of a slice at the end. Running out of memory leaves the list as it was.
    pub fn extend_from_slice(&mut self, piece: &[T]) -> Result<(), NoMemory>
    where
        T: Copy,
        ensures ok { OnOk result (self.new.items ≡ self.old.items ++ piece.now) }
        ensures err { OnErr result (self.new.items ≡ self.old.items) }
        ensures room { length piece.now ≤ self.old.spare → IsOk result }
        ensures spare { self.old.spare ≤ self.new.spare + length piece.now }
    {
        self.items.extend_from_slice(piece)?;
        Ok(())
    }

    /// An equal list of its own.
    pub fn copy(&self, alloc: Global) -> Result<Self, NoMemory>
    where
        T: Copy,
        ensures { IfOk result (λ copy. copy.items ≡ self.now.items) }
    {
        Ok(Sequence {
            items: Vec::from_slice(alloc, self.items.as_slice())?,
        })
    }
}

impl<T: PartialEq> PartialEq for Sequence<T> {
    ghost eq = { λ x y. pointwise T.eq x.items y.items };

    ghost laws = { on_per (λ x. x.items) (lists_per T.laws) };

    fn eq(&self, other: &Self) -> bool {
        self.items == other.items
    }
}

impl<T: Eq> Eq for Sequence<T> {
    ghost laws = { on_equiv (λ x. x.items) (lists_equiv T.Eq.laws) };
}

impl<T: Hash> Hash for Sequence<T> {
    ghost hash_input = { λ s. fed.slice T.hash_input s.items };

    ghost respects_eq = { (on_Alike (λ x. x.items) (items_Alike (record { fed = T.respects_eq }))).fed };

    fn hash<H: Hasher>(&self, state: &mut H) {
        self.items.hash(state);
    }
}
