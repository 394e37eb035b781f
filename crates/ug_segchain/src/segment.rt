//! A segment: 64 places in a block of their own.
ghost use Rattle.std.specs.Prelude.{◌≡◌, ◌<◌, None, Some, length, replicate, get_or, slice_set, IfOk};
ghost use Rattle.ug_segchain.specs.Slots.{IsFilled};

use crate::places::{Deed, Places, Start, release, reserve};
use std::alloc::Global;
use std::marker::Model;
use std_alloc::room::may_hold;
use ug_types::NoMemory;

/// The number of places of a segment.
pub(crate) const SEGMENT_PLACES: usize = 64;

/// 64 places, each empty or holding a value. It stays where it is: what moves is the pointer to it.
pub struct Segment<T> {
    start: Start<T>,
    places: Places<T>,
    deed: Deed<T, Global>,
    alloc: Global,
}

impl<T> Model for Segment<T> {
    ghost use Rattle.std.specs.Prelude.{◌≡◌, List, Option, length};

    ghost Value = { List (Option T) };

    ghost view = { λ s. s.places.slots };

    ghost invariant = { λ s. (s.places.at ≡ s.start.ptr) × (s.deed.at ≡ s.start.ptr) × (s.deed.len ≡ 64) × (s.deed.alloc ≡ s.alloc) };
}

impl<T> Segment<T> {
    /// A segment of empty places.
    pub(crate) fn new(alloc: Global) -> Result<Segment<T>, NoMemory>
        ensures { IfOk result (λ s. s ≡ replicate 64 None) }
    {
        if !may_hold::<T>(SEGMENT_PLACES) {
            return Err(NoMemory);
        }
        let (start, places, deed) = reserve(&alloc, SEGMENT_PLACES)?;
        Ok(Segment {
            start,
            places,
            deed,
            alloc,
        })
    }

    /// Puts a value into an empty place.
    pub(crate) fn write(&mut self, place: usize, value: T)
        requires inside { place < length self.old }
        requires empty { get_or self.old place None ≡ None }
        ensures { self.new ≡ slice_set self.old place (Some value) }
    {
        self.places.write(self.start, place, value);
    }

    /// Takes the value out of a place.
    pub(crate) fn read(&mut self, place: usize) -> T
        requires { IsFilled self.old place }
        ensures value { get_or self.old place None ≡ Some result }
        ensures places { self.new ≡ slice_set self.old place None }
    {
        self.places.read(self.start, place)
    }

    /// The value in a place.
    pub(crate) fn get(&self, place: usize) -> &T
        requires { IsFilled self.now place }
        ensures { get_or self.now place None ≡ Some result.now }
    {
        self.places.get(self.start, place)
    }

    /// Gives the block of an empty segment back.
    pub(crate) fn release(self)
        requires { self ≡ replicate 64 None }
    {
        let Segment {
            start,
            places,
            deed,
            alloc,
        } = self;
        release(&alloc, start, SEGMENT_PLACES, places, deed);
    }
}
