//! The segments of a chain as one row of places.
ghost use Rattle.std.specs.Prelude.{◌≡◌, ◌+◌, ◌<◌, None, Some, ◌++◌, length, replicate, get_or, slice_set, take, drop, OnOk, OnErr};
ghost use Rattle.ug_segchain.specs.Slots.{IsFilled, joined, AreWhole, AreEmpty};

use crate::segment::{SEGMENT_PLACES, Segment};
use std::alloc::Global;
use std::collections::VecDeque;
use ug_types::NoMemory;

/// Puts a value into an empty place.
pub(crate) fn put<T>(segments: &mut VecDeque<Segment<T>>, place: usize, value: T)
    requires whole { AreWhole segments.old.items }
    requires inside { place < length (joined segments.old.items) }
    requires empty { get_or (joined segments.old.items) place None ≡ None }
    ensures whole { AreWhole segments.new.items }
    ensures joined { joined segments.new.items ≡ slice_set (joined segments.old.items) place (Some value) }
    ensures count { length segments.new.items ≡ length segments.old.items }
{
    let segment = &mut segments[place / SEGMENT_PLACES];
    segment.write(place % SEGMENT_PLACES, value);
}

/// Takes the value out of a place.
pub(crate) fn take_out<T>(segments: &mut VecDeque<Segment<T>>, place: usize) -> T
    requires whole { AreWhole segments.old.items }
    requires filled { IsFilled (joined segments.old.items) place }
    ensures value { get_or (joined segments.old.items) place None ≡ Some result }
    ensures whole { AreWhole segments.new.items }
    ensures joined { joined segments.new.items ≡ slice_set (joined segments.old.items) place None }
    ensures count { length segments.new.items ≡ length segments.old.items }
{
    let segment = &mut segments[place / SEGMENT_PLACES];
    segment.read(place % SEGMENT_PLACES)
}

/// The value in a place.
pub(crate) fn look<T>(segments: &VecDeque<Segment<T>>, place: usize) -> &T
    requires whole { AreWhole segments.now.items }
    requires filled { IsFilled (joined segments.now.items) place }
    ensures { get_or (joined segments.now.items) place None ≡ Some result.now }
{
    let segment = &segments[place / SEGMENT_PLACES];
    segment.get(place % SEGMENT_PLACES)
}

/// Adds a segment of empty places at the end.
pub(crate) fn add_segment<T>(
    segments: &mut VecDeque<Segment<T>>,
    alloc: Global,
) -> Result<(), NoMemory>
    requires whole { AreWhole segments.old.items }
    ensures whole { AreWhole segments.new.items }
    ensures ok { OnOk result (joined segments.new.items ≡ joined segments.old.items ++ replicate 64 None) }
    ensures count { OnOk result (length segments.new.items ≡ length segments.old.items + 1) }
    ensures err { OnErr result (segments.new.items ≡ segments.old.items) }
{
    let segment = Segment::new(alloc)?;
    match segments.push_back(segment) {
        Ok(()) => Ok(()),
        Err(refused) => {
            refused.value.release();
            Err(NoMemory)
        }
    }
}

/// Gives the first segment back, whose places are empty.
pub(crate) fn free_first<T>(segments: &mut VecDeque<Segment<T>>)
    requires whole { AreWhole segments.old.items }
    requires some { 0 < length segments.old.items }
    requires empty { take 64 (joined segments.old.items) ≡ replicate 64 None }
    ensures whole { AreWhole segments.new.items }
    ensures joined { joined segments.new.items ≡ drop 64 (joined segments.old.items) }
    ensures count { length segments.new.items + 1 ≡ length segments.old.items }
{
    if let Some(segment) = segments.pop_front() {
        segment.release();
    }
}

/// Gives all segments back.
pub(crate) fn free_all<T>(mut segments: VecDeque<Segment<T>>)
    requires { AreEmpty segments.items }
{
    while let Some(segment) = segments.pop_front() {
        segment.release();
    }
    segments.destroy_empty();
}
