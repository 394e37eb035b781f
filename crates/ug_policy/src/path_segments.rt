//! The segments of a path.

ghost use Rattle.std.specs.Prelude.{◌≡◌, ◌∷◌, [], map, OnOk, OnErr, IfOk};
ghost use Rattle.ug_types.specs.Attributes.{segment_of};
ghost use Rattle.ug_policy.specs.Paths.{begins_with_room, has_numbers, with_numbers, public_numbers, sequence, prepended, overridden, without_private};

use crate::path_numbers::{drop_private_numbers, put_in_front, replace};
use std::alloc::Global;
use ug_types::{NoMemory, Segment, SegmentList, Sequence};

#[tactic(auto, using(crate::proofs::Edits::into_first, crate::proofs::Edits::first_kept))]
/// Puts a number in front of a path: into the first segment where that is an AS_SEQUENCE of fewer than 255 numbers,
/// else as a new AS_SEQUENCE. Running out of memory leaves the path as it was.
pub fn prepend(alloc: Global, path: &mut SegmentList, asn: u32) -> Result<(), NoMemory>
    ensures ok { OnOk result (map segment_of path.new.items ≡ prepended asn (map segment_of path.old.items)) }
    ensures err { OnErr result (map segment_of path.new.items ≡ map segment_of path.old.items) }
{
    if has_room(path.as_slice()) {
        return put_in_front(&mut path.at_mut(0).numbers, asn);
    }
    let segment = sequence_of(alloc, asn)?;
    match path.insert(0, segment) {
        Ok(()) => Ok(()),
        Err(_) => Err(NoMemory),
    }
}

/// Whether the first segment is an AS_SEQUENCE that takes one number more.
fn has_room(path: &[Segment]) -> bool
    ensures { result ≡ begins_with_room (map segment_of path.now) }
{
    match path {
        [] => false,
        [first, ..] => !first.is_set && first.numbers.len() < 255,
    }
}

/// An AS_SEQUENCE of one number.
fn sequence_of(alloc: Global, asn: u32) -> Result<Segment, NoMemory>
    ensures { IfOk result (λ s. segment_of s ≡ sequence (asn ∷ [])) }
{
    Ok(Segment {
        is_set: false,
        numbers: Sequence::from_vec(Vec::from_slice(alloc, &[asn])?),
    })
}

/// Puts the AS number `new` in the place of each `old` in a path.
pub fn override_as(path: &mut SegmentList, old: u32, new: u32)
    ensures { map segment_of path.new.items ≡ overridden old new (map segment_of path.old.items) }
{
    for i in 0..path.len() {
        replace(&mut path.at_mut(i).numbers, old, new);
    }
}

/// Drops each private AS number (RFC 6996) out of a path, and each segment of which nothing is left.
pub fn drop_private(path: &mut SegmentList)
    ensures { map segment_of path.new.items ≡ without_private (map segment_of path.old.items) }
{
    drop_private_in_each(path);
    path.retain(|segment| has_numbers(segment));
}

/// Whether there is a number in a segment.
fn has_numbers(segment: &Segment) -> bool
    ensures { result ≡ has_numbers (segment_of segment.now) }
{
    !segment.numbers.is_empty()
}

/// Drops each private number; the segments stay.
fn drop_private_in_each(path: &mut SegmentList)
    ensures { map segment_of path.new.items ≡ map (with_numbers public_numbers) (map segment_of path.old.items) }
{
    for i in 0..path.len() {
        drop_private_numbers(&mut path.at_mut(i).numbers);
    }
}
