//! AS_PATH: the ASes on the path, a list of segments, which may be empty.

ghost use Rattle.std.specs.Prelude.{◌≡◌, ◌+◌, ◌≤◌, ◌++◌, true, refl, length, map, IfOk, IfErr};
ghost use Rattle.std.specs.List.{list_all};
ghost use Rattle.ug_types.specs.Attributes.{segment_of, is_segment};
ghost use Rattle.ug_message.specs.AttributeTable.{as_path_kind, as_path, segment, segments, segment_at, path_in};
ghost use Rattle.ug_update.specs.AttrsViews.{GivesOne, HasNumber};

use crate::attrs_fault::AttributeFault;
use crate::found::{Found, Standing};
use crate::head::{put_head, size_around};
use crate::row::{Known, Spelled, WELL_KNOWN};
use crate::values::{numbers_in, put_numbers};
use std::alloc::Global;
use ug_message::put;
use ug_types::{AttrParts, ByteList, Segment, SegmentList, Sequence};

pub struct AsPath;

impl Known for AsPath {
    ghost kind = { as_path_kind };

    ghost NUMBER = { 2 };

    ghost FLAGS = { 64 };

    const NUMBER: u8 = 2;

    const FLAGS: u8 = WELL_KNOWN;

    ghost number_is = { refl };

    ghost flags_are = { refl };

    fn is_length(_len: usize) -> bool {
        true
    }

    fn read(
        alloc: Global,
        found: &mut Found,
        _all: &[u8],
        a: Standing<'_>,
    ) -> Result<(), AttributeFault> {
        found.path = Some(path_in(alloc, a.value)?);
        Ok(())
    }
}

impl Spelled for AsPath {
    ghost spelled = { as_path };

    #[tactic(auto, using(ug_message::proofs::Heads::size_steps))]
    fn size(parts: &AttrParts) -> usize {
        size_around(segments_size(parts.path.as_slice()))
    }

    #[tactic(auto, using(ug_message::proofs::Heads::attribute_steps))]
    fn put(out: &mut ByteList, parts: &AttrParts) {
        let path = parts.path.as_slice();
        put_head(out, Self::FLAGS, Self::NUMBER, segments_size(path));
        put_segments(out, path);
    }
}

/// The segment that the bytes begin with, and how many of them it takes.
#[tactic(auto, unfolding(ug_message::specs::AttributeTable::segment_at))]
fn segment_at(alloc: Global, bytes: &[u8]) -> Result<(Segment, usize), AttributeFault>
    ensures exact { GivesOne (λ x. (segment_of x.0, x.1)) result (segment_at bytes.now) }
    ensures number { IfErr result HasNumber }
    ensures sound { IfOk result (λ x. is_segment (segment_of x.0) ≡ true) }
    ensures within { IfOk result (λ x. (1 ≤ x.1) × (x.1 ≤ length bytes.now)) }
{
    let malformed = AttributeFault::Refused(6);
    let [kind, count, ..] = bytes else {
        return Err(malformed);
    };
    if *kind != 1 && *kind != 2 {
        return Err(malformed);
    }
    if *count == 0 {
        return Err(malformed);
    }
    let size = 2 + 4 * *count as usize;
    if bytes.len() < size {
        return Err(malformed);
    }
    let numbers = numbers_in(alloc, &bytes[2..size])?;
    let is_set = *kind == 1;
    Ok((Segment { is_set, numbers }, size))
}

/// The segments that the bytes spell.
fn path_in(alloc: Global, bytes: &[u8]) -> Result<SegmentList, AttributeFault>
    ensures exact { GivesOne (λ path. map segment_of path.items) result (path_in bytes.now) }
    ensures number { IfErr result HasNumber }
    ensures sound { IfOk result (λ path. list_all is_segment (map segment_of path.items) ≡ true) }
{
    let mut path = Vec::new(alloc);
    let mut place = 0;
    while place < bytes.len() {
        let (_, rest) = bytes.split_at(place);
        let (segment, size) = segment_at(alloc, rest)?;
        path.push(segment)?;
        place += size;
    }
    Ok(Sequence::from_vec(path))
}

/// How many bytes the segments of a path take.
#[tactic(auto, using(ug_message::proofs::Heads::length_numbers, std::proofs::lemmas::Grind::common_steps))]
fn segments_size(path: &[Segment]) -> usize
    requires { length (segments (map segment_of path.now)) ≤ 65535 }
    ensures { result ≡ length (segments (map segment_of path.now)) }
{
    let mut size = 0;
    for segment in path {
        size += 2 + 4 * segment.numbers.len();
    }
    size
}

/// Adds a segment: 1 for a set, 2 for a sequence, how many numbers, and the numbers.
fn put_segment(out: &mut ByteList, part: &Segment)
    requires count { is_segment (segment_of part.now) ≡ true }
    requires room { length (segment (segment_of part.now)) ≤ out.old.spare }
    ensures items { out.new.items ≡ out.old.items ++ segment (segment_of part.now) }
    ensures spare { out.old.spare ≤ out.new.spare + length (segment (segment_of part.now)) }
{
    let kind = if part.is_set { 1 } else { 2 };
    put(out, &[kind, part.numbers.len() as u8]);
    put_numbers(out, part.numbers.as_slice());
}

/// Adds the segments of a path.
fn put_segments(out: &mut ByteList, path: &[Segment])
    requires counts { list_all is_segment (map segment_of path.now) ≡ true }
    requires room { length (segments (map segment_of path.now)) ≤ out.old.spare }
    ensures items { out.new.items ≡ out.old.items ++ segments (map segment_of path.now) }
    ensures spare { out.old.spare ≤ out.new.spare + length (segments (map segment_of path.now)) }
{
    for part in path {
        put_segment(out, part);
    }
}
