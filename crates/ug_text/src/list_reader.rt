//! Lists of numbers, AS paths and origins as text.

ghost use Rattle.std.specs.Prelude.{◌≡◌, IfOk};
ghost use Rattle.std.specs.Option.{option_map};
ghost use Rattle.ug_types.specs.Attributes.{segment_of};
ghost use Rattle.ug_text.specs.Cutting.{each, pieces};
ghost use Rattle.ug_text.specs.Paths.{number_as, numbers_as, is_in_braces, segment, path, origin};
ghost use Rattle.ug_text.specs.Lists.{items_of, segments_of};

use crate::address_reader::read_ipv4;
use crate::cutting::next_piece;
use crate::number_reader::{read_community, read_number};
use std::alloc::Global;
use ug_types::{NoMemory, NumberList, Segment, SegmentList, Sequence};

/// How the numbers of a list are spelled.
#[derive(Clone, Copy, PartialEq, Eq)]
pub enum Spelled {
    /// As one to ten decimal digits.
    Plain,
    /// As communities.
    Community,
    /// As IPv4 addresses.
    Address,
}

fn number_as(spelled: Spelled, text: &[u8]) -> Option<u32>
    ensures { result ≡ number_as spelled text.now }
{
    match spelled {
        Spelled::Plain => read_number(text),
        Spelled::Community => read_community(text),
        Spelled::Address => read_ipv4(text),
    }
}

/// Numbers with commas between, at least one.
pub fn read_numbers(
    alloc: Global,
    spelled: Spelled,
    text: &[u8],
) -> Result<Option<NumberList>, NoMemory>
    ensures { IfOk result (λ list. option_map items_of list ≡ numbers_as spelled text.now) }
{
    let mut numbers = Vec::new(alloc);
    let mut rest = Some(text);
    while let Some(text) = rest {
        let (piece, after) = next_piece(b',', text);
        let Some(number) = number_as(spelled, piece) else {
            return Ok(None);
        };
        numbers.push(number)?;
        rest = after;
    }
    Ok(Some(Sequence::from_vec(numbers)))
}

fn is_in_braces(text: &[u8]) -> bool
    ensures { result ≡ is_in_braces text.now }
{
    text.len() >= 2 && text[0] == b'{' && text[text.len() - 1] == b'}'
}

/// Numbers in braces are an AS_SET, and numbers alone an AS_SEQUENCE.
#[tactic(auto, unfolding(crate::specs::Paths::segment))]
fn read_segment(alloc: Global, text: &[u8]) -> Result<Option<Segment>, NoMemory>
    ensures { IfOk result (λ read. option_map segment_of read ≡ segment text.now) }
{
    let is_set = is_in_braces(text);
    let numbers = if is_set {
        &text[1..text.len() - 1]
    } else {
        text
    };
    match read_numbers(alloc, Spelled::Plain, numbers)? {
        Some(numbers) => Ok(Some(Segment { is_set, numbers })),
        None => Ok(None),
    }
}

/// An AS path: `-` where it is empty, and else its segments with semicolons between. Each has numbers with commas
/// between, those of an AS_SET in braces.
#[tactic(auto, unfolding(crate::specs::Paths::path))]
pub fn read_path(alloc: Global, text: &[u8]) -> Result<Option<SegmentList>, NoMemory>
    ensures { IfOk result (λ read. option_map segments_of read ≡ path text.now) }
{
    if text == b"-".as_slice() {
        return Ok(Some(Sequence::new(alloc)));
    }
    read_segments(alloc, text)
}

fn read_segments(alloc: Global, text: &[u8]) -> Result<Option<SegmentList>, NoMemory>
    ensures { IfOk result (λ read. option_map segments_of read ≡ each segment (pieces 59 text.now)) }
{
    let mut segments = Vec::new(alloc);
    let mut rest = Some(text);
    while let Some(text) = rest {
        let (piece, after) = next_piece(b';', text);
        let Some(segment) = read_segment(alloc, piece)? else {
            return Ok(None);
        };
        segments.push(segment)?;
        rest = after;
    }
    Ok(Some(Sequence::from_vec(segments)))
}

/// ORIGIN: 0 `igp`, 1 `egp`, 2 `incomplete`.
pub fn read_origin(text: &[u8]) -> Option<u8>
    ensures { result ≡ origin text.now }
{
    if text == b"igp".as_slice() {
        return Some(0);
    }
    if text == b"egp".as_slice() {
        return Some(1);
    }
    if text == b"incomplete".as_slice() {
        return Some(2);
    }
    None
}
