//! What is looked up in the lists of a site in memory.

ghost use Rattle.std.specs.Prelude.{◌≡◌, ◌+◌, ◌≤◌, ◌++◌, min, length, take, drop, Some, None, IfSome, IfNone, IfOk};
ghost use Rattle.ug_edge.specs.SiteState.{file_texts, peer_cuts, peer_begins, bytes_left, totals_to, begins_to};
ghost use Rattle.ug_edge.specs.Told.{file_named};

use crate::lists::{BeginFails, CutList, FileList, Made};
use std::alloc::Global;
use ug_types::{ByteList, NoMemory, NumberList, Sequence};

/// The place of the first file of that name.
pub(crate) fn place_of(files: &FileList, name: &str) -> Option<usize>
    ensures found { IfSome result (λ place. file_named name.now (file_texts files.now.items) ≡ Some (bytes_left files.now.items (Some place) 0)) }
    ensures missing { IfNone result (file_named name.now (file_texts files.now.items) ≡ None) }
{
    for (place, file) in files.as_slice().iter().enumerate() {
        if name.as_bytes() == file.name.as_slice() {
            return Some(place);
        }
    }
    None
}

/// The bytes left of the file at that place.
pub(crate) fn rest_of(files: &FileList, place: Option<usize>, offset: usize) -> &[u8]
    ensures rest { result.now ≡ bytes_left files.now.items place offset }
    ensures fits { offset + length result.now ≤ 18446744073709551615 }
{
    if let Some(place) = place {
        if place < files.len() {
            let bytes = files.at(place).bytes.as_slice();
            if offset < bytes.len() {
                return &bytes[offset..];
            }
        }
    }
    &[]
}

/// Puts as many bytes as fit at the front of `buf`, and answers how many.
pub(crate) fn copy_front(bytes: &[u8], buf: &mut [u8]) -> usize
    ensures count { result ≡ min (length buf.old) (length bytes.now) }
    ensures copied { buf.new ≡ take result bytes.now ++ drop result buf.old }
    ensures front { bytes.now ≡ take result buf.new ++ drop result bytes.now }
{
    let count = buf.len().min(bytes.len());
    buf[..count].copy_from_slice(&bytes[..count]);
    count
}

/// The totals of the cuts of a peer.
pub(crate) fn totals_of(
    alloc: Global,
    cuts: &CutList,
    peer: &str,
) -> Result<Sequence<u64>, NoMemory>
    ensures { IfOk result (λ totals. totals.items ≡ totals_to peer.now (peer_cuts cuts.now.items)) }
{
    let mut totals = Sequence::new(alloc);
    for cut in cuts.as_slice() {
        if peer.as_bytes() == cut.peer.as_slice() {
            totals.extend_from_slice(&[cut.total])?;
        }
    }
    Ok(totals)
}

/// The sessions of a peer whose begin fails.
pub(crate) fn begins_of(
    alloc: Global,
    begins: &Sequence<BeginFails>,
    peer: &str,
) -> Result<NumberList, NoMemory>
    ensures { IfOk result (λ numbers. numbers.items ≡ begins_to peer.now (peer_begins begins.now.items)) }
{
    let mut numbers = Sequence::new(alloc);
    for fails in begins.as_slice() {
        if peer.as_bytes() == fails.peer.as_slice() {
            numbers.extend_from_slice(fails.sessions.as_slice())?;
        }
    }
    Ok(numbers)
}

/// The names that a wire is made for, kept.
pub(crate) fn made_for(alloc: Global, dir: &str, peer: &str) -> Result<Made, NoMemory>
    ensures dir { IfOk result (λ made. made.dir.items ≡ dir.now) }
    ensures peer { IfOk result (λ made. made.peer.items ≡ peer.now) }
{
    Ok(Made {
        dir: kept(alloc, dir)?,
        peer: kept(alloc, peer)?,
    })
}

/// The bytes of a name, kept.
pub(crate) fn kept(alloc: Global, name: &str) -> Result<ByteList, NoMemory>
    ensures { IfOk result (λ kept. kept.items ≡ name.now) }
{
    Ok(Sequence::from_vec(Vec::from_slice(alloc, name.as_bytes())?))
}
