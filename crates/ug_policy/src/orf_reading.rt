//! ORF messages as bytes.

ghost use Rattle.std.specs.Prelude.{◌≡◌, ◌≤◌, ◌++◌, [], ◌∷◌, length, take, replicate, IfOk, IfErr, Ok, None};
ghost use Rattle.std.specs.Int.{w32, from_be_bytes};
ghost use Rattle.ug_policy.specs.OrfWalking.{all_in};
ghost use Rattle.ug_policy.specs.OrfReading.{bound, len_field, prefix_field, entry_field, entry_size, all_go, added_or_removed, entry_at, block_at, is_whole, head_refusal, orf_of};
ghost use Rattle.ug_policy.specs.OrfViews.{orf_seen, IsRefusedBy, AreChanges};
ghost use Rattle.ug_policy.specs.OrfChanges.{IsChange};

use crate::list_entry::ListEntry;
use crate::orf_action::Action;
use crate::orf_message::{OrfEntry, OrfList, OrfMessage};
use crate::orf_refusal::OrfRefusal;
use crate::refresh_message::{kind_refusal, length_field, reserved_field};
use std::alloc::Global;
use ug_types::{Family, Prefix, Sequence};

/// The message that the bytes are. They are a ROUTE-REFRESH whose 23 bytes are followed by when-to-refresh (1
/// IMMEDIATE, 2 DEFER) and blocks: a type, a length of two bytes, and entries. Blocks of a type other than 64 are
/// passed over. The refusals come in this order: 1 to 5, 9, and then the first fault of the blocks. An entry is
/// checked for 7, for 6 before its prefix, for 8 of its length, for 6 of its prefix, and for 8 where it is added.
#[tactic(auto, unfolding(crate::specs::OrfReading::orf_of))]
pub fn read_orf(alloc: Global, bytes: &[u8]) -> Result<OrfMessage, OrfRefusal>
    ensures read { IfOk result (λ message. orf_of bytes.now ≡ Ok (orf_seen message)) }
    ensures refused { IfErr result (λ e. IsRefusedBy e (orf_of bytes.now)) }
    ensures good { IfOk result (λ message. AreChanges message.entries.items) }
{
    if let Some(number) = head_refusal(bytes) {
        return Err(OrfRefusal::Refused { number });
    }
    let (head, blocks) = bytes.split_at(24);
    let entries = read_blocks(alloc, blocks)?;
    let now = head[23] == 1;
    Ok(OrfMessage { now, entries })
}

fn is_whole(bytes: &[u8]) -> bool
    ensures { result ≡ is_whole bytes.now }
{
    bytes.len() >= 24 && bytes.len() <= 4096 && length_field(bytes) as usize == bytes.len()
}

/// Why the first 24 bytes are refused: 1 to 5, and then 9.
fn head_refusal(bytes: &[u8]) -> Option<u8>
    ensures exact { result ≡ head_refusal bytes.now }
    ensures long { result ≡ None → 24 ≤ length bytes.now }
{
    if !is_whole(bytes) {
        return Some(1);
    }
    if let Some(number) = kind_refusal(bytes) {
        return Some(number);
    }
    if bytes[23] != 1 && bytes[23] != 2 {
        return Some(5);
    }
    if reserved_field(bytes) != 0 {
        return Some(9);
    }
    None
}

/// The entries of all blocks.
#[tactic(auto, using(crate::proofs::OrfWalks::walk_steps))]
fn read_blocks(alloc: Global, bytes: &[u8]) -> Result<OrfList, OrfRefusal>
    ensures read { IfOk result (λ list. all_in block_at bytes.now ≡ Ok list.items) }
    ensures refused { IfErr result (λ e. IsRefusedBy e (all_in block_at bytes.now)) }
    ensures good { IfOk result (λ list. AreChanges list.items) }
{
    let mut changes = Vec::new(alloc);
    let mut rest = bytes;
    while !rest.is_empty() {
        let (entries, size) = block_at(alloc, rest)?;
        let (_, after) = rest.split_at(size);
        changes.extend_from_slice(entries.as_slice())?;
        rest = after;
    }
    Ok(Sequence::from_vec(changes))
}

/// The entries of the block that the bytes begin with, and how many bytes it takes.
#[tactic(auto, unfolding(crate::specs::OrfReading::block_at))]
fn block_at(alloc: Global, bytes: &[u8]) -> Result<(OrfList, usize), OrfRefusal>
    ensures read { IfOk result (λ x. block_at bytes.now ≡ Ok (x.0.items, x.1)) }
    ensures within { IfOk result (λ x. (1 ≤ x.1) × (x.1 ≤ length bytes.now)) }
    ensures refused { IfErr result (λ e. IsRefusedBy e (block_at bytes.now)) }
    ensures good { IfOk result (λ x. AreChanges x.0.items) }
{
    if bytes.len() < 3 {
        return Err(OrfRefusal::Refused { number: 6 });
    }
    let size = 3 + u16::from_be_bytes([bytes[1], bytes[2]]) as usize;
    if bytes.len() < size {
        return Err(OrfRefusal::Refused { number: 6 });
    }
    if bytes[0] != 64 {
        return Ok((Sequence::new(alloc), size));
    }
    let entries = read_entries(alloc, &bytes[3..size])?;
    Ok((entries, size))
}

/// The entries of a block.
#[tactic(auto, using(crate::proofs::OrfWalks::walk_steps))]
fn read_entries(alloc: Global, bytes: &[u8]) -> Result<OrfList, OrfRefusal>
    ensures read { IfOk result (λ list. all_in entry_at bytes.now ≡ Ok list.items) }
    ensures refused { IfErr result (λ e. IsRefusedBy e (all_in entry_at bytes.now)) }
    ensures good { IfOk result (λ list. AreChanges list.items) }
{
    let mut changes = Vec::new(alloc);
    let mut rest = bytes;
    while !rest.is_empty() {
        let (change, size) = entry_at(rest)?;
        let (_, after) = rest.split_at(size);
        changes.push(change)?;
        rest = after;
    }
    Ok(Sequence::from_vec(changes))
}

/// The entry that the bytes begin with, and how many of them it takes.
#[tactic(auto, unfolding(crate::specs::OrfReading::entry_at))]
fn entry_at(bytes: &[u8]) -> Result<(OrfEntry, usize), OrfRefusal>
    requires { 1 ≤ length bytes.now }
    ensures read { IfOk result (λ x. entry_at bytes.now ≡ Ok (x.0 ∷ [], x.1)) }
    ensures within { IfOk result (λ x. (1 ≤ x.1) × (x.1 ≤ length bytes.now)) }
    ensures good { IfOk result (λ x. IsChange x.0) }
    ensures refused { IfErr result (λ e. IsRefusedBy e (entry_at bytes.now)) }
{
    let action = bytes[0] / 64;
    if action == 3 {
        return Err(OrfRefusal::Refused { number: 7 });
    }
    let permit = bytes[0] & 32 == 0;
    if action == 2 {
        return Ok((all_go(permit), 1));
    }
    if bytes.len() < 8 {
        return Err(OrfRefusal::Refused { number: 6 });
    }
    if bytes[7] > 32 {
        return Err(OrfRefusal::Refused { number: 8 });
    }
    let size = 8 + (bytes[7] as usize + 7) / 8;
    if bytes.len() < size {
        return Err(OrfRefusal::Refused { number: 6 });
    }
    added_or_removed(action, entry_field(bytes), size)
}

fn all_go(permit: bool) -> OrfEntry
    ensures change { result ≡ all_go permit }
    ensures good { IsChange result }
{
    OrfEntry {
        action: Action::RemoveAll,
        permit,
        entry: None,
    }
}

/// An entry of so many bytes that is added (0) or removed (1).
fn added_or_removed(
    action: u8,
    entry: ListEntry,
    size: usize,
) -> Result<(OrfEntry, usize), OrfRefusal>
    ensures read { IfOk result (λ x. added_or_removed action entry size ≡ Ok (x.0 ∷ [], x.1)) }
    ensures size { IfOk result (λ x. x.1 ≡ size) }
    ensures good { IfOk result (λ x. IsChange x.0) }
    ensures refused { IfErr result (λ e. IsRefusedBy e (added_or_removed action entry size)) }
{
    let permit = entry.permit;
    let kept = Some(entry);
    if action == 1 {
        let removed = OrfEntry {
            action: Action::Remove,
            permit,
            entry: kept,
        };
        return Ok((removed, size));
    }
    if !entry.is_good() {
        return Err(OrfRefusal::Refused { number: 8 });
    }
    let added = OrfEntry {
        action: Action::Add,
        permit,
        entry: kept,
    };
    Ok((added, size))
}

fn bound(n: u8) -> Option<u8>
    ensures { result ≡ bound n }
{
    if n == 0 { None } else { Some(n) }
}

/// The entry of bytes that it fits in.
fn entry_field(bytes: &[u8]) -> ListEntry
    requires short { len_field bytes.now ≤ 32 }
    requires whole { entry_size bytes.now ≤ length bytes.now }
    ensures { result ≡ entry_field bytes.now }
{
    ListEntry {
        seq: u32::from_be_bytes([bytes[1], bytes[2], bytes[3], bytes[4]]),
        permit: bytes[0] & 32 == 0,
        prefix: prefix_field(bytes),
        ge: bound(bytes[5]),
        le: bound(bytes[6]),
    }
}

fn prefix_field(bytes: &[u8]) -> Prefix
    requires short { len_field bytes.now ≤ 32 }
    requires whole { entry_size bytes.now ≤ length bytes.now }
    ensures { result ≡ prefix_field bytes.now }
{
    let len = bytes[7];
    let count = (len as usize + 7) / 8;
    let bits = (leading_number(&bytes[8..8 + count]) as u128) << 96;
    Prefix::new(Family::V4, bits, len).unwrap()
}

/// Up to four bytes as a number of 32 bits, left aligned.
fn leading_number(bytes: &[u8]) -> u32
    requires { length bytes.now ≤ 4 }
    ensures { result ≡ from_be_bytes w32 (take 4 (bytes.now ++ replicate 4 0)) }
{
    let mut four = [0; 4];
    four[..bytes.len()].copy_from_slice(bytes);
    u32::from_be_bytes(four)
}
