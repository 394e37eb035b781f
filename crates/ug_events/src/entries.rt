//! The entries of a `list` line.

ghost use Rattle.std.specs.Prelude.{◌≡◌, None, IfOk};
ghost use Rattle.ug_policy.specs.Lists.{list_refusal};
ghost use Rattle.ug_events.specs.Words.{words};
ghost use Rattle.ug_events.specs.Reads.{each_read};
ghost use Rattle.ug_events.specs.Entries.{permit_of, bound_of, bounds_of, entry, entries_of};
ghost use Rattle.ug_events.specs.SeenEntries.{pieces_left, bounds_seen};
ghost use Rattle.ug_events.specs.Views.{Gives};

use crate::refusal::LineRefusal;
use crate::words::next_word;
use std::alloc::Global;
use ug_policy::{EntryList, ListEntry, ListRefusal, PrefixList};
use ug_text::{cut_at, next_piece, read_number, read_prefix_of};
use ug_types::{Family, Sequence};

/// The entries that the words are: at least one, and a prefix list is to be made of them.
#[tactic(auto, unfolding(crate::specs::Entries::entries_of))]
pub fn read_entries(alloc: Global, rest: &[u8]) -> Result<EntryList, LineRefusal>
    ensures read { Gives (λ list. list.items) result (entries_of (words rest.now)) }
    ensures accepted { IfOk result (λ list. list_refusal list.items ≡ None) }
{
    let entries = read_all(alloc, rest)?;
    if entries.is_empty() {
        return Err(LineRefusal::of(22));
    }
    let copy = entries.copy(alloc)?;
    match PrefixList::new(copy) {
        Ok(_) => Ok(entries),
        Err(ListRefusal::Refused { number: _ }) => Err(LineRefusal::of(22)),
        Err(ListRefusal::NoMemory) => Err(LineRefusal::NoMemory),
    }
}

/// Each word as an entry.
#[tactic(auto, using(crate::proofs::Each::read_more, crate::proofs::Each::refused_on, crate::proofs::Each::behind_nothing))]
fn read_all(alloc: Global, rest: &[u8]) -> Result<EntryList, LineRefusal>
    ensures { Gives (λ list. list.items) result (each_read entry (words rest.now)) }
{
    let mut entries = Vec::new(alloc);
    let mut left = rest;
    while let Some((word, after)) = next_word(left) {
        let entry = read_entry(word)?;
        entries.push(entry)?;
        left = after;
    }
    Ok(Sequence::from_vec(entries))
}

/// The bounds that an entry's last parts say.
#[derive(Clone, Copy)]
pub struct LengthBounds {
    pub ge: Option<u8>,
    pub le: Option<u8>,
}

/// `SEQ:permit:PREFIX` or `SEQ:deny:PREFIX`, then optionally `:ge=N`, then optionally `:le=N`.
#[tactic(auto, unfolding(crate::specs::Entries::entry_of))]
fn read_entry(word: &[u8]) -> Result<ListEntry, LineRefusal>
    ensures { Gives (λ e. e) result (entry word.now) }
{
    let (seq, Some(rest)) = next_piece(b':', word) else {
        return Err(LineRefusal::of(22));
    };
    let (action, Some(rest)) = next_piece(b':', rest) else {
        return Err(LineRefusal::of(22));
    };
    let (prefix, rest) = next_piece(b':', rest);
    let Some(seq) = read_number(seq) else {
        return Err(LineRefusal::of(22));
    };
    let Some(permit) = permit_of(action) else {
        return Err(LineRefusal::of(22));
    };
    let Some(prefix) = read_prefix_of(Family::V4, prefix) else {
        return Err(LineRefusal::of(23));
    };
    let Some(bounds) = bounds_of(rest) else {
        return Err(LineRefusal::of(22));
    };
    let ge = bounds.ge;
    let le = bounds.le;
    Ok(ListEntry {
        seq,
        permit,
        prefix,
        ge,
        le,
    })
}

fn permit_of(text: &[u8]) -> Option<bool>
    ensures { result ≡ permit_of text.now }
{
    if text == b"permit".as_slice() {
        return Some(true);
    }
    if text == b"deny".as_slice() {
        return Some(false);
    }
    None
}

/// A bound behind its key. One above 255 stands for that: no list takes either.
fn bound_of(key: &[u8], text: &[u8]) -> Option<u8>
    ensures { result ≡ bound_of key.now text.now }
{
    let (before, value) = cut_at(b'=', text)?;
    if before != key {
        return None;
    }
    let n = read_number(value)?;
    Some(n.min(255) as u8)
}

/// The bounds that the parts behind a prefix say.
#[tactic(auto, unfolding(crate::specs::Entries::bounds_of))]
fn bounds_of(rest: Option<&[u8]>) -> Option<LengthBounds>
    ensures { bounds_seen result ≡ bounds_of (pieces_left rest.entry) }
{
    let Some(rest) = rest else {
        return Some(LengthBounds { ge: None, le: None });
    };
    let (first, rest) = next_piece(b':', rest);
    let ge = bound_of(b"ge", first);
    let Some(rest) = rest else {
        if ge.is_some() {
            return Some(LengthBounds { ge, le: None });
        }
        let le = bound_of(b"le", first)?;
        return Some(LengthBounds {
            ge: None,
            le: Some(le),
        });
    };
    let (second, rest) = next_piece(b':', rest);
    if rest.is_some() {
        return None;
    }
    let ge = ge?;
    let le = bound_of(b"le", second)?;
    Some(LengthBounds {
        ge: Some(ge),
        le: Some(le),
    })
}
