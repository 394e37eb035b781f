//! The text, part by part.

ghost use Rattle.std.specs.Prelude.{◌≡◌, ◌++◌, [], OnOk, OnErr, IfOk, IfSome};
ghost use Rattle.std.specs.List.{flat_map};
ghost use Rattle.ug_edge.specs.Told.{Rose, AppendsPiece};
ghost use Rattle.ug_pieces.specs.Reporting.{AppendsFront};
ghost use Rattle.ug_pieces.specs.Codes.{part_text, pieces_text, codes_text};

use crate::codes::add_codes;
use crate::piece::{Piece, add_piece, are_same, write_pieces};
use crate::spelling::write_spelled;
use std::alloc::Global;
use std::marker::Model;
use ug_edge::{Failed, Sink};
use ug_types::{NoMemory, Shared};

/// The parts that are looked at for one that is equal to a new one.
const NEAR: usize = 64;

/// From how many bytes on what was added becomes a piece. Short ones find room between what is in use; one long list does not.
const PIECE: usize = 512;

/// A part of a text. Equal ones near each other stand in memory once.
#[derive(Drop)]
pub struct Part {
    pub pieces: Shared<Vec<Piece>>,
}

/// A text that is kept in few bytes: its parts, behind them the pieces that are no part yet, and last the bytes that stand for
/// what was added since. Contracts see the text.
#[derive(Drop)]
pub struct ShortText {
    parts: Vec<Part>,
    pieces: Vec<Piece>,
    begun: Vec<u8>,
}

impl Model for ShortText {
    ghost use Rattle.std.specs.Prelude.{ℕ, List, ◌++◌};
    ghost use Rattle.std.specs.List.{flat_map};
    ghost use Rattle.ug_pieces.specs.Codes.{part_text, pieces_text, codes_text};

    ghost Value = { List ℕ };

    ghost view = { λ t. flat_map part_text t.parts.items ++ (pieces_text t.pieces.items ++ codes_text t.begun.items) };
}

impl ShortText {
    /// The empty text. It takes no memory.
    pub fn new(alloc: Global) -> ShortText
        ensures { result ≡ [] }
    {
        ShortText {
            parts: Vec::new(alloc),
            pieces: Vec::new(alloc),
            begun: Vec::new(alloc),
        }
    }

    /// Adds to the text. What isn't all of ASCII is a piece of its own.
    pub fn add(&mut self, alloc: Global, text: &[u8]) -> Result<(), NoMemory>
        ensures { OnOk result (self.new ≡ self.old ++ text.now) }
    {
        let whole = add_codes(&mut self.begun, text)?;
        if whole {
            return self.shorten(alloc);
        }
        end_piece(alloc, &mut self.pieces, &mut self.begun)?;
        add_piece(alloc, &mut self.pieces, false, text)?;
        Ok(())
    }

    /// What was added since the last part becomes a part, which takes as much memory as it has bytes, or none where an equal
    /// one is near. The text stays as it is.
    pub fn close(&mut self, alloc: Global) -> Result<(), NoMemory>
        ensures { OnOk result (self.new ≡ self.old) }
    {
        end_piece(alloc, &mut self.pieces, &mut self.begun)?;
        add_part(alloc, &mut self.parts, &mut self.pieces)?;
        Ok(())
    }

    /// What was begun becomes a piece where it is long. The text stays as it is.
    fn shorten(&mut self, alloc: Global) -> Result<(), NoMemory>
        ensures { OnOk result (self.new ≡ self.old) }
    {
        if self.begun.len() < PIECE {
            return Ok(());
        }
        end_piece(alloc, &mut self.pieces, &mut self.begun)?;
        Ok(())
    }

    /// Writes the text a piece after another, where no call fails. It takes no memory.
    pub fn write<K: Sink>(&self, report: &mut K) -> Result<(), Failed>
        ensures ok { OnOk result (AppendsPiece (K.held report.old) (K.held report.new) self.now) }
        ensures err { OnErr result (AppendsFront (K.held report.old) (K.held report.new) self.now) }
        ensures failed { OnErr result (Rose (K.faults report.old) (K.faults report.new)) }
        ensures unharmed { OnOk result (K.faults report.new ≡ K.faults report.old) }
    {
        match write_parts(report, &self.parts) {
            Ok(()) => {}
            Err(Failed) => return Err(Failed),
        }
        match write_begun(report, &self.pieces, &self.begun) {
            Ok(()) => Ok(()),
            Err(Failed) => Err(Failed),
        }
    }
}

/// What was begun becomes a piece.
fn end_piece(alloc: Global, pieces: &mut Vec<Piece>, begun: &mut Vec<u8>) -> Result<(), NoMemory>
    ensures pieces { OnOk result (pieces_text pieces.new.items ≡ pieces_text pieces.old.items ++ codes_text begun.old.items) }
    ensures begun { OnOk result (begun.new.items ≡ []) }
{
    add_piece(alloc, pieces, true, begun)?;
    begun.clear();
    Ok(())
}

/// Adds a part of these pieces, of which none are left.
fn add_part(alloc: Global, parts: &mut Vec<Part>, pieces: &mut Vec<Piece>) -> Result<(), NoMemory>
    ensures parts { OnOk result (flat_map part_text parts.new.items ≡ flat_map part_text parts.old.items ++ pieces_text pieces.old.items) }
    ensures pieces { OnOk result (pieces.new.items ≡ []) }
{
    let part = match equal_part(parts, pieces)? {
        Some(part) => part,
        None => part_of(alloc, pieces)?,
    };
    pieces.clear();
    parts.push(part)?;
    Ok(())
}

/// A part near the end that says the same as these pieces, for one owner more.
fn equal_part(parts: &[Part], pieces: &[Piece]) -> Result<Option<Part>, NoMemory>
    ensures { IfOk result (λ found. IfSome found (λ part. part_text part ≡ pieces_text pieces.now)) }
{
    let count = parts.len();
    for place in count.saturating_sub(NEAR)..count {
        let part = &parts[place];
        if are_same(part.pieces.get(), pieces) {
            let pieces = part.pieces.share()?;
            return Ok(Some(Part { pieces }));
        }
    }
    Ok(None)
}

/// A part of these pieces, which are moved there.
fn part_of(alloc: Global, pieces: &mut Vec<Piece>) -> Result<Part, NoMemory>
    ensures { IfOk result (λ part. part_text part ≡ pieces_text pieces.old.items) }
{
    let mut all = Vec::with_capacity(alloc, pieces.len())?;
    all.append(pieces)?;
    let pieces = Shared::new(alloc, all)?;
    Ok(Part { pieces })
}

/// Writes parts, one behind the other.
fn write_parts<K: Sink>(report: &mut K, parts: &[Part]) -> Result<(), Failed>
    ensures ok { OnOk result (AppendsPiece (K.held report.old) (K.held report.new) (flat_map part_text parts.now)) }
    ensures err { OnErr result (AppendsFront (K.held report.old) (K.held report.new) (flat_map part_text parts.now)) }
    ensures failed { OnErr result (Rose (K.faults report.old) (K.faults report.new)) }
    ensures unharmed { OnOk result (K.faults report.new ≡ K.faults report.old) }
{
    for part in parts {
        match write_part(report, part) {
            Ok(()) => {}
            Err(Failed) => return Err(Failed),
        }
    }
    Ok(())
}

/// Writes a part.
fn write_part<K: Sink>(report: &mut K, part: &Part) -> Result<(), Failed>
    ensures ok { OnOk result (AppendsPiece (K.held report.old) (K.held report.new) (part_text part.now)) }
    ensures err { OnErr result (AppendsFront (K.held report.old) (K.held report.new) (part_text part.now)) }
    ensures failed { OnErr result (Rose (K.faults report.old) (K.faults report.new)) }
    ensures unharmed { OnOk result (K.faults report.new ≡ K.faults report.old) }
{
    write_pieces(report, part.pieces.get().as_slice())
}

/// Writes what is no part yet: pieces, and the bytes that stand for what was begun behind them.
fn write_begun<K: Sink>(report: &mut K, pieces: &[Piece], begun: &[u8]) -> Result<(), Failed>
    ensures ok { OnOk result (AppendsPiece (K.held report.old) (K.held report.new) (pieces_text pieces.now ++ codes_text begun.now)) }
    ensures err { OnErr result (AppendsFront (K.held report.old) (K.held report.new) (pieces_text pieces.now ++ codes_text begun.now)) }
    ensures failed { OnErr result (Rose (K.faults report.old) (K.faults report.new)) }
    ensures unharmed { OnOk result (K.faults report.new ≡ K.faults report.old) }
{
    match write_pieces(report, pieces) {
        Ok(()) => {}
        Err(Failed) => return Err(Failed),
    }
    match write_spelled(report, begun) {
        Ok(()) => Ok(()),
        Err(Failed) => Err(Failed),
    }
}
