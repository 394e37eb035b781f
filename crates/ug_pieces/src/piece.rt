//! The pieces of a part.

ghost use Rattle.std.specs.Prelude.{◌≡◌, ◌++◌, OnOk, OnErr, IsTrue};
ghost use Rattle.ug_edge.specs.Told.{Rose, AppendsPiece};
ghost use Rattle.ug_pieces.specs.Reporting.{AppendsFront};
ghost use Rattle.ug_pieces.specs.Codes.{bytes_text, piece_text, pieces_text};

use crate::spelling::write_spelled;
use crate::writing::write_all;
use std::alloc::Global;
use ug_edge::{Failed, Sink};
use ug_types::NoMemory;

/// The bytes of a text, or those that stand for them.
#[derive(Drop)]
pub struct Piece {
    pub is_short: bool,
    pub bytes: Vec<u8>,
}

/// Adds a piece: the bytes of a text, or those that stand for it. It takes as much memory as they are.
pub fn add_piece(
    alloc: Global,
    pieces: &mut Vec<Piece>,
    is_short: bool,
    bytes: &[u8],
) -> Result<(), NoMemory>
    ensures { OnOk result (pieces_text pieces.new.items ≡ pieces_text pieces.old.items ++ bytes_text is_short bytes.now) }
{
    let bytes = Vec::from_slice(alloc, bytes)?;
    pieces.push(Piece { is_short, bytes })?;
    Ok(())
}

/// Whether the one pieces are the others.
pub fn are_same(one: &[Piece], other: &[Piece]) -> bool
    ensures { IsTrue result → pieces_text one.now ≡ pieces_text other.now }
{
    if one.len() != other.len() {
        return false;
    }
    for place in 0..one.len() {
        if !is_same(&one[place], &other[place]) {
            return false;
        }
    }
    true
}

fn is_same(one: &Piece, other: &Piece) -> bool
    ensures { IsTrue result → piece_text one.now ≡ piece_text other.now }
{
    one.is_short == other.is_short && one.bytes.as_slice() == other.bytes.as_slice()
}

/// Writes pieces, one behind the other.
pub fn write_pieces<K: Sink>(report: &mut K, pieces: &[Piece]) -> Result<(), Failed>
    ensures ok { OnOk result (AppendsPiece (K.held report.old) (K.held report.new) (pieces_text pieces.now)) }
    ensures err { OnErr result (AppendsFront (K.held report.old) (K.held report.new) (pieces_text pieces.now)) }
    ensures failed { OnErr result (Rose (K.faults report.old) (K.faults report.new)) }
    ensures unharmed { OnOk result (K.faults report.new ≡ K.faults report.old) }
{
    for piece in pieces {
        match write_piece(report, piece) {
            Ok(()) => {}
            Err(Failed) => return Err(Failed),
        }
    }
    Ok(())
}

/// Writes a piece.
fn write_piece<K: Sink>(report: &mut K, piece: &Piece) -> Result<(), Failed>
    ensures ok { OnOk result (AppendsPiece (K.held report.old) (K.held report.new) (piece_text piece.now)) }
    ensures err { OnErr result (AppendsFront (K.held report.old) (K.held report.new) (piece_text piece.now)) }
    ensures failed { OnErr result (Rose (K.faults report.old) (K.faults report.new)) }
    ensures unharmed { OnOk result (K.faults report.new ≡ K.faults report.old) }
{
    if piece.is_short {
        return write_spelled(report, piece.bytes.as_slice());
    }
    write_all(report, piece.bytes.as_slice())
}
