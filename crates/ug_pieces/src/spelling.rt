//! Bytes spelled out again.

ghost use Rattle.std.specs.Prelude.{◌≡◌, ◌++◌, ◌+◌, ◌≤◌, length, OnOk, OnErr};
ghost use Rattle.arrayvec.specs.ArrayVec.{array_vec_len};
ghost use Rattle.ug_edge.specs.Told.{Rose, AppendsPiece};
ghost use Rattle.ug_pieces.specs.Reporting.{AppendsFront};
ghost use Rattle.ug_pieces.specs.Codes.{code_text, codes_text, word_text};

use crate::code::{
    CLIMB, DIGIT_AND_AT, DIGIT_AND_DOT, ID, ID_ZERO, LAST_ZERO, LAST_ZERO_24, NEXT_CLIMB,
    TWO_DIGITS, ZERO_24,
};
use crate::writing::write_all;
use arrayvec::ArrayVec;
use ug_edge::{Failed, Sink};

/// How many bytes are spelled out at once.
const PIECE: usize = 512;

/// Writes what bytes stand for, a piece after another, where no call fails. It takes no memory.
pub fn write_spelled<K: Sink>(report: &mut K, codes: &[u8]) -> Result<(), Failed>
    ensures ok { OnOk result (AppendsPiece (K.held report.old) (K.held report.new) (codes_text codes.now)) }
    ensures err { OnErr result (AppendsFront (K.held report.old) (K.held report.new) (codes_text codes.now)) }
    ensures failed { OnErr result (Rose (K.faults report.old) (K.faults report.new)) }
    ensures unharmed { OnOk result (K.faults report.new ≡ K.faults report.old) }
{
    let mut at = 0;
    while at < codes.len() {
        let (_, rest) = codes.split_at(at);
        let count = rest.len().min(PIECE);
        let (piece, _) = rest.split_at(count);
        match write_piece(report, piece) {
            Ok(()) => {}
            Err(Failed) => return Err(Failed),
        }
        at += count;
    }
    Ok(())
}

/// Writes what a few bytes stand for.
fn write_piece<K: Sink>(report: &mut K, codes: &[u8]) -> Result<(), Failed>
    requires { length codes.now ≤ 512 }
    ensures ok { OnOk result (AppendsPiece (K.held report.old) (K.held report.new) (codes_text codes.now)) }
    ensures err { OnErr result (AppendsFront (K.held report.old) (K.held report.new) (codes_text codes.now)) }
    ensures failed { OnErr result (Rose (K.faults report.old) (K.faults report.new)) }
    ensures unharmed { OnOk result (K.faults report.new ≡ K.faults report.old) }
{
    let mut room: ArrayVec<u8, 6144> = ArrayVec::new();
    for code in codes {
        spell(&mut room, *code);
    }
    write_all(report, room.as_slice())
}

/// Adds what a byte stands for.
#[tactic(auto, unfolding(crate::specs::Codes::code_text))]
fn spell(room: &mut ArrayVec<u8, 6144>, code: u8)
    requires { array_vec_len room.old + 12 ≤ 6144 }
    ensures items { room.new.items ≡ room.old.items ++ code_text code }
    ensures len { array_vec_len room.new ≤ array_vec_len room.old + 12 }
{
    if code < TWO_DIGITS {
        room.push(code);
    } else if code < DIGIT_AND_DOT {
        room.push(b'0' + (code - TWO_DIGITS) / 10);
        room.push(b'0' + (code - TWO_DIGITS) % 10);
    } else if code < DIGIT_AND_AT {
        room.push(b'0' + (code - DIGIT_AND_DOT));
        room.push(b'.');
    } else if code < CLIMB {
        room.push(b'0' + (code - DIGIT_AND_AT));
        room.push(b'@');
    } else {
        spell_word(room, code);
    }
}

/// Adds the word that a byte stands for.
fn spell_word(room: &mut ArrayVec<u8, 6144>, code: u8)
    requires { array_vec_len room.old + 12 ≤ 6144 }
    ensures items { room.new.items ≡ room.old.items ++ word_text code }
    ensures len { array_vec_len room.new ≤ array_vec_len room.old + 12 }
{
    match code {
        CLIMB => add(room, b"climb "),
        NEXT_CLIMB => add(room, b"\nclimb "),
        ID_ZERO => add(room, b" id=0 "),
        ID => add(room, b" id="),
        LAST_ZERO => add(room, b".0/"),
        ZERO_24 => add(room, b"0/24 id=0 "),
        LAST_ZERO_24 => add(room, b".0/24 id=0 "),
        _ => room.push(code),
    }
}

/// Adds bytes.
fn add(room: &mut ArrayVec<u8, 6144>, bytes: &[u8])
    requires { array_vec_len room.old + length bytes.now ≤ 6144 }
    ensures { room.new.items ≡ room.old.items ++ bytes.now }
{
    match room.try_extend_from_slice(bytes) {
        Ok(()) => {}
        Err(_) => unreachable!(),
    }
}

/// How many bytes a byte stands for.
#[tactic(auto, unfolding(crate::specs::Codes::code_text))]
pub fn size_of(code: u8) -> usize
    ensures value { result ≡ length (code_text code) }
    ensures some { 1 ≤ result }
{
    if code < TWO_DIGITS {
        return 1;
    }
    if code < CLIMB {
        return 2;
    }
    match code {
        CLIMB | ID_ZERO => 6,
        NEXT_CLIMB => 7,
        ID => 4,
        LAST_ZERO => 3,
        ZERO_24 => 10,
        LAST_ZERO_24 => 11,
        _ => 1,
    }
}
