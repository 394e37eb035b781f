//! The bytes that stand for a text.

ghost use Rattle.std.specs.Prelude.{◌≡◌, ◌++◌, ◌∷◌, [], ℕ, List, IsTrue, IsFalse, IfSome, IfOk};
ghost use Rattle.ug_pieces.specs.Codes.{code_text, codes_text, IsFirst};

use crate::code::{
    CLIMB, DIGIT_AND_AT, DIGIT_AND_DOT, ID, ID_ZERO, LAST_ZERO, LAST_ZERO_24, NEXT_CLIMB,
    TWO_DIGITS, ZERO_24,
};
use crate::spelling::size_of;
use ug_types::NoMemory;

/// Adds the bytes that stand for a text, where it is all of ASCII, and answers whether it is; where it isn't nothing is added.
pub fn add_codes(codes: &mut Vec<u8>, text: &[u8]) -> Result<bool, NoMemory>
    ensures added { IfOk result (λ whole. IsTrue whole → codes_text codes.new.items ≡ codes_text codes.old.items ++ text.now) }
    ensures none { IfOk result (λ whole. IsFalse whole → codes.new.items ≡ codes.old.items) }
{
    codes.reserve(text.len())?;
    let before = codes.len();
    let mut at = 0;
    while at < text.len() {
        let (_, rest) = text.split_at(at);
        let code = match first_code(rest) {
            Some(code) => code,
            None => {
                codes.truncate(before);
                return Ok(false);
            }
        };
        codes.push_reserved(code);
        at += size_of(code);
    }
    Ok(true)
}

/// A byte that stands for the front of a text.
#[tactic(auto, unfolding(crate::specs::Codes::code_text))]
fn first_code(text: &[u8]) -> Option<u8>
    ensures { IfSome result (λ code. IsFirst code text.now) }
{
    if let [first, second, ..] = text {
        if let Some(code) = code_of_two(*first, *second) {
            return Some(code);
        }
    }
    let [first, ..] = text else {
        return None;
    };
    if let Some(code) = code_of_word(*first, text) {
        return Some(code);
    }
    if *first >= TWO_DIGITS {
        return None;
    }
    Some(*first)
}

/// The byte that stands for a digit and what is behind it, where there is one.
#[tactic(auto, unfolding(crate::specs::Codes::code_text))]
fn code_of_two(first: u8, second: u8) -> Option<u8>
    ensures { IfSome result (λ code. code_text code ≡ first ∷ second ∷ []) }
{
    if !first.is_ascii_digit() {
        return None;
    }
    if second == b'.' {
        return Some(first - b'0' + DIGIT_AND_DOT);
    }
    if second == b'@' {
        return Some(first - b'0' + DIGIT_AND_AT);
    }
    if !second.is_ascii_digit() {
        return None;
    }
    Some(TWO_DIGITS + (first - b'0') * 10 + (second - b'0'))
}

/// The byte that stands for the word with which a text begins, where there is one.
#[tactic(auto, unfolding(crate::specs::Codes::code_text))]
fn code_of_word(first: u8, text: &[u8]) -> Option<u8>
    ensures { IfSome result (λ code. IsFirst code text.now) }
{
    if first == b' ' {
        if begins_with(text, b" id=0 ") {
            return Some(ID_ZERO);
        }
        if begins_with(text, b" id=") {
            return Some(ID);
        }
    }
    if first == b'\n' && begins_with(text, b"\nclimb ") {
        return Some(NEXT_CLIMB);
    }
    if first == b'c' && begins_with(text, b"climb ") {
        return Some(CLIMB);
    }
    code_of_zero(first, text)
}

/// The byte that stands for the end of a prefix with which a text begins, where there is one.
#[tactic(auto, unfolding(crate::specs::Codes::code_text))]
fn code_of_zero(first: u8, text: &[u8]) -> Option<u8>
    ensures { IfSome result (λ code. IsFirst code text.now) }
{
    if first == b'0' && begins_with(text, b"0/24 id=0 ") {
        return Some(ZERO_24);
    }
    if first == b'.' {
        if begins_with(text, b".0/24 id=0 ") {
            return Some(LAST_ZERO_24);
        }
        if begins_with(text, b".0/") {
            return Some(LAST_ZERO);
        }
    }
    None
}

/// Whether the text begins with the word.
fn begins_with(text: &[u8], word: &[u8]) -> bool
    ensures { IsTrue result → (rest : List ℕ) × (text.now ≡ word.now ++ rest) }
{
    if text.len() < word.len() {
        return false;
    }
    for at in 0..word.len() {
        if text[at] != word[at] {
            return false;
        }
    }
    true
}
