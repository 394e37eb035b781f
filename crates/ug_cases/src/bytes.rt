//! Bytes and messages as hexadecimal digits.

use crate::wrong::Wrong;
use std::alloc::Global;

/// The sixteen bytes ff in front of a message (RFC 4271 section 4.1), as digits.
const MARKER: &str = "FFFFFFFFFFFFFFFFFFFFFFFFFFFFFFFF";

/// A text without its spaces.
pub fn closed_up(alloc: Global, text: &str) -> Result<String, Wrong> {
    let mut out = String::new(alloc);
    for part in text.split(' ') {
        out.push_str(part)?;
    }
    Ok(out)
}

/// Adds the bytes that a text spells in digits. Spaces are for reading, and M is a marker.
pub fn add_bytes(alloc: Global, bytes: &mut Vec<u8>, text: &str) -> Result<(), Wrong> {
    let mut digits = String::new(alloc);
    for (place, part) in text.split('M').enumerate() {
        if place > 0 {
            digits.push_str(MARKER)?;
        }
        digits.push_str(closed_up(alloc, part)?.as_str())?;
    }
    match hex::decode(alloc, digits.as_str()) {
        Ok(more) => {
            bytes.extend_from_slice(more.as_slice())?;
            Ok(())
        }
        Err(_) => Err(Wrong::Line("no bytes in hexadecimal digits")),
    }
}

/// Bytes in digits, with an M for a marker in front.
pub fn spelled(alloc: Global, bytes: &[u8]) -> Result<String, Wrong> {
    let digits = hex::encode_upper(alloc, bytes)?;
    let Some(rest) = digits.as_str().strip_prefix(MARKER) else {
        return Ok(digits);
    };
    let (length, rest) = rest.split_at_checked(4).unwrap_or((rest, ""));
    let (kind, rest) = rest.split_at_checked(2).unwrap_or((rest, ""));
    Ok(format!(in alloc; "M {length} {kind} {rest}")?)
}

/// The first message of a session's bytes, as far as it is there, and the bytes behind it.
pub fn first_message(bytes: &[u8]) -> (&[u8], &[u8]) {
    let length = match bytes {
        [
            _,
            _,
            _,
            _,
            _,
            _,
            _,
            _,
            _,
            _,
            _,
            _,
            _,
            _,
            _,
            _,
            high,
            low,
            ..
        ] => { *high as usize * 256 + *low as usize }
        _ => bytes.len(),
    };
    bytes.split_at(length.max(19).min(bytes.len()))
}
