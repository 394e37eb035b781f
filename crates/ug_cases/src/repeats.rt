//! Repetitions in a line.

use crate::wrong::Wrong;
use std::alloc::Global;

/// The line with each `<FROM..TO TEXT>` in it written out: TEXT once for each number from FROM to TO.
pub fn written_out(alloc: Global, line: &str) -> Result<String, Wrong> {
    let mut out = String::new(alloc);
    for (place, part) in line.split('<').enumerate() {
        if place == 0 {
            out.push_str(part)?;
        } else {
            add_part(&mut out, part)?;
        }
    }
    Ok(out)
}

/// Adds what stands behind a `<`.
fn add_part(out: &mut String, part: &str) -> Result<(), Wrong> {
    let Some((inner, rest)) = part.split_once('>') else {
        return Err(Wrong::Line("a repetition has no end"));
    };
    add_repeated(out, inner, "")?;
    out.push_str(rest)?;
    Ok(())
}

/// Adds what `FROM..TO TEXT` says, each time with this ending. In TEXT `%d` is the number, `%h` and `%l` are its two bytes,
/// and `%x` is it in four hexadecimal digits.
pub fn add_repeated(out: &mut String, text: &str, ending: &str) -> Result<(), Wrong> {
    let (range, text) = text.split_once(' ').unwrap_or((text, ""));
    let Some((from, to)) = range.split_once("..") else {
        return Err(Wrong::Line("a repetition has no range"));
    };
    let (Ok(from), Ok(to)) = (from.parse::<u32>(), to.parse::<u32>()) else {
        return Err(Wrong::Line("a range is of numbers"));
    };
    for number in from..=to {
        add_numbered(out, text, number)?;
        out.push_str(ending)?;
    }
    Ok(())
}

/// Adds the text with this number in it.
fn add_numbered(out: &mut String, text: &str, number: u32) -> Result<(), Wrong> {
    for (place, part) in text.split('%').enumerate() {
        if place == 0 {
            out.push_str(part)?;
        } else {
            add_number(out, part, number)?;
        }
    }
    Ok(())
}

/// Adds what stands behind a `%`.
fn add_number(out: &mut String, part: &str, number: u32) -> Result<(), Wrong> {
    let (kind, rest) = part.split_at_checked(1).unwrap_or(("", part));
    match kind {
        "d" => write!(out, "{number}{rest}")?,
        "h" => write!(out, "{}{rest}", number / 256)?,
        "l" => write!(out, "{}{rest}", number % 256)?,
        "x" => write!(out, "{number:04X}{rest}")?,
        _ => return Err(Wrong::Line("a number is spelled %d, %h, %l or %x")),
    }
    Ok(())
}
