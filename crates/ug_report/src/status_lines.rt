//! The status lines that have numbers in them.

ghost use Rattle.std.specs.Prelude.{◌≡◌, ◌++◌, map, IfOk, OnOk};
ghost use Rattle.std.specs.String.{string_bytes};
ghost use Rattle.ug_report.specs.Statuses.{malformed_text, shown, config_text, IsOneLine};

use std::alloc::Global;
use ug_types::{ByteList, NoMemory, Sequence};

/// The status line of a stream with a fault.
#[tactic(auto, unfolding(crate::specs::Statuses::malformed_text))]
pub fn malformed_text(alloc: Global, cause: u8, offset: u64) -> Result<String, NoMemory>
    ensures { IfOk result (λ text. string_bytes text ≡ malformed_text cause offset) }
{
    Ok(format!(in alloc; "status 9 malformed {cause} {offset}\n")?)
}

/// The status line of a configuration that is refused: one line, whatever the field is called.
pub fn config_text(alloc: Global, number: u8, field: &[u8]) -> Result<ByteList, NoMemory>
    ensures text { IfOk result (λ text. text.items ≡ config_text number field.now) }
    ensures one_line { IfOk result (λ text. IsOneLine text.items) }
{
    let text = spelled(alloc, number, field)?;
    Ok(text)
}

#[tactic(auto, unfolding(crate::specs::Statuses::config_text))]
fn spelled(alloc: Global, number: u8, field: &[u8]) -> Result<ByteList, NoMemory>
    ensures { IfOk result (λ text. text.items ≡ config_text number field.now) }
{
    let head = format!(in alloc; "status 2 config {number} ")?;
    let mut text = Vec::from_slice(alloc, head.as_bytes())?;
    write_shown(&mut text, field)?;
    text.push(b'\n')?;
    Ok(Sequence::from_vec(text))
}

/// Adds the field, with `?` for each control character.
fn write_shown(text: &mut Vec<u8>, field: &[u8]) -> Result<(), NoMemory>
    ensures { OnOk result (text.new.items ≡ text.old.items ++ map shown field.now) }
{
    for byte in field {
        text.push(shown(*byte))?;
    }
    Ok(())
}

/// The byte, or `?` for a control character.
fn shown(byte: u8) -> u8
    ensures { result ≡ shown byte }
{
    if byte < 32 || byte == 127 { b'?' } else { byte }
}
