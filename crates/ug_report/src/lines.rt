//! What the report says of a line.

ghost use Rattle.std.specs.Prelude.{◌≡◌, ◌++◌, map, true, OnOk};
ghost use Rattle.std.specs.List.{concat};
ghost use Rattle.std.specs.String.{string_bytes};
ghost use Rattle.ug_report.specs.Report.{refusal_name, inner_text, refusal_text, name_at, mark_text, is_of_64, AreOf64};

use ug_types::{Mark, Name, NoMemory, PeerId};

/// Adds the line that says why the line of this number was refused: the number of the refusal, and for a message that of
/// its own.
#[tactic(auto, unfolding(crate::specs::Report::refusal_text))]
pub fn write_refusal(
    out: &mut String,
    line: u64,
    number: u8,
    inner: Option<u8>,
) -> Result<(), NoMemory>
    ensures { OnOk result (string_bytes out.new ≡ string_bytes out.old ++ refusal_text line (record { number = number; inner = inner })) }
{
    let name = refusal_name(number);
    write!(out, "line {line} refused {number} {name}")?;
    write_inner(out, inner)?;
    write!(out, "\n")?;
    Ok(())
}

/// Adds the number of a message's own refusal, where there is one.
fn write_inner(out: &mut String, inner: Option<u8>) -> Result<(), NoMemory>
    ensures { OnOk result (string_bytes out.new ≡ string_bytes out.old ++ inner_text inner) }
{
    match inner {
        None => {}
        Some(number) => write!(out, " {number}")?,
    }
    Ok(())
}

/// The name of a refusal.
fn refusal_name(number: u8) -> &'static str
    ensures { result.now ≡ refusal_name number }
{
    match number {
        1 => "unknown-peer",
        2 => "already-up",
        3 => "not-up",
        4 => "no-such-prefix",
        5 => "unknown-policy",
        6 => "unknown-list",
        7 => "same-path-id",
        8 => "too-many-paths",
        9 => "table-full",
        11 => "no-orf",
        12 => "orf-full",
        20 => "line-too-long",
        21 => "bad-verb",
        22 => "bad-words",
        23 => "bad-prefix",
        24 => "bad-attribute",
        25 => "bad-name",
        _ => "bad-message",
    }
}

/// Adds a line for each mark, which begins with this word. The names are those of the peers, in configured order. Marks
/// count messages in 64 bits, so that their lines are read again.
pub fn write_marks(
    out: &mut String,
    word: &str,
    names: &[Name],
    marks: &[Mark],
) -> Result<(), NoMemory>
    ensures text { OnOk result (string_bytes out.new ≡ string_bytes out.old ++ concat (map (mark_text word.now names.now) marks.now)) }
    ensures counts { OnOk result (AreOf64 marks.now) }
{
    for mark in marks {
        write_mark(out, word, names, mark)?;
    }
    Ok(())
}

/// Adds the line of a mark.
#[tactic(auto, unfolding(crate::specs::Report::mark_text))]
fn write_mark(out: &mut String, word: &str, names: &[Name], mark: &Mark) -> Result<(), NoMemory>
    ensures text { OnOk result (string_bytes out.new ≡ string_bytes out.old ++ mark_text word.now names.now mark.now) }
    ensures counts { OnOk result (is_of_64 mark.now ≡ true) }
{
    let Mark {
        version,
        peer,
        session,
        handed,
    } = *mark;
    let name = name_at(names, peer);
    write!(out, "{word} {version} {name} {session} {handed}\n")?;
    Ok(())
}

/// The name at a place, or nothing where there is none.
pub(crate) fn name_at(names: &[Name], place: PeerId) -> &str
    ensures { result.now ≡ name_at names.now place }
{
    match names.get(place as usize) {
        None => "",
        Some(name) => name.text(),
    }
}
