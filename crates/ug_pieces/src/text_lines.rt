//! Lines cut from the front of a text.

ghost use Rattle.std.specs.Prelude.{◌≡◌, ◌<◌, ◌≤◌, ◌∷◌, [], length, IfSome, IfNone};
ghost use Rattle.ug_pieces.specs.Lines.{lines_of};

use ug_text::cut_at;

/// The first line of a text, without its newline, and what stands behind it; None exactly where the text is empty.
pub fn next_line(text: &[u8]) -> Option<(&[u8], &[u8])>
    ensures none { IfNone result (lines_of text.now ≡ []) }
    ensures some { IfSome result (λ parts. lines_of text.now ≡ parts.0.now ∷ lines_of parts.1.now) }
    ensures shorter { IfSome result (λ parts. length parts.1.now < length text.now) }
{
    if text.is_empty() {
        return None;
    }
    match cut_at(b'\n', text) {
        Some((line, rest)) => Some((line, rest)),
        None => Some((text, &[])),
    }
}

/// How many lines a text has.
pub fn count_lines(text: &[u8]) -> usize
    ensures { result ≡ length (lines_of text.now) }
{
    let mut count: usize = 0;
    let mut rest = text;
    while let Some((_line, behind)) = next_line(rest) {
        count += 1;
        rest = behind;
    }
    count
}
