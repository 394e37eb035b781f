//! Texts cut at a separator.

ghost use Rattle.std.specs.Prelude.{◌≡◌, ◌<◌, ◌∷◌, length, IfSome};
ghost use Rattle.ug_text.specs.Cutting.{cut_at, pieces};
ghost use Rattle.ug_text.specs.Seen.{seen_parts, pieces_in};

/// What stands before the first separator, and what behind it; None exactly where there is none.
#[tactic(auto, unfolding(crate::specs::Cutting::cut_at))]
pub fn cut_at(separator: u8, text: &[u8]) -> Option<(&[u8], &[u8])>
    ensures parts { seen_parts result ≡ cut_at separator text.now }
    ensures shorter { IfSome result (λ parts. length parts.1.now < length text.now) }
{
    for (i, b) in text.iter().enumerate() {
        if *b == separator {
            return Some((&text[..i], &text[i + 1..]));
        }
    }
    None
}

/// The first of the parts between separators, and what stands behind its separator, where there is one.
#[tactic(auto, using(crate::proofs::Pieces::pieces_steps))]
pub fn next_piece(separator: u8, text: &[u8]) -> (&[u8], Option<&[u8]>)
    ensures pieces { pieces separator text.now ≡ result.0.now ∷ pieces_in separator result.1 }
    ensures shorter { IfSome result.1 (λ rest. length rest.now < length text.now) }
{
    match cut_at(separator, text) {
        Some((piece, rest)) => (piece, Some(rest)),
        None => (text, None),
    }
}
