//! The words of a line.

ghost use Rattle.std.specs.Prelude.{◌≡◌, ◌≢◌, ◌<◌, ◌≤◌, ◌++◌, [], ◌∷◌, length, take, drop, slice_index, MatchOption, IfSome};
ghost use Rattle.ug_events.specs.Words.{where_some_bytes, words, words_from, without_return};

/// The line without its final carriage return.
pub fn without_return(line: &[u8]) -> &[u8]
    ensures { result.now ≡ without_return line.now }
{
    if !line.is_empty() && line[line.len() - 1] == b'\r' {
        return &line[..line.len() - 1];
    }
    line
}

/// How many spaces stand in front.
#[tactic(auto, unfolding(crate::specs::Words::words_from))]
fn spaces(bytes: &[u8]) -> usize
    ensures within { result ≤ length bytes.now }
    ensures words { words (drop result bytes.now) ≡ words bytes.now }
    ensures stops { result < length bytes.now → slice_index bytes.now result ≢ 32 }
{
    for (i, b) in bytes.iter().enumerate() {
        if *b != b' ' {
            return i;
        }
    }
    bytes.len()
}

/// How long the word in front is.
#[tactic(auto, unfolding(crate::specs::Words::words_from))]
fn word_len(bytes: &[u8]) -> usize
    ensures within { result ≤ length bytes.now }
    ensures words { words bytes.now ≡ where_some_bytes (take result bytes.now) ++ words (drop result bytes.now) }
    ensures some { 0 < length bytes.now → slice_index bytes.now 0 ≢ 32 → 0 < result }
{
    for (i, b) in bytes.iter().enumerate() {
        if *b == b' ' {
            return i;
        }
    }
    bytes.len()
}

/// The first word, and what stands behind it; None exactly where there is no word.
#[tactic(auto, using(crate::proofs::Lines::no_words))]
pub fn next_word(bytes: &[u8]) -> Option<(&[u8], &[u8])>
    ensures word { MatchOption result (words bytes.now ≡ []) (λ r. words bytes.now ≡ r.0.now ∷ words r.1.now) }
    ensures some { IfSome result (λ r. 0 < length r.0.now) }
    ensures shorter { IfSome result (λ r. length r.1.now < length bytes.now) }
{
    let (_, bytes) = bytes.split_at(spaces(bytes));
    if bytes.is_empty() {
        return None;
    }
    Some(bytes.split_at(word_len(bytes)))
}
