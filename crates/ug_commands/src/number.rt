//! A number among the words.

ghost use Rattle.std.specs.Prelude.{◌≡◌, ◌≤◌, length};
ghost use Rattle.ug_text.specs.Numbers.{decimal_digit, digits_from};
ghost use Rattle.ug_commands.specs.Words.{number_of};

/// The number that 1 to 20 decimal digits spell, where it is below 2^64.
pub(crate) fn number_of(word: &str) -> Option<u64>
    ensures { result ≡ number_of word.now }
{
    let digits = word.as_bytes();
    if digits.is_empty() || digits.len() > 20 {
        return None;
    }
    let value = value_of(digits)?;
    if value <= 18446744073709551615 {
        Some(value as u64)
    } else {
        None
    }
}

/// The number that up to 20 digits spell.
#[tactic(auto, unfolding(ug_text::specs::Numbers::digits_from))]
fn value_of(digits: &[u8]) -> Option<u128>
    requires { length digits.now ≤ 20 }
    ensures { result ≡ digits_from decimal_digit 10 0 digits.now }
{
    let mut value: u128 = 0;
    for digit in digits {
        if *digit < b'0' || *digit > b'9' {
            return None;
        }
        value = value * 10 + (*digit - b'0') as u128;
    }
    Some(value)
}
