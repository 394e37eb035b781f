//! Numbers as a report writes them.

ghost use Rattle.std.specs.Prelude.{◌≡◌, ◌<◌, ◌≤◌, ◌^◌, length, slice_index, IfSome, IfNone};
ghost use Rattle.std.specs.Str.Parse.{AllDigits, digits_value};
ghost use Rattle.ug_audit_rules.specs.Reports.{written_number};
ghost use Rattle.ug_audit_rules.specs.Numbers.{begins_well};

/// The number of 64 bits that a word spells in decimal, without leading zeros.
pub fn read_written(word: &[u8]) -> Option<u64>
    ensures { result ≡ written_number word.now }
{
    if !begins_well(word) {
        return None;
    }
    value_of(word)
}

/// Whether the word is not empty, and no zero leads others.
fn begins_well(word: &[u8]) -> bool
    ensures { result ≡ begins_well word.now }
{
    match word {
        [] => false,
        [first, ..] => *first != b'0' || word.len() == 1,
    }
}

/// The number that the digits spell, where it is of 64 bits and there is nothing but digits.
fn value_of(word: &[u8]) -> Option<u64>
    ensures digits { IfSome result (λ n. AllDigits 10 word.now) }
    ensures value { IfSome result (λ n. n ≡ digits_value 10 word.now) }
    ensures fits { IfSome result (λ n. n < 2 ^ 64) }
    ensures none { IfNone result (AllDigits 10 word.now → 2 ^ 64 ≤ digits_value 10 word.now) }
{
    let mut value: u64 = 0;
    for digit in word {
        if *digit < b'0' || *digit > b'9' {
            return None;
        }
        let Some(tens) = value.checked_mul(10) else {
            return None;
        };
        let Some(next) = tens.checked_add((*digit - b'0') as u64) else {
            return None;
        };
        value = next;
    }
    Some(value)
}
