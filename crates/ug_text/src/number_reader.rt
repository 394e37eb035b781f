//! Numbers as text.

ghost use Rattle.std.specs.Prelude.{◌≡◌, ◌<◌, ◌≤◌, length, IfSome};
ghost use Rattle.ug_text.specs.Numbers.{number, any_number, positive_number, decimal_digit, digits_from, community};

use crate::cutting::cut_at;

/// The number that one decimal digit up to so many spell, where it is at most so large.
pub fn number(digits: usize, most: u64, text: &[u8]) -> Option<u64>
    requires { digits ≤ 10 }
    ensures { result ≡ number digits most text.now }
{
    if text.is_empty() || text.len() > digits {
        return None;
    }
    let value = digits_of(text)?;
    if value <= most { Some(value) } else { None }
}

/// The number that up to ten digits spell.
#[tactic(auto, unfolding(crate::specs::Numbers::digits_from))]
fn digits_of(text: &[u8]) -> Option<u64>
    requires { length text.now ≤ 10 }
    ensures { result ≡ digits_from decimal_digit 10 0 text.now }
{
    let mut value: u64 = 0;
    for digit in text {
        if *digit < b'0' || *digit > b'9' {
            return None;
        }
        value = value * 10 + (*digit - b'0') as u64;
    }
    Some(value)
}

/// The number that one to ten decimal digits spell, where it is at most 4294967295.
pub fn read_number(text: &[u8]) -> Option<u32>
    ensures { result ≡ any_number text.now }
{
    let value = number(10, 4294967295, text)?;
    Some(value as u32)
}

/// The same of a number that isn't 0.
pub fn read_positive(text: &[u8]) -> Option<u32>
    ensures value { result ≡ positive_number text.now }
    ensures positive { IfSome result (λ n. 0 < n) }
{
    let value = read_number(text)?;
    if value > 0 { Some(value) } else { None }
}

/// The community that `A:B` spells: A is its upper sixteen bits, B its lower ones, each of one to five digits.
#[tactic(auto, unfolding(crate::specs::Numbers::community))]
pub fn read_community(text: &[u8]) -> Option<u32>
    ensures { result ≡ community text.now }
{
    let (upper, lower) = cut_at(b':', text)?;
    let upper = number(5, 65535, upper)?;
    let lower = number(5, 65535, lower)?;
    Some(upper as u32 * 65536 + lower as u32)
}
