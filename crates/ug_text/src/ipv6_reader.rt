//! IPv6 addresses as text (RFC 4291 section 2.2).

ghost use Rattle.std.specs.Prelude.{◌≡◌, ◌<◌, ◌≤◌, ◌+◌, IfSome, length};
ghost use Rattle.std.specs.Option.{option_map};
ghost use Rattle.ug_text.specs.Numbers.{hexadecimal_digit, digits_from};
ghost use Rattle.ug_text.specs.Addresses.{Groups, group, with_group, with_zeros, groups_from, groups_in, cut_at_gap, filled, around_gap, ipv6_number};
ghost use Rattle.ug_text.specs.Seen.{seen_parts};
ghost use Rattle.ug_text.specs.Grouped.{AreGroups, groups_of};

use crate::cutting::next_piece;

/// Groups of sixteen bits: how many, and the number that they spell.
#[derive(Clone, Copy)]
pub struct Grouped {
    pub count: usize,
    pub number: u128,
}

/// What a hexadecimal digit of either case stands for.
fn hexadecimal_digit(b: u8) -> Option<u32>
    ensures digit { result ≡ hexadecimal_digit b }
    ensures small { IfSome result (λ d. d < 16) }
{
    match b {
        b'0'..=b'9' => Some((b - b'0') as u32),
        b'a'..=b'f' => Some((b - b'a') as u32 + 10),
        b'A'..=b'F' => Some((b - b'A') as u32 + 10),
        _ => None,
    }
}

/// The number that up to four hexadecimal digits spell.
#[tactic(auto, using(crate::proofs::Groups::sixteen_below), unfolding(crate::specs::Numbers::digits_from))]
fn hexadecimal_of(text: &[u8]) -> Option<u64>
    requires { length text.now ≤ 4 }
    ensures number { result ≡ digits_from hexadecimal_digit 16 0 text.now }
    ensures small { IfSome result (λ n. n < 65536) }
{
    let mut value: u64 = 0;
    for b in text {
        let digit = hexadecimal_digit(*b)?;
        value = value * 16 + digit as u64;
    }
    Some(value)
}

/// The number of one to four hexadecimal digits.
fn group(text: &[u8]) -> Option<u32>
    ensures group { result ≡ group text.now }
    ensures small { IfSome result (λ n. n < 65536) }
{
    if text.is_empty() || text.len() > 4 {
        return None;
    }
    let value = hexadecimal_of(text)?;
    Some(value as u32)
}

/// A group more behind some, of at most eight.
#[tactic(auto, using(crate::proofs::Groups::groups_below))]
fn with_group(groups: Grouped, group: u32) -> Option<Grouped>
    requires groups { AreGroups groups }
    requires group { group < 65536 }
    ensures next { option_map groups_of result ≡ with_group (groups_of groups) group }
    ensures groups { IfSome result AreGroups }
{
    if groups.count >= 8 {
        return None;
    }
    Some(Grouped {
        count: groups.count + 1,
        number: groups.number * 65536 + group as u128,
    })
}

/// So many groups of zeros more.
#[tactic(auto, using(crate::proofs::Groups::zeros_step, crate::proofs::Groups::zeros_none))]
fn with_zeros(zeros: usize, groups: Grouped) -> Option<Grouped>
    requires { AreGroups groups }
    ensures groups { IfSome result AreGroups }
    ensures filled { option_map groups_of result ≡ with_zeros zeros (groups_of groups) }
{
    let mut groups = groups;
    let mut left = zeros;
    while left > 0 {
        groups = with_group(groups, 0)?;
        left -= 1;
    }
    Some(groups)
}

/// Behind some groups those of a text, with colons between; at most eight in all.
#[tactic(auto, unfolding(crate::specs::Addresses::groups_from))]
fn groups_in(groups: Grouped, text: &[u8]) -> Option<Grouped>
    requires { AreGroups groups }
    ensures groups { IfSome result AreGroups }
    ensures all { option_map groups_of result ≡ groups_in (groups_of groups) text.now }
{
    if text.is_empty() {
        return Some(groups);
    }
    let mut groups = groups;
    let mut rest = Some(text);
    while let Some(text) = rest {
        let (piece, after) = next_piece(b':', text);
        let next = group(piece)?;
        groups = with_group(groups, next)?;
        rest = after;
    }
    Some(groups)
}

/// What stands before the first two colons side by side, and what behind them.
#[tactic(auto, using(crate::proofs::Groups::gap_none), unfolding(crate::specs::Addresses::cut_at_gap))]
fn cut_at_gap(text: &[u8]) -> Option<(&[u8], &[u8])>
    ensures { seen_parts result ≡ cut_at_gap text.now }
{
    let mut i = 0;
    while i + 1 < text.len() {
        if text[i] == b':' && text[i + 1] == b':' {
            return Some((&text[..i], &text[i + 2..]));
        }
        i += 1;
    }
    None
}

const NONE: Grouped = Grouped {
    count: 0,
    number: 0,
};

/// The number of the groups before and behind two colons.
#[tactic(auto, unfolding(crate::specs::Addresses::around_gap))]
fn around_gap(before: &[u8], behind: &[u8]) -> Option<u128>
    ensures { result ≡ around_gap before.now behind.now }
{
    let front = groups_in(NONE, before)?;
    let back = groups_in(NONE, behind)?;
    if front.count + back.count >= 8 {
        return None;
    }
    let zeros = with_zeros(8 - (front.count + back.count), front)?;
    let whole = groups_in(zeros, behind)?;
    Some(whole.number)
}

/// The number of an IPv6 address text.
#[tactic(auto, unfolding(crate::specs::Addresses::ipv6_number))]
pub fn ipv6_number(text: &[u8]) -> Option<u128>
    ensures { result ≡ ipv6_number text.now }
{
    if let Some((before, behind)) = cut_at_gap(text) {
        return around_gap(before, behind);
    }
    let groups = groups_in(NONE, text)?;
    if groups.count != 8 {
        return None;
    }
    Some(groups.number)
}
