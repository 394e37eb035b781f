//! Where a key stands among keys that ascend.

ghost use Rattle.std.specs.Prelude.{◌≡◌, ◌<◌, ◌≤◌, length, false, IfSome, IfNone};
ghost use Rattle.std.specs.List.Sorted.{IsStrictlySortedBy};
ghost use Rattle.ug_types.specs.Orders.{key_cmp};
ghost use Rattle.ug_message.specs.Tables.{among};
ghost use Rattle.ug_hearing.specs.Keyed.{IsPlaceOf, IsWithin};

use std::cmp::Ordering;
use ug_types::{Key, comparison_laws};

/// The place of a key among keys that ascend; None exactly where it isn't among them. It is looked for near a place, and then
/// ever further away from there, so that the key at that place and the one behind it are found at once.
pub fn place_among(keys: &[Key], near: usize, key: &Key) -> Option<usize>
    requires { IsStrictlySortedBy key_cmp keys.now }
    ensures found { IfSome result (IsPlaceOf key.now keys.now) }
    ensures none { IfNone result (among keys.now key.now ≡ false) }
{
    comparison_laws();
    if keys.is_empty() {
        return None;
    }
    let first = near.min(keys.len() - 1);
    match keys[first].cmp(key) {
        Ordering::Equal => Some(first),
        Ordering::Less => place_between(keys, first + 1, keys.len(), true, key),
        Ordering::Greater => place_between(keys, 0, first, false, key),
    }
}

/// The same where the key can only stand between two places. It is looked for from the first of them on, or from the last one
/// back.
fn place_between(keys: &[Key], from: usize, to: usize, is_forward: bool, key: &Key) -> Option<usize>
    requires sorted { IsStrictlySortedBy key_cmp keys.now }
    requires to { to ≤ length keys.now }
    requires within { IsWithin key.now keys.now from to }
    ensures found { IfSome result (IsPlaceOf key.now keys.now) }
    ensures none { IfNone result (among keys.now key.now ≡ false) }
{
    comparison_laws();
    let mut low = from;
    let mut high = to;
    let mut step: usize = 0;
    while low < high {
        let at = next_place(low, high, step, is_forward);
        step = step.saturating_mul(2).saturating_add(1);
        match keys[at].cmp(key) {
            Ordering::Equal => return Some(at),
            Ordering::Less => low = at + 1,
            Ordering::Greater => high = at,
        }
    }
    None
}

/// A place between two, so many steps from one of them, or in their middle, where that is nearer.
fn next_place(low: usize, high: usize, step: usize, is_forward: bool) -> usize
    requires { low < high }
    ensures low { low ≤ result }
    ensures high { result < high }
{
    let away = step.min((high - low) / 2);
    if is_forward {
        low + away
    } else {
        high - 1 - away
    }
}
