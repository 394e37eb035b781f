//! The least of keys.

ghost use Rattle.ug_hearing.specs.Least.{IsLesser, IsLeastOf};

use std::cmp::Ordering;
use ug_types::{Key, comparison_laws};

/// The lesser of two keys; where one isn't there it is the other.
pub fn lesser(one: Option<Key>, other: Option<Key>) -> Option<Key>
    ensures { IsLesser one other result }
{
    comparison_laws();
    let Some(one) = one else {
        return other;
    };
    let Some(other) = other else {
        return Some(one);
    };
    match other.cmp(&one) {
        Ordering::Less => Some(other),
        Ordering::Equal | Ordering::Greater => Some(one),
    }
}

/// The least of these keys; None exactly where there are none.
pub fn least(keys: &[Key]) -> Option<Key>
    ensures { IsLeastOf keys.now result }
{
    let mut least = None;
    for key in keys {
        least = lesser(least, Some(*key));
    }
    least
}
