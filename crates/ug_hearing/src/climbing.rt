//! One step of a climb.

ghost use Rattle.std.specs.Prelude.{◌≡◌, ◌≤◌, ◌<◌, ◌+◌, ◌↔◌, ℕ, List, IfSome, IfNone, IsTrue, option_copied};
ghost use Rattle.ug_types.specs.Attributes.{Attributes};
ghost use Rattle.ug_hearing.specs.Pasts.{StandsIn, Climbs, NeverHas, value_before};
ghost use Rattle.ug_hearing.specs.Searching.{IsSearched};

use crate::change::{Change, Standing};
use ug_types::{Attrs, Shared, value_laws};

/// The climb's next standing: the least place, not before the present one, at which the past has this value. Answers
/// `None` where there is none.
pub fn climb(changes: &[Change], from: Standing, value: Option<&Attrs>) -> Option<Standing>
    ensures climbs { (past : List (_)) → StandsIn past changes.now from → IfSome result (λ to. Climbs past changes.now from (option_copied value.entry) to) }
    ensures stuck { (past : List (_)) → StandsIn past changes.now from → IfNone result (NeverHas past from.place (option_copied value.entry)) }
{
    if is_same(value_at(changes, from.next), value) {
        return Some(from);
    }
    first_to(changes, from.next, value)
}

/// The value that holds before the change of this number: that of the last change before it, and no route
/// before the first, nor behind the last.
pub fn value_at(changes: &[Change], next: usize) -> Option<&Attrs>
    ensures { option_copied result ≡ value_before next changes.now }
{
    if next == 0 {
        return None;
    }
    let change = changes.get(next - 1)?;
    match &change.value {
        Some(attrs) => Some(attrs.get()),
        None => None,
    }
}

/// Whether two values are the same.
pub fn is_same(one: Option<&Attrs>, other: Option<&Attrs>) -> bool
    ensures { IsTrue result ↔ (option_copied one.entry ≡ option_copied other.entry) }
{
    value_laws();
    match one {
        None => other.is_none(),
        Some(one) => match other {
            None => false,
            Some(other) => *one == *other,
        },
    }
}

/// The first change to this value, from a number on.
fn first_to(changes: &[Change], next: usize, value: Option<&Attrs>) -> Option<Standing>
    ensures { IsSearched next changes.now (option_copied value.entry) result }
{
    for i in next..changes.len() {
        if is_same(value_at(changes, i + 1), value) {
            return Some(Standing {
                place: changes[i].place,
                next: i + 1,
            });
        }
    }
    None
}
