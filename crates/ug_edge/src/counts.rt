//! Counts that stand still at their last value, and the look-up of calls that are listed to fail.

ghost use Rattle.std.specs.Prelude.{◌≡◌, ◌≤◌};
ghost use Rattle.ug_edge.specs.Fails.{raised, lists, same_kind};
ghost use Rattle.ug_edge.specs.Told.{Rose};

use crate::lists::{CallKind, CallList};

/// One more, up to the last value.
pub(crate) fn raise(count: u64) -> u64
    ensures value { result ≡ raised count }
    ensures rose { Rose count result }
    ensures grown { count ≤ result }
{
    count.saturating_add(1)
}

fn is_same(one: CallKind, other: CallKind) -> bool
    ensures { result ≡ same_kind one other }
{
    match (one, other) {
        (CallKind::Pick, CallKind::Pick) => true,
        (CallKind::Read, CallKind::Read) => true,
        (CallKind::Wire, CallKind::Wire) => true,
        (CallKind::Write, CallKind::Write) => true,
        _ => false,
    }
}

/// Whether the call of that kind with that number is listed.
pub(crate) fn is_listed(fails: &CallList, kind: CallKind, number: u64) -> bool
    ensures { result ≡ lists kind number fails.now.items }
{
    fails.as_slice().iter().any(|fail| is_same(fail.call, kind) && u64::from(fail.number) == number)
}
