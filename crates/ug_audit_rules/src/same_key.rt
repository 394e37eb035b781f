//! Whether two group keys are the same.

ghost use Rattle.std.specs.Prelude.{◌≡◌, IsTrue, ◌↔◌};

use ug_outbound::{GroupKey, Kind};
use ug_policy::Filter;
use ug_types::{Family, Name, value_laws};

/// Whether they are the same, and without filters.
pub fn are_same(one: &GroupKey, other: &GroupKey) -> bool
    ensures { IsTrue result → one.now ≡ other.now }
{
    is_same_kind(one.kind, other.kind)
        && is_same_family(one.family, other.family)
        && is_same_name(&one.list, &other.list)
        && is_same_name(&one.map, &other.map)
        && one.next_hop_self == other.next_hop_self
        && is_same_number(one.as_override, other.as_override)
        && one.remove_private_as == other.remove_private_as
        && one.send_community == other.send_community
        && one.add_path == other.add_path
        && one.extended == other.extended
        && one.enhanced_refresh == other.enhanced_refresh
        && are_both_empty(&one.filter, &other.filter)
}

fn is_same_kind(one: Kind, other: Kind) -> bool
    ensures { IsTrue result → one ≡ other }
{
    match one {
        Kind::External => match other {
            Kind::External => true,
            Kind::Internal | Kind::Client => false,
        },
        Kind::Internal => match other {
            Kind::Internal => true,
            Kind::External | Kind::Client => false,
        },
        Kind::Client => match other {
            Kind::Client => true,
            Kind::External | Kind::Internal => false,
        },
    }
}

fn is_same_family(one: Family, other: Family) -> bool
    ensures { IsTrue result → one ≡ other }
{
    match one {
        Family::V4 => match other {
            Family::V4 => true,
            Family::V6 => false,
        },
        Family::V6 => match other {
            Family::V6 => true,
            Family::V4 => false,
        },
    }
}

fn is_same_name(one: &Option<Name>, other: &Option<Name>) -> bool
    ensures { IsTrue result → one.now ≡ other.now }
{
    value_laws();
    match one {
        None => other.is_none(),
        Some(one) => match other {
            None => false,
            Some(other) => *one == *other,
        },
    }
}

fn is_same_number(one: Option<u32>, other: Option<u32>) -> bool
    ensures { IsTrue result → one ≡ other }
{
    match one {
        None => other.is_none(),
        Some(one) => match other {
            None => false,
            Some(other) => one == other,
        },
    }
}

fn are_both_empty(one: &Filter, other: &Filter) -> bool
    ensures { IsTrue result → one.now ≡ other.now }
{
    one.entries().is_empty() && other.entries().is_empty()
}
