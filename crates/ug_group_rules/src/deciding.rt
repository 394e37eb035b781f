//! For which group keys a prefix list decides.

ghost use Rattle.std.specs.Prelude.{◌≡◌, map};
ghost use Rattle.std.specs.List.{list_any};
ghost use Rattle.ug_policy.specs.Rules.{rule_of};
ghost use Rattle.ug_world.specs.Touches.{asks, decides_for, is_asked_in, is_called};

use ug_outbound::{GroupKey, Policies};
use ug_policy::{MapEntry, RouteMap, find_named};
use ug_types::Name;

/// Whether the prefix list of that name is the one of the key, or its route map asks it. To no other key do its entries matter.
pub fn decides_for(policies: &Policies, key: &GroupKey, name: &Name) -> bool
    ensures { result ≡ decides_for policies.now key.now name.now }
{
    is_called(name, &key.list) || is_asked_in(policies, name, &key.map)
}

fn is_called(name: &Name, other: &Option<Name>) -> bool
    ensures { result ≡ is_called name.now other.now }
{
    match other {
        None => false,
        Some(other) => other == name,
    }
}

/// Whether the route map of that name is there, and asks the list.
fn is_asked_in(policies: &Policies, name: &Name, map: &Option<Name>) -> bool
    ensures { result ≡ is_asked_in policies.now name.now map.now }
{
    let Some(map) = map else {
        return false;
    };
    match find_named(policies.maps.as_slice(), map) {
        Some(map) => is_asked_by(name, map),
        None => false,
    }
}

fn is_asked_by(name: &Name, map: &RouteMap) -> bool
    ensures { result ≡ list_any (asks name.now) map.now }
{
    is_asked_among(name, map.entries())
}

/// Whether one of these entries asks it.
fn is_asked_among(name: &Name, entries: &[MapEntry]) -> bool
    ensures { result ≡ list_any (asks name.now) (map rule_of entries.now) }
{
    match entries {
        [] => false,
        [first, rest @ ..] => {
            is_called(name, &first.match_prefix_list) || is_asked_among(name, rest)
        }
    }
}
