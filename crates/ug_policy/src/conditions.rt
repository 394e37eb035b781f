//! When an entry is met.

ghost use Rattle.std.specs.Prelude.{◌≡◌};
ghost use Rattle.ug_types.specs.Attributes.{attributes_of};
ghost use Rattle.ug_policy.specs.Rules.{rule_of};
ghost use Rattle.ug_policy.specs.Maps.{holds_wanted, is_wanted, has_wanted, is_met_by, is_met};

use crate::map_entry::MapEntry;
use crate::named_lists::{ListTable, is_permitted};
use ug_types::{AttrParts, Attrs, Prefix};

/// Whether all the matches of an entry hold.
pub fn is_met(entry: &MapEntry, lists: &ListTable, attrs: &Attrs, prefix: &Prefix) -> bool
    ensures { result ≡ is_met lists.now.items prefix.now attrs.now (rule_of entry.now) }
{
    is_permitted(lists, prefix, &entry.match_prefix_list) && is_met_by(entry, attrs.parts())
}

/// Whether the matches on attributes hold.
fn is_met_by(entry: &MapEntry, parts: &AttrParts) -> bool
    ensures { result ≡ is_met_by (attributes_of parts.now) (rule_of entry.now) }
{
    holds_wanted(entry.match_community, parts.communities.as_slice())
        && is_wanted(
            entry.match_origin.map(|origin| origin as u32),
            parts.origin as u32,
        )
        && has_wanted(entry.match_med, parts.med)
        && is_wanted(entry.match_local_pref, parts.local_pref.unwrap_or(100))
}

/// Whether the number that is asked for is among some, or none is asked for.
fn holds_wanted(wanted: Option<u32>, numbers: &[u32]) -> bool
    ensures { result ≡ holds_wanted wanted numbers.now }
{
    match wanted {
        None => true,
        Some(wanted) => numbers.contains(&wanted),
    }
}

/// Whether a number is the one that is asked for, or none is asked for.
fn is_wanted(wanted: Option<u32>, number: u32) -> bool
    ensures { result ≡ is_wanted wanted number }
{
    match wanted {
        None => true,
        Some(wanted) => number == wanted,
    }
}

/// Whether there is a number and it is the one that is asked for, or none is asked for.
fn has_wanted(wanted: Option<u32>, number: Option<u32>) -> bool
    ensures { result ≡ has_wanted wanted number }
{
    match number {
        None => wanted.is_none(),
        Some(number) => is_wanted(wanted, number),
    }
}
