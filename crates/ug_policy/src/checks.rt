//! Which entries are a route map.

ghost use Rattle.std.specs.Prelude.{◌≡◌, map, unwrap_or};
ghost use Rattle.std.specs.List.{list_all, list_any};
ghost use Rattle.ug_types.specs.Bytes.{same_bytes};
ghost use Rattle.ug_policy.specs.Rules.{rule_of, numbers_of};
ghost use Rattle.ug_policy.specs.Refusals.{is_origin, sets_origin, is_ahead, leads_ahead, is_among, is_known, count_in, has_few_sets, refusal_in_order};

use crate::map_entry::{MapEntry, MapEntryList, OnMatch};
use crate::numbered::is_rising;
use ug_types::{Name, NameList, NumberList};

#[tactic(auto, using(crate::proofs::Shown::rises_shown, crate::proofs::Shown::length_shown))]
/// Why entries that should be in ascending order are refused.
pub fn refusal_in_order(entries: &[MapEntry], lists: &NameList) -> Option<u8>
    ensures { result ≡ refusal_in_order lists.now.items (map rule_of entries.now) }
{
    if !is_rising(entries) {
        return Some(1);
    }
    if !are_ahead(entries) {
        return Some(2);
    }
    if entries.len() > 256 {
        return Some(3);
    }
    if !are_known(entries, lists) {
        return Some(4);
    }
    if !has_few_sets(entries) {
        return Some(5);
    }
    None
}

/// Whether each ORIGIN that the entries set is one that has a meaning, which `RouteMap::new` wants.
pub fn set_known_origins(entries: &MapEntryList) -> bool
    ensures { result ≡ list_all sets_origin (map rule_of entries.now.items) }
{
    are_origins_known(entries.as_slice())
}

fn are_origins_known(entries: &[MapEntry]) -> bool
    ensures { result ≡ list_all sets_origin (map rule_of entries.now) }
{
    for entry in entries {
        if !is_origin(entry.set_origin) {
            return false;
        }
    }
    true
}

fn is_origin(given: Option<u8>) -> bool
    ensures { result ≡ is_origin given }
{
    match given {
        None => true,
        Some(origin) => origin <= 2,
    }
}

/// Whether each goto leads past its own entry.
fn are_ahead(entries: &[MapEntry]) -> bool
    ensures { result ≡ list_all is_ahead (map rule_of entries.now) }
{
    for entry in entries {
        if !leads_ahead(entry.seq, entry.on_match) {
            return false;
        }
    }
    true
}

fn leads_ahead(seq: u32, on_match: OnMatch) -> bool
    ensures { result ≡ leads_ahead seq on_match }
{
    match on_match {
        OnMatch::End | OnMatch::Next => true,
        OnMatch::Goto(n) => seq < n,
    }
}

/// Whether each list that is named is one of these.
fn are_known(entries: &[MapEntry], lists: &NameList) -> bool
    ensures { result ≡ list_all (is_known lists.now.items) (map rule_of entries.now) }
{
    for entry in entries {
        if !is_among(lists, &entry.match_prefix_list) {
            return false;
        }
    }
    true
}

/// Whether a name is one of these, or none is given.
fn is_among(names: &NameList, name: &Option<Name>) -> bool
    ensures { result ≡ is_among names.now.items name.now }
{
    match name {
        None => true,
        Some(name) => is_name_among(names.as_slice(), name),
    }
}

fn is_name_among(names: &[Name], name: &Name) -> bool
    ensures { result ≡ list_any (λ n. same_bytes n name.now) names.now }
{
    for one in names {
        if *one == *name {
            return true;
        }
    }
    false
}

/// Whether the entries together prepend at most 16 numbers, and set and add at most 16 communities.
fn has_few_sets(entries: &[MapEntry]) -> bool
    ensures { result ≡ has_few_sets (map rule_of entries.now) }
{
    let mut prepends: usize = 0;
    let mut communities: usize = 0;
    for entry in entries {
        prepends = prepends.saturating_add(count_in(&entry.set_prepend));
        communities = communities
            .saturating_add(count_in(&entry.set_communities))
            .saturating_add(count_in(&entry.add_communities));
    }
    prepends <= 16 && communities <= 16
}

/// How many numbers are given.
fn count_in(given: &Option<NumberList>) -> usize
    ensures { result ≡ count_in (numbers_of given.now) }
{
    match given {
        None => 0,
        Some(numbers) => numbers.len(),
    }
}
