//! Equal entries of their own.

ghost use Rattle.std.specs.Prelude.{◌≡◌, map, IfOk};
ghost use Rattle.ug_policy.specs.Rules.{rule_of, numbers_of};

use crate::map_entry::{MapEntry, MapEntryList};
use std::alloc::Global;
use ug_types::{Name, NoMemory, NumberList, Sequence};

/// Equal entries.
pub fn copy_entries(alloc: Global, entries: &[MapEntry]) -> Result<MapEntryList, NoMemory>
    ensures { IfOk result (λ copy. map rule_of copy.items ≡ map rule_of entries.now) }
{
    let mut copy = Vec::with_capacity(alloc, entries.len())?;
    for entry in entries {
        copy.push(copy_entry(alloc, entry)?)?;
    }
    Ok(Sequence::from_vec(copy))
}

/// An equal entry.
fn copy_entry(alloc: Global, entry: &MapEntry) -> Result<MapEntry, NoMemory>
    ensures { IfOk result (λ copy. rule_of copy ≡ rule_of entry.now) }
{
    Ok(MapEntry {
        seq: entry.seq,
        permit: entry.permit,
        on_match: entry.on_match,
        match_prefix_list: copy_name(alloc, &entry.match_prefix_list)?,
        match_community: entry.match_community,
        match_origin: entry.match_origin,
        match_med: entry.match_med,
        match_local_pref: entry.match_local_pref,
        set_origin: entry.set_origin,
        set_next_hop: entry.set_next_hop,
        set_med: entry.set_med,
        set_local_pref: entry.set_local_pref,
        set_prepend: copy_numbers(alloc, &entry.set_prepend)?,
        set_communities: copy_numbers(alloc, &entry.set_communities)?,
        add_communities: copy_numbers(alloc, &entry.add_communities)?,
    })
}

fn copy_name(alloc: Global, name: &Option<Name>) -> Result<Option<Name>, NoMemory>
    ensures { IfOk result (λ copy. copy ≡ name.now) }
{
    match name {
        None => Ok(None),
        Some(name) => Ok(Some(name.copy(alloc)?)),
    }
}

fn copy_numbers(alloc: Global, numbers: &Option<NumberList>) -> Result<Option<NumberList>, NoMemory>
    ensures { IfOk result (λ copy. numbers_of copy ≡ numbers_of numbers.now) }
{
    match numbers {
        None => Ok(None),
        Some(numbers) => Ok(Some(numbers.copy(alloc)?)),
    }
}
