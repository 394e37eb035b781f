//! What an entry sets.

ghost use Rattle.std.specs.Prelude.{◌≡◌, [], true, map, unwrap_or, OnOk, IfOk};
ghost use Rattle.ug_types.specs.Attributes.{segment_of, attributes_of};
ghost use Rattle.ug_policy.specs.Rules.{rule_of, numbers_of};
ghost use Rattle.ug_policy.specs.Refusals.{is_origin};
ghost use Rattle.ug_policy.specs.Maps.{all_prepended, with_one, added, with_sets, mapped_by};

use crate::map_entry::MapEntry;
use crate::mapped::Mapped;
use crate::path_segments::prepend;
use std::alloc::Global;
use ug_types::{AttrParts, Attrs, NoMemory, NumberList, SegmentList};

/// What a met permit entry makes of what was mapped so far.
pub fn mapped_by(alloc: Global, entry: &MapEntry, mapped: Mapped) -> Result<Mapped, NoMemory>
    requires { is_origin entry.now.set_origin ≡ true }
    ensures { IfOk result (λ m. m ≡ mapped_by (rule_of entry.now) mapped) }
{
    let parts = with_sets(alloc, entry, mapped.attrs.into_parts())?;
    let Ok(attrs) = Attrs::received(parts) else {
        unreachable!()
    };
    Ok(Mapped {
        attrs,
        set_next_hop: mapped.set_next_hop || entry.set_next_hop.is_some(),
        set_med: mapped.set_med || entry.set_med.is_some(),
    })
}

/// The attributes after the sets of an entry.
fn with_sets(alloc: Global, entry: &MapEntry, parts: AttrParts) -> Result<AttrParts, NoMemory>
    ensures { IfOk result (λ out. attributes_of out ≡ with_sets (rule_of entry.now) (attributes_of parts)) }
{
    let mut path = parts.path;
    prepend_all(alloc, &mut path, numbers_of(&entry.set_prepend))?;
    let mut communities = chosen(alloc, &entry.set_communities, parts.communities)?;
    add_all(&mut communities, numbers_of(&entry.add_communities))?;
    Ok(AttrParts {
        origin: entry.set_origin.unwrap_or(parts.origin),
        path,
        next_hop: entry.set_next_hop.unwrap_or(parts.next_hop),
        med: entry.set_med.or(parts.med),
        local_pref: entry.set_local_pref.or(parts.local_pref),
        atomic: parts.atomic,
        aggregator: parts.aggregator,
        communities,
        originator: parts.originator,
        clusters: parts.clusters,
    })
}

/// The numbers that are given, or no number.
fn numbers_of(given: &Option<NumberList>) -> &[u32]
    ensures { result.now ≡ unwrap_or (numbers_of given.now) [] }
{
    match given {
        None => &[],
        Some(numbers) => numbers.as_slice(),
    }
}

/// The numbers that are given, or those that are there.
fn chosen(
    alloc: Global,
    given: &Option<NumberList>,
    there: NumberList,
) -> Result<NumberList, NoMemory>
    ensures { IfOk result (λ out. out.items ≡ unwrap_or (numbers_of given.now) there.items) }
{
    match given {
        None => Ok(there),
        Some(numbers) => numbers.copy(alloc),
    }
}

#[tactic(auto, using(crate::proofs::Prepends::prepended_more))]
/// Puts numbers in front of a path, the last first, so that the first stands first.
fn prepend_all(alloc: Global, path: &mut SegmentList, numbers: &[u32]) -> Result<(), NoMemory>
    ensures { OnOk result (map segment_of path.new.items ≡ all_prepended numbers.now (map segment_of path.old.items)) }
{
    let mut left = numbers.len();
    while left > 0 {
        left -= 1;
        prepend(alloc, path, numbers[left])?;
    }
    Ok(())
}

/// Adds those communities at the end that aren't there yet, in their order.
fn add_all(communities: &mut NumberList, numbers: &[u32]) -> Result<(), NoMemory>
    ensures { OnOk result (communities.new.items ≡ added numbers.now communities.old.items) }
{
    for number in numbers {
        add(communities, *number)?;
    }
    Ok(())
}

/// Adds a community at the end, where it isn't there yet.
fn add(communities: &mut NumberList, number: u32) -> Result<(), NoMemory>
    ensures { OnOk result (communities.new.items ≡ with_one number communities.old.items) }
{
    if communities.as_slice().contains(&number) {
        return Ok(());
    }
    communities.extend_from_slice(&[number])
}
