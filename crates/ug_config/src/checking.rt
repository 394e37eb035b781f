//! Checks over the tables of an array: the first fault decides.

ghost use Rattle.std.specs.Prelude.{◌≡◌, ◌++◌, ℕ, Option, take, IfOk};
ghost use Rattle.std.specs.String.{string_bytes};
ghost use Rattle.ug_config.specs.Reads.{Refusal, way_into};
ghost use Rattle.ug_config.specs.Checks.{Passes, refused_where, first_fault};

use crate::refusals::{ConfigRefusal, refusal};
use std::alloc::Global;
use ug_types::NoMemory;

/// A check of what stands at a place of an array.
pub trait Check {
    type Item;

    ghost fault: { Self → ℕ → Self.Item → Option Refusal };

    fn check(&self, alloc: Global, place: usize, item: &Self::Item) -> Result<(), ConfigRefusal>
        ensures { Passes result (fault self.now place item.now) };
}

/// The first fault of those at each place.
#[tactic(auto, using(crate::proofs::Faults::passed, crate::proofs::Faults::told_first))]
pub fn check_each<C: Check>(
    alloc: Global,
    check: &C,
    items: &[C::Item],
) -> Result<(), ConfigRefusal>
    ensures { Passes result (first_fault (C.fault check.now) 0 items.now) }
{
    let mut place: usize = 0;
    for item in items {
        check.check(alloc, place, item)?;
        place += 1;
    }
    Ok(())
}

/// The way into the table at a place of an array.
pub fn way_into(alloc: Global, array: &str, place: usize) -> Result<String, NoMemory>
    ensures { IfOk result (λ way. string_bytes way ≡ way_into array.now place) }
{
    let way = format!(in alloc; "{array}.{place}.")?;
    Ok(way)
}

/// A fault in a field of the table at a place of an array.
pub fn refuse_where(
    fails: bool,
    alloc: Global,
    number: u8,
    array: &str,
    place: usize,
    name: &str,
) -> Result<(), ConfigRefusal>
    ensures { Passes result (refused_where fails number (way_into array.now place ++ name.now)) }
{
    if !fails {
        return Ok(());
    }
    let way = way_into(alloc, array, place)?;
    Err(refusal(alloc, number, way.as_str(), name))
}

/// A fault in a field of the document.
pub fn refuse_array(
    fails: bool,
    alloc: Global,
    number: u8,
    way: &str,
    name: &str,
) -> Result<(), ConfigRefusal>
    ensures { Passes result (refused_where fails number (way.now ++ name.now)) }
{
    if !fails {
        return Ok(());
    }
    Err(refusal(alloc, number, way, name))
}

/// The items before a place.
pub fn items_before<T>(items: &[T], place: usize) -> &[T]
    ensures { result.now ≡ take place items.now }
{
    if place < items.len() {
        &items[..place]
    } else {
        items
    }
}
