//! Arrays in a document.

ghost use Rattle.std.specs.Prelude.{◌≡◌, map, IfOk};
ghost use Rattle.std.specs.List.{list_all};
ghost use Rattle.std.specs.Option.{option_map};
ghost use Rattle.toml.specs.View.{view};
ghost use Rattle.ug_config.specs.Kinds.{elements, is_table, number_in, community_in, each};

use crate::items::Items;
use crate::texts::community_in;
use crate::values::number_in;
use std::alloc::Global;
use toml::Value;
use ug_types::NoMemory;

/// The elements of an array.
#[tactic(auto, using(crate::proofs::Elements::elements_seen))]
pub fn elements(value: &Value) -> Option<&[Value]>
    ensures { option_map (λ array. map view array.now) result ≡ elements (view value.now) }
{
    match value.as_array() {
        Some(array) => Some(array.as_slice()),
        None => None,
    }
}

/// Whether each is a table.
pub fn are_tables(values: &[Value]) -> bool
    ensures { result ≡ list_all is_table (map view values.now) }
{
    for value in values {
        if !value.is_table() {
            return false;
        }
    }
    true
}

/// Whole numbers from 1 to 4294967295.
pub fn numbers_in(alloc: Global, values: &[Value]) -> Result<Option<Items<u32>>, NoMemory>
    ensures { IfOk result (λ numbers. numbers ≡ each (number_in 1 4294967295) (map view values.now)) }
{
    let mut numbers = Vec::with_capacity(alloc, values.len())?;
    for value in values {
        let Some(number) = number_in(1, u32::MAX, value) else {
            return Ok(None);
        };
        numbers.push(number)?;
    }
    Ok(Some(Items::new(numbers)))
}

/// Communities.
pub fn communities_in(alloc: Global, values: &[Value]) -> Result<Option<Items<u32>>, NoMemory>
    ensures { IfOk result (λ numbers. numbers ≡ each community_in (map view values.now)) }
{
    let mut numbers = Vec::with_capacity(alloc, values.len())?;
    for value in values {
        let Some(number) = community_in(value) else {
            return Ok(None);
        };
        numbers.push(number)?;
    }
    Ok(Some(Items::new(numbers)))
}
