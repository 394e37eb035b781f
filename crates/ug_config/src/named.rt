//! Prefix lists and route maps: a name, and entries.

ghost use Rattle.toml.specs.View.{view};
ghost use Rattle.ug_config.specs.Gives.{Gives};
ghost use Rattle.ug_config.specs.Readings.{own_name, named, with_entries, list_entry, rule};

use crate::document::tables_at;
use crate::each::{TableReader, read_each};
use crate::entries::ListEntries;
use crate::fields::{Field, name_at};
use crate::items::Items;
use crate::refusals::{ConfigRefusal, refusal};
use crate::rows::named_fields;
use crate::rule::{Rule, Rules};
use std::alloc::Global;
use toml::Value;
use ug_policy::ListEntry;
use ug_types::{Name, Named};

/// The name that a table gives itself, which is required.
pub fn own_name(alloc: Global, way: &str, fields: &[Field]) -> Result<Name, ConfigRefusal>
    ensures { Gives result (own_name way.now fields.now) }
{
    match name_at(alloc, fields, "name")? {
        Some(name) => Ok(name),
        None => Err(refusal(alloc, 2, way, "name")),
    }
}

/// The prefix lists.
pub struct Lists;

impl TableReader for Lists {
    type Item = Named<Items<ListEntry>>;

    ghost reading = { named list_entry };

    fn read(
        alloc: Global,
        way: &str,
        table: &Value,
    ) -> Result<Named<Items<ListEntry>>, ConfigRefusal> {
        read_named::<ListEntries>(alloc, way, table)
    }
}

/// The route maps.
pub struct Maps;

impl TableReader for Maps {
    type Item = Named<Items<Rule>>;

    ghost reading = { named rule };

    fn read(alloc: Global, way: &str, table: &Value) -> Result<Named<Items<Rule>>, ConfigRefusal> {
        read_named::<Rules>(alloc, way, table)
    }
}

#[tactic(auto, unfolding(crate::specs::Readings::named))]
fn read_named<E: TableReader>(
    alloc: Global,
    way: &str,
    table: &Value,
) -> Result<Named<Items<E::Item>>, ConfigRefusal>
    ensures { Gives result (named E.reading way.now (view table.now)) }
{
    let fields = named_fields(alloc, way, table)?;
    let name = own_name(alloc, way, fields.as_slice())?;
    with_entries::<E>(alloc, way, table, name)
}

/// The entries, right after the table's own fields.
fn with_entries<E: TableReader>(
    alloc: Global,
    way: &str,
    table: &Value,
    name: Name,
) -> Result<Named<Items<E::Item>>, ConfigRefusal>
    ensures { Gives result (with_entries E.reading way.now (view table.now) name) }
{
    let array = format!(in alloc; "{way}entry")?;
    let entries = read_each::<E>(alloc, array.as_str(), tables_at(table, "entry"))?;
    Ok(Named {
        name,
        value: Items::new(entries),
    })
}
