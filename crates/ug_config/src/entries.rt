//! Entries of prefix lists.

ghost use Rattle.std.specs.Prelude.{◌≡◌};
ghost use Rattle.ug_policy.specs.Lists.{is_good};
ghost use Rattle.ug_config.specs.Gives.{Gives};
ghost use Rattle.ug_config.specs.Readings.{list_entry, list_entry_of, where_good};

use crate::each::TableReader;
use crate::fields::{Field, octet_at};
use crate::local::{flag, number, prefix};
use crate::refusals::{ConfigRefusal, refusal};
use crate::rows::list_entry_fields;
use std::alloc::Global;
use toml::Value;
use ug_policy::ListEntry;

/// The entries of a prefix list.
pub struct ListEntries;

impl TableReader for ListEntries {
    type Item = ListEntry;

    ghost reading = { list_entry };

    #[tactic(auto, unfolding(crate::specs::Readings::list_entry))]
    fn read(alloc: Global, way: &str, table: &Value) -> Result<ListEntry, ConfigRefusal> {
        let fields = list_entry_fields(alloc, way, table)?;
        where_good(alloc, way, list_entry_of(fields.as_slice()))
    }
}

fn list_entry_of(fields: &[Field]) -> ListEntry
    ensures { result ≡ list_entry_of fields.now }
{
    ListEntry {
        seq: number(fields, "seq"),
        permit: flag(fields, "action"),
        prefix: prefix(fields, "prefix"),
        ge: octet_at(fields, "ge"),
        le: octet_at(fields, "le"),
    }
}

/// An entry that is good: 3 at its last bound where it isn't.
fn where_good(alloc: Global, way: &str, entry: ListEntry) -> Result<ListEntry, ConfigRefusal>
    ensures { Gives result (where_good way.now entry) }
{
    if entry.is_good() {
        return Ok(entry);
    }
    let name = if entry.le.is_some() { "le" } else { "ge" };
    Err(refusal(alloc, 3, way, name))
}
