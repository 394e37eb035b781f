//! A document, and what its tables hold.

ghost use Rattle.std.specs.Prelude.{◌≡◌, map, None, Result, Ok, Err};
ghost use Rattle.toml.specs.Data.{table};
ghost use Rattle.toml.specs.View.{view};
ghost use Rattle.toml.specs.Parse.{parse_document};
ghost use Rattle.ug_config.specs.Tables.{parsed, document};
ghost use Rattle.ug_config.specs.Kinds.{tables_at, family_at};
ghost use Rattle.ug_config.specs.Views.{GivesData};

use crate::arrays::elements;
use crate::refusals::{ConfigRefusal, refusal};
use std::alloc::Global;
use toml::Value;
use ug_types::Family;

/// The table that a text stands for: 1 where it is no TOML.
#[tactic(auto, using(crate::proofs::Utf8::utf8_told, crate::proofs::Utf8::utf8_refused))]
pub fn read_document(alloc: Global, bytes: &[u8]) -> Result<Value, ConfigRefusal>
    ensures { GivesData result (document bytes.now) }
{
    let Ok(text) = str::from_utf8(bytes) else {
        return Err(refusal(alloc, 1, "", "-"));
    };
    parse(alloc, text)
}

fn parse(alloc: Global, text: &str) -> Result<Value, ConfigRefusal>
    ensures { GivesData result (parsed (parse_document text.now)) }
{
    match toml::table_from_str(alloc, text) {
        Ok(table) => Ok(Value::Table(table)),
        Err(e) => {
            if e.is_memory() {
                return Err(ConfigRefusal::NoMemory);
            }
            Err(refusal(alloc, 1, "", "-"))
        }
    }
}

/// The tables of the array at a name; none where there is no array.
pub fn tables_at<'a>(table: &'a Value, name: &str) -> &'a [Value]
    ensures { map view result.now ≡ tables_at name.now (view table.now) }
{
    match table.get(name) {
        None => &[],
        Some(array) => match elements(array) {
            None => &[],
            Some(tables) => tables,
        },
    }
}

/// The family that a table names; IPv4 where it names none.
pub fn family_at(table: &Value) -> Family
    ensures { result ≡ family_at (view table.now) }
{
    let Some(value) = table.get("family") else {
        return Family::V4;
    };
    match value.as_str() {
        Some(text) => if text == "ipv6" {
            Family::V6
        } else {
            Family::V4
        },
        None => Family::V4,
    }
}
