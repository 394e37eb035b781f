//! The fields of a table, one after the other.

ghost use Rattle.std.specs.Prelude.{◌≡◌};
ghost use Rattle.std.specs.Option.{option_map};
ghost use Rattle.toml.specs.Data.{as_table, get};
ghost use Rattle.toml.specs.View.{view, table_view};
ghost use Rattle.ug_config.specs.Gives.{Gives, GivesItems};
ghost use Rattle.ug_config.specs.Reads.{each_read};
ghost use Rattle.ug_config.specs.Tables.{given, entry, default_of, fields, unknown, unknown_in, is_row};

use crate::fields::Field;
use crate::given::Given;
use crate::kind::{Need, Row};
use crate::refusals::{ConfigRefusal, refusal};
use crate::values::value_as;
use std::alloc::Global;
use toml::{Table, Value};
use ug_types::Family;

#[tactic(auto, unfolding(crate::specs::Tables::fields))]
/// The fields of a table in the order of the rows: 2 a required one is missing, 3 one is of another kind, out of range
/// or malformed; and then 4 there is one that no row has. The way leads to the table and ends in a point.
pub fn read_table(
    alloc: Global,
    own: Family,
    way: &str,
    rows: &[Row],
    table: &Value,
) -> Result<Vec<Field>, ConfigRefusal>
    ensures { GivesItems result (fields own way.now rows.now (view table.now)) }
{
    let fields = read_rows(alloc, own, way, rows, table)?;
    if let Some(name) = unknown_in_value(rows, table) {
        return Err(refusal(alloc, 4, way, name));
    }
    Ok(fields)
}

fn read_rows(
    alloc: Global,
    own: Family,
    way: &str,
    rows: &[Row],
    table: &Value,
) -> Result<Vec<Field>, ConfigRefusal>
    ensures { GivesItems result (each_read (entry own way.now (view table.now)) rows.now) }
{
    let mut fields = Vec::with_capacity(alloc, rows.len())?;
    for row in rows {
        let field = read_row(alloc, own, way, row, table)?;
        fields.push(field)?;
    }
    Ok(fields)
}

fn read_row(
    alloc: Global,
    own: Family,
    way: &str,
    row: &Row,
    table: &Value,
) -> Result<Field, ConfigRefusal>
    ensures { Gives result (entry own way.now (view table.now) row.now) }
{
    let given = read_given(alloc, own, way, row, table.get(row.name))?;
    Ok(Field {
        name: row.name,
        given,
    })
}

/// What a row's field says, where it is there.
fn read_given(
    alloc: Global,
    own: Family,
    way: &str,
    row: &Row,
    value: Option<&Value>,
) -> Result<Given, ConfigRefusal>
    ensures { Gives result (given own way.now row.now (option_map (λ v. view v.now) value.entry)) }
{
    let Some(value) = value else {
        return match default_of(row.need) {
            Some(given) => Ok(given),
            None => Err(refusal(alloc, 2, way, row.name)),
        };
    };
    match value_as(alloc, own, row.kind, value)? {
        Some(given) => Ok(given),
        None => Err(refusal(alloc, 3, way, row.name)),
    }
}

/// What stands for a field that isn't there.
fn default_of(need: Need) -> Option<Given>
    ensures { result ≡ default_of need }
{
    match need {
        Need::Required => None,
        Need::Optional => Some(Given::Absent),
        Need::Number(n) => Some(Given::Number(n)),
        Need::False => Some(Given::Flag(false)),
        Need::Ipv4 => Some(Given::Family(Family::V4)),
    }
}

fn unknown_in_value<'a>(rows: &[Row], value: &'a Value) -> Option<&'a str>
    ensures { option_map (λ name. name.now) result ≡ unknown rows.now (as_table (view value.now)) }
{
    match value.as_table() {
        Some(table) => unknown_in(rows, table),
        None => None,
    }
}

/// The first field, in the order of their bytes, that no row has.
fn unknown_in<'a>(rows: &[Row], table: &'a Table) -> Option<&'a str>
    ensures { option_map (λ name. name.now) result ≡ unknown_in rows.now (table_view table.now) }
{
    for (name, _value) in table.iter() {
        if !is_row(rows, name.as_str()) {
            return Some(name.as_str());
        }
    }
    None
}

fn is_row(rows: &[Row], name: &str) -> bool
    ensures { result ≡ is_row rows.now name.now }
{
    for row in rows {
        if row.name == name {
            return true;
        }
    }
    false
}
