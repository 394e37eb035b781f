//! The tables of an array.

ghost use Rattle.std.specs.Prelude.{map, List, ℕ};
ghost use Rattle.toml.specs.Data.{Data};
ghost use Rattle.toml.specs.View.{view};
ghost use Rattle.ug_config.specs.Gives.{Gives, GivesItems};
ghost use Rattle.ug_config.specs.Reads.{Reads, way_into, each_table};

use crate::refusals::ConfigRefusal;
use std::alloc::Global;
use toml::Value;

/// A kind of table, and what is read from one.
pub trait TableReader {
    type Item: Drop;

    ghost reading: { List ℕ → Data → Reads Self.Item };

    /// Reads a table. The way leads to it and ends in a point.
    fn read(alloc: Global, way: &str, table: &Value) -> Result<Self::Item, ConfigRefusal>
        ensures { Gives result (reading way.now (view table.now)) };
}

/// What the table at a place of an array says. The way leads to the array.
fn read_at<T: TableReader>(
    alloc: Global,
    array: &str,
    place: usize,
    table: &Value,
) -> Result<T::Item, ConfigRefusal>
    ensures { Gives result (T.reading (way_into array.now place) (view table.now)) }
{
    let way = format!(in alloc; "{array}.{place}.")?;
    T::read(alloc, way.as_str(), table)
}

/// What each table of an array says. The way leads to the array.
pub fn read_each<T: TableReader>(
    alloc: Global,
    array: &str,
    tables: &[Value],
) -> Result<Vec<T::Item>, ConfigRefusal>
    ensures { GivesItems result (each_table T.reading array.now 0 (map view tables.now)) }
{
    let mut read = Vec::with_capacity(alloc, tables.len())?;
    let mut place: usize = 0;
    for table in tables {
        let one = read_at::<T>(alloc, array, place, table)?;
        read.push(one)?;
        place += 1;
    }
    Ok(read)
}
