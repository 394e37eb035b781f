//! A text, and what its tables say.

ghost use Rattle.std.specs.Prelude.{IfOk};
ghost use Rattle.ug_config.specs.Gives.{Gives};
ghost use Rattle.ug_config.specs.Checks.{setup, checked};
ghost use Rattle.ug_config.specs.Worlds.{IsSound};

use crate::checks::check_all;
use crate::document::read_document;
use crate::refusals::ConfigRefusal;
use crate::setup::{Setup, read_tables};
use std::alloc::Global;

/// What the tables of a configuration say, or the first refusal: 1 the text is no TOML; then, table by table, 2 a
/// required field or table is missing, 3 a value is of another kind, out of range or malformed, 4 a field is unknown;
/// then, over all tables, 5 a name or a sequence number stands twice, 6 a name is unknown, 7 there is more than the
/// limit, 8 an internal peer has `as_override` or `remove_private_as`, 9 an external peer is a client.
pub fn read_setup(alloc: Global, bytes: &[u8]) -> Result<Setup, ConfigRefusal>
    ensures read { Gives result (setup bytes.now) }
    ensures sound { IfOk result (λ t. IsSound t) }
{
    let setup = read_checked(alloc, bytes)?;
    Ok(setup)
}

#[tactic(auto, unfolding(crate::specs::Checks::setup))]
fn read_checked(alloc: Global, bytes: &[u8]) -> Result<Setup, ConfigRefusal>
    ensures { Gives result (setup bytes.now) }
{
    let document = read_document(alloc, bytes)?;
    let tables = read_tables(alloc, &document)?;
    pass(alloc, tables)
}

fn pass(alloc: Global, tables: Setup) -> Result<Setup, ConfigRefusal>
    ensures { Gives result (checked tables) }
{
    check_all(alloc, &tables)?;
    Ok(tables)
}
