//! Which verbs a builder knows.

ghost use Rattle.std.specs.Prelude.{◌≡◌, Ok, IfOk, IfErr};
ghost use Rattle.ug_events.specs.Events.{KeepsItsRules};
ghost use Rattle.ug_events.specs.Views.{IsRefusedBy, saying_of};
ghost use Rattle.ug_event_loop.specs.Standing.{said_by};

use ug_events::{Line, LineReader, LineRefusal};

/// Which verbs are known: every one, or those of routes alone.
#[derive(Clone, Copy, PartialEq, Eq)]
pub enum Grammar {
    Every,
    Routes,
}

/// What a line says.
pub(crate) fn read(
    grammar: Grammar,
    reader: &mut LineReader,
    line: &[u8],
) -> Result<Line, LineRefusal>
    ensures read { IfOk result (λ said. said_by grammar line.now ≡ Ok (saying_of said)) }
    ensures refused { IfErr result (λ e. IsRefusedBy e (said_by grammar line.now)) }
    ensures keeps { IfOk result (λ said. KeepsItsRules (saying_of said)) }
{
    match grammar {
        Grammar::Every => reader.read(line),
        Grammar::Routes => reader.read_routes(line),
    }
}
