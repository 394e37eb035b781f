//! Lines of events, as a world takes them.

ghost use Rattle.std.specs.Prelude.{IfOk, IfSome, IfNone};
ghost use Rattle.ug_events.specs.Grammar.{line_of};
ghost use Rattle.ug_events.specs.Views.{event_of};
ghost use Rattle.ug_world.specs.Worlds.{outcome};
ghost use Rattle.ug_audit_rules.specs.Lines.{IsAccepted, IsPassed};

use ug_events::{Event, Line, LineReader, LineRefusal};
use ug_types::NoMemory;
use ug_world::World;

/// The event of a line, where it has one that the world accepts.
pub fn accepted(
    reader: &mut LineReader,
    world: &World,
    line: &[u8],
) -> Result<Option<Event>, NoMemory>
    ensures some { IfOk result (λ found. IfSome found (λ event. IsAccepted world.now (line_of line.now) (event_of event))) }
    ensures none { IfOk result (λ found. IfNone found (IsPassed world.now (outcome world.now (line_of line.now)))) }
{
    let event = match reader.read(line) {
        Ok(Line::Happened(event)) => event,
        Ok(Line::Blank) => return Ok(None),
        Ok(Line::Sync) => return Ok(None),
        Err(LineRefusal::Refused { .. }) => return Ok(None),
        Err(LineRefusal::NoMemory) => return Err(NoMemory),
    };
    match world.judge(&event) {
        Ok(()) => Ok(Some(event)),
        Err(_) => Ok(None),
    }
}
