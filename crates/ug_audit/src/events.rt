//! The events.

ghost use Rattle.std.specs.Prelude.{◌≡◌, ◌∷◌, [], ℕ, Option, List, Ok as Stands, OnOk, IfOk, IfErr, IsErrOf};
ghost use Rattle.ug_edge.specs.Told.{Rose, AppendsAll, file_told};
ghost use Rattle.ug_world.specs.World as worlds;
ghost use Rattle.ug_audit.specs.Files.{IsFile, IsWithin, IsPast};
ghost use Rattle.ug_audit.specs.Auditing.{StandsFor, HasEvents};
ghost use Rattle.ug_audit.specs.Stopping.{said, IsStopped, IsFileStop};

use crate::picking::pick;
use crate::stop::Stop;
use std::alloc::Global;
use ug_commands::AuditWords;
use ug_edge::{Site, Source};
use ug_pieces::{Halt, count_lines, read_whole};
use ug_types::{ByteList, NoMemory};

/// The most bytes of a file of events, and the most lines.
const MOST_BYTES: usize = 1_073_741_824;

const MOST_LINES: usize = 2_000_000;

/// The bytes of the events.
pub fn read_events<E: Site>(
    alloc: Global,
    words: &AuditWords<'_>,
    site: &mut E,
) -> Result<ByteList, Stop>
    ensures ok { IfOk result (λ events. (w : worlds.World) → StandsFor (said words.now) (file_told (E.files site.old)) (Stands w) → HasEvents (said words.now) (file_told (E.files site.old)) w events.items) }
    ensures within { IfOk result (λ events. IsWithin events.items) }
    ensures named { OnOk result (AppendsAll (E.picks site.old).names (E.picks site.new).names (words.now.events.now ∷ [])) }
    ensures stopped { IfErr result (λ stop. (w : worlds.World) (names : Option (List (List ℕ))) → StandsFor (said words.now) (file_told (E.files site.old)) (Stands w) →
        AppendsAll names (E.picks site.old).names (words.now.config.now ∷ []) → IsStopped (said words.now) (file_told (E.files site.old)) (AppendsAll names (E.picks site.new).names) stop) }
    ensures unread { IsErrOf result Stop.Read → Rose (E.faults site.old) (E.faults site.new) }
    ensures unharmed { (IsErrOf result Stop.Read → ⊥) → E.faults site.new ≡ E.faults site.old }
    ensures files { E.files site.new ≡ E.files site.old }
    ensures made { E.made site.new ≡ E.made site.old }
    ensures wire_faults { E.wire_faults site.new ≡ E.wire_faults site.old }
{
    match read_text(alloc, words.events, site) {
        Ok(events) => Ok(events),
        Err(stop) => Err(stop),
    }
}

/// The bytes of a file with lines, within its limits.
fn read_text<E: Site>(alloc: Global, name: &str, site: &mut E) -> Result<ByteList, Stop>
    ensures file { IfOk result (λ bytes. IsFile (file_told (E.files site.old) name.now) bytes.items) }
    ensures within { IfOk result (λ bytes. IsWithin bytes.items) }
    ensures named { OnOk result (AppendsAll (E.picks site.old).names (E.picks site.new).names (name.now ∷ [])) }
    ensures stopped { IfErr result (IsFileStop (file_told (E.files site.old) name.now) IsPast (AppendsAll (E.picks site.old).names (E.picks site.new).names (name.now ∷ [])) ((E.picks site.new).names ≡ (E.picks site.old).names)) }
    ensures unread { IsErrOf result Stop.Read → Rose (E.faults site.old) (E.faults site.new) }
    ensures unharmed { (IsErrOf result Stop.Read → ⊥) → E.faults site.new ≡ E.faults site.old }
    ensures files { E.files site.new ≡ E.files site.old }
    ensures made { E.made site.new ≡ E.made site.old }
    ensures wire_faults { E.wire_faults site.new ≡ E.wire_faults site.old }
{
    match pick(name, site) {
        Ok(()) => {}
        Err(stop) => return Err(stop),
    }
    let bytes = match read_whole(alloc, MOST_BYTES, site) {
        Ok(bytes) => bytes,
        Err(Halt::Read) => return Err(Stop::Read),
        Err(Halt::TooLong) => return Err(Stop::TooLong),
        Err(Halt::NoMemory) => return Err(Stop::NoMemory),
        Err(Halt::Stopped(NoMemory)) => return Err(Stop::NoMemory),
    };
    if count_lines(bytes.as_slice()) > MOST_LINES {
        return Err(Stop::TooLong);
    }
    Ok(bytes)
}
