//! The report.

ghost use Rattle.std.specs.Prelude.{◌≡◌, ◌∷◌, [], ℕ, Option, List, OnOk, IfOk, IfErr, IsErrOf};
ghost use Rattle.ug_edge.specs.Told.{Rose, AppendsAll, file_told};
ghost use Rattle.ug_world.specs.World as worlds;
ghost use Rattle.ug_audit_rules.specs.Told.{TellsAsMuch};
ghost use Rattle.ug_audit.specs.Auditing.{HasEvents, HasReport, last_of, told_by};
ghost use Rattle.ug_audit.specs.Stopping.{said, IsStopped, IsTold, IsToldStop};

use crate::picking::pick;
use crate::stop::Stop;
use std::alloc::Global;
use ug_audit_rules::{Entry, Stop as LineStop, read_report};
use ug_commands::AuditWords;
use ug_edge::{Site, Source};
use ug_pieces::Halt;
use ug_world::World;

/// What the lines of the report tell, after events that lead to this world.
pub fn read_told<E: Site>(
    alloc: Global,
    words: &AuditWords<'_>,
    last: &mut World,
    site: &mut E,
) -> Result<Vec<Entry>, Stop>
    ensures ok { IfOk result (λ entries. (w : worlds.World) (events : List ℕ) → last.old ≡ last_of w events → HasEvents (said words.now) (file_told (E.files site.old)) w events →
        (report : List ℕ) × HasReport (said words.now) (file_told (E.files site.old)) w events report × TellsAsMuch entries.items (told_by w events report)) }
    ensures same { last.new ≡ last.old }
    ensures named { OnOk result (AppendsAll (E.picks site.old).names (E.picks site.new).names (words.now.report.now ∷ [])) }
    ensures stopped { IfErr result (λ stop. (w : worlds.World) (events : List ℕ) (names : Option (List (List ℕ))) → last.old ≡ last_of w events → HasEvents (said words.now) (file_told (E.files site.old)) w events →
        AppendsAll names (E.picks site.old).names (words.now.config.now ∷ words.now.events.now ∷ []) → IsStopped (said words.now) (file_told (E.files site.old)) (AppendsAll names (E.picks site.new).names) stop) }
    ensures unread { IsErrOf result Stop.Read → Rose (E.faults site.old) (E.faults site.new) }
    ensures unharmed { (IsErrOf result Stop.Read → ⊥) → E.faults site.new ≡ E.faults site.old }
    ensures files { E.files site.new ≡ E.files site.old }
    ensures made { E.made site.new ≡ E.made site.old }
    ensures wire_faults { E.wire_faults site.new ≡ E.wire_faults site.old }
{
    match read_lines(alloc, words.report, last, site) {
        Ok(entries) => Ok(entries),
        Err(stop) => Err(stop),
    }
}

/// What the lines of a file tell, or the first of these to come: a line that isn't clear, a byte or a line past the limits, a
/// fault of reading.
fn read_lines<E: Site>(
    alloc: Global,
    name: &str,
    last: &mut World,
    site: &mut E,
) -> Result<Vec<Entry>, Stop>
    ensures told { IfOk result (λ entries. IsTold (file_told (E.files site.old) name.now) last.old entries.items) }
    ensures same { last.new ≡ last.old }
    ensures named { OnOk result (AppendsAll (E.picks site.old).names (E.picks site.new).names (name.now ∷ [])) }
    ensures stopped { IfErr result (IsToldStop (file_told (E.files site.old) name.now) last.old (AppendsAll (E.picks site.old).names (E.picks site.new).names (name.now ∷ [])) ((E.picks site.new).names ≡ (E.picks site.old).names)) }
    ensures unread { IsErrOf result Stop.Read → Rose (E.faults site.old) (E.faults site.new) }
    ensures unharmed { (IsErrOf result Stop.Read → ⊥) → E.faults site.new ≡ E.faults site.old }
    ensures files { E.files site.new ≡ E.files site.old }
    ensures made { E.made site.new ≡ E.made site.old }
    ensures wire_faults { E.wire_faults site.new ≡ E.wire_faults site.old }
{
    match pick(name, site) {
        Ok(()) => {}
        Err(stop) => return Err(stop),
    }
    match read_report(alloc, last, site) {
        Ok(entries) => Ok(entries),
        Err(Halt::Read) => Err(Stop::Read),
        Err(Halt::TooLong) => Err(Stop::TooLong),
        Err(Halt::NoMemory) => Err(Stop::NoMemory),
        Err(Halt::Stopped(LineStop::NoMemory)) => Err(Stop::NoMemory),
        Err(Halt::Stopped(LineStop::TooMany)) => Err(Stop::TooLong),
        Err(Halt::Stopped(LineStop::Unclear { line })) => Err(Stop::Unclear { line }),
    }
}
