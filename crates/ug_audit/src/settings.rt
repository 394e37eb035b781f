//! The configuration.

ghost use Rattle.std.specs.Prelude.{◌≡◌, ◌∷◌, [], Ok as Stands, OnOk, IfOk, IfErr, IsErrOf};
ghost use Rattle.ug_edge.specs.Told.{Rose, AppendsAll, file_told};
ghost use Rattle.ug_audit.specs.Auditing.{StandsFor};
ghost use Rattle.ug_audit.specs.Stopping.{said, IsStopped};

use crate::picking::pick;
use crate::stop::Stop;
use std::alloc::Global;
use ug_commands::{AuditWords, Stop as WorldStop, read_world};
use ug_edge::{Site, Source};
use ug_world::World;

/// The world that the configuration stands for.
pub fn read_first<E: Site>(
    alloc: Global,
    words: &AuditWords<'_>,
    site: &mut E,
) -> Result<World, Stop>
    ensures ok { IfOk result (λ w. StandsFor (said words.now) (file_told (E.files site.old)) (Stands w)) }
    ensures named { OnOk result (AppendsAll (E.picks site.old).names (E.picks site.new).names (words.now.config.now ∷ [])) }
    ensures stopped { IfErr result (IsStopped (said words.now) (file_told (E.files site.old)) (AppendsAll (E.picks site.old).names (E.picks site.new).names)) }
    ensures unread { IsErrOf result Stop.Read → Rose (E.faults site.old) (E.faults site.new) }
    ensures unharmed { (IsErrOf result Stop.Read → ⊥) → E.faults site.new ≡ E.faults site.old }
    ensures files { E.files site.new ≡ E.files site.old }
    ensures made { E.made site.new ≡ E.made site.old }
    ensures wire_faults { E.wire_faults site.new ≡ E.wire_faults site.old }
{
    match pick(words.config, site) {
        Ok(()) => {}
        Err(stop) => return Err(stop),
    }
    match read_world(alloc, site) {
        Ok(world) => Ok(world),
        Err(WorldStop::Read) => Err(Stop::Read),
        Err(WorldStop::TooLong) => Err(Stop::TooLong),
        Err(WorldStop::NoMemory) => Err(Stop::NoMemory),
        Err(WorldStop::Config { number, field }) => Err(Stop::Config { number, field }),
        Err(WorldStop::Report) => unreachable!(),
    }
}
