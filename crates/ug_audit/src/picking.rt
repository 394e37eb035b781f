//! One file after another.

ghost use Rattle.std.specs.Prelude.{◌≡◌, ◌∷◌, [], OnOk, IfErr, IsErrOf};
ghost use Rattle.ug_edge.specs.Told.{Rose, AppendsAll, HasPicked};
ghost use Rattle.ug_audit.specs.Stopping.{IsPickStop};

use crate::stop::Stop;
use ug_edge::{Site, SiteFault};

/// Picks a file.
pub fn pick<E: Site>(name: &str, site: &mut E) -> Result<(), Stop>
    ensures picked { OnOk result (HasPicked (E.files site.old) name.now (E.left site.new)) }
    ensures named { OnOk result (AppendsAll (E.picks site.old).names (E.picks site.new).names (name.now ∷ [])) }
    ensures stopped { IfErr result (IsPickStop (AppendsAll (E.picks site.old).names (E.picks site.new).names (name.now ∷ [])) ((E.picks site.new).names ≡ (E.picks site.old).names)) }
    ensures unread { IsErrOf result Stop.Read → Rose (E.faults site.old) (E.faults site.new) }
    ensures unharmed { (IsErrOf result Stop.Read → ⊥) → E.faults site.new ≡ E.faults site.old }
    ensures files { E.files site.new ≡ E.files site.old }
    ensures made { E.made site.new ≡ E.made site.old }
    ensures wire_faults { E.wire_faults site.new ≡ E.wire_faults site.old }
{
    match site.pick(name) {
        Ok(()) => Ok(()),
        Err(SiteFault::Failed) => Err(Stop::Read),
        Err(SiteFault::NoMemory) => Err(Stop::NoMemory),
    }
}
