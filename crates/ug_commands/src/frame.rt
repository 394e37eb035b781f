//! What frames each command: the file that it reads, and its status line.

ghost use Rattle.std.specs.Prelude.{◌≡◌, ◌≤◌, ◌⊎◌, [], ◌∷◌, OnOk, OnErr, IfErr, IsErrOf, true, false};
ghost use Rattle.ug_edge.specs.Told.{Rose, AppendsAll, HasPicked, file_told, Missing};
ghost use Rattle.ug_report.specs.Statuses.{status_text, is_fixed};
ghost use Rattle.ug_commands.specs.Files.{AppendsThenStatus, IsUnbegun};

use ug_edge::{Failed, Sink, Site, SiteFault};
use ug_pieces::write_all;
use ug_report::Status;

/// Picks a file.
#[tactic(auto, using(crate::proofs::Ends::not_missing))]
pub fn pick<E: Site>(name: &str, site: &mut E) -> Result<(), Status>
    ensures picked { OnOk result (HasPicked (E.files site.old) name.now (E.left site.new)) }
    ensures there { OnOk result (file_told (E.files site.old) name.now ≡ Missing → ⊥) }
    ensures is_open { OnOk result ((E.picks site.new).is_open ≡ true) }
    ensures is_closed { OnErr result ((E.picks site.new).is_open ≡ false) }
    ensures named { OnOk result (AppendsAll (E.picks site.old).names (E.picks site.new).names (name.now ∷ [])) }
    ensures once { AppendsAll (E.picks site.old).names (E.picks site.new).names (name.now ∷ []) ⊎ (IsErrOf result Status.NoMemory × ((E.picks site.new).names ≡ (E.picks site.old).names)) }
    ensures status { IfErr result IsUnbegun }
    ensures fixed { IfErr result (λ status. is_fixed status ≡ true) }
    ensures failed { IsErrOf result Status.ReadFault → Rose (E.faults site.old) (E.faults site.new) }
    ensures unharmed { OnOk result (E.faults site.new ≡ E.faults site.old) }
    ensures starved { IsErrOf result Status.NoMemory → E.faults site.new ≡ E.faults site.old }
    ensures faults { E.faults site.old ≤ E.faults site.new }
    ensures files { E.files site.new ≡ E.files site.old }
    ensures made { E.made site.new ≡ E.made site.old }
    ensures wire_faults { E.wire_faults site.new ≡ E.wire_faults site.old }
{
    match site.pick(name) {
        Ok(()) => Ok(()),
        Err(SiteFault::Failed) => Err(Status::ReadFault),
        Err(SiteFault::NoMemory) => Err(Status::NoMemory),
    }
}

/// Tries the status line once.
pub fn end<K: Sink>(report: &mut K, status: Status) -> Status
    requires { is_fixed status ≡ true }
    ensures status { result ≡ status }
    ensures report { AppendsThenStatus (K.held report.old) (K.held report.new) (Rose (K.faults report.old) (K.faults report.new)) [] (status_text status) }
    ensures faults { K.faults report.old ≤ K.faults report.new }
{
    match write_all(report, status.text()) {
        Ok(()) => status,
        Err(Failed) => status,
    }
}
