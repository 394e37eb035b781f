//! The configuration of a run.

ghost use Rattle.std.specs.Prelude.{◌≡◌, ◌≤◌, ◌<◌, ◌⊎◌, [], ◌∷◌, Ok, IfOk, OnOk, IfErr, IsErrOf};
ghost use Rattle.ug_edge.specs.Told.{Rose, AppendsAll, file_told, Missing};
ghost use Rattle.ug_commands.specs.declared.stop.Stop.TheVariants.{Report as ReportStops};
ghost use Rattle.ug_report.specs.Statuses.{status_text};
ghost use Rattle.ug_commands.specs.Files.{AppendsThenStatus};
ghost use Rattle.ug_commands.specs.Listed.{IsConfigured};
ghost use Rattle.ug_run.specs.Commands.{IsUnconfigured};
ghost use Rattle.ug_run.specs.Setups.{IsStopOf};

use std::alloc::Global;
use ug_commands::{Stop, end, end_refused, pick, read_world};
use ug_edge::{Sink, Site};
use ug_report::Status;
use ug_world::World;

/// The world that a configuration stands for.
pub(crate) fn configure<E: Site>(alloc: Global, config: &str, site: &mut E) -> Result<World, Stop>
    ensures there { OnOk result (file_told (E.files site.old) config.now ≡ Missing → ⊥) }
    ensures world { IfOk result (λ world. IsConfigured (file_told (E.files site.old) config.now) (Ok world)) }
    ensures stopped { IfErr result (λ stop. IsStopOf (file_told (E.files site.old) config.now) stop) }
    ensures read { IsErrOf result Stop.Read → Rose (E.faults site.old) (E.faults site.new) }
    ensures unharmed { (IsErrOf result Stop.Read → ⊥) → E.faults site.new ≡ E.faults site.old }
    ensures faults { E.faults site.old ≤ E.faults site.new }
    ensures files { E.files site.new ≡ E.files site.old }
    ensures named { OnOk result (AppendsAll (E.picks site.old).names (E.picks site.new).names (config.now ∷ [])) }
    ensures picked { AppendsAll (E.picks site.old).names (E.picks site.new).names (config.now ∷ []) ⊎ (IsErrOf result Stop.NoMemory × ((E.picks site.new).names ≡ (E.picks site.old).names)) }
    ensures made { E.made site.new ≡ E.made site.old }
    ensures wire_faults { E.wire_faults site.new ≡ E.wire_faults site.old }
{
    match pick(config, site) {
        Ok(()) => read_world(alloc, site),
        Err(Status::ReadFault) => Err(Stop::Read),
        Err(_) => Err(Stop::NoMemory),
    }
}

/// Writes the status line of a run whose configuration stands for no world.
pub(crate) fn end_unset<K: Sink>(alloc: Global, stop: Stop, report: &mut K) -> Status
    requires { stop ≡ ReportStops → ⊥ }
    ensures cause { (file : _) → IsStopOf file stop → IsUnconfigured file result }
    ensures read { result ≡ Status.ReadFault → stop ≡ Stop.Read }
    ensures unread { stop ≡ Stop.Read → result ≡ Status.ReadFault }
    ensures long { stop ≡ Stop.TooLong → result ≡ Status.TooLong }
    ensures starved { stop ≡ Stop.NoMemory → result ≡ Status.NoMemory }
    ensures report { AppendsThenStatus (K.held report.old) (K.held report.new) (Rose (K.faults report.old) (K.faults report.new)) [] (status_text result) }
{
    match stop {
        Stop::Read => end(report, Status::ReadFault),
        Stop::Report => unreachable!(),
        Stop::NoMemory => end(report, Status::NoMemory),
        Stop::TooLong => end(report, Status::TooLong),
        Stop::Config { number, field } => end_refused(alloc, report, number, field),
    }
}
