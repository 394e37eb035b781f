//! The command `check`.

ghost use Rattle.std.specs.Prelude.{◌≡◌, ◌≤◌, ◌⊎◌, [], true};
ghost use Rattle.ug_edge.specs.Told.{Rose, IsEnded, file_told, Missing};
ghost use Rattle.ug_report.specs.Statuses.{row_of, status_text};
ghost use Rattle.ug_commands.specs.Files.{AppendsThenStatus, PicksJust};
ghost use Rattle.ug_commands.specs.Checked.{IsChecked};

use crate::frame::{end, pick};
use std::alloc::Global;
use ug_check::Stop;
use ug_edge::{Failed, Sink, Site, Source};
use ug_pieces::write_all;
use ug_report::{Status, malformed_text};
use ug_types::Capabilities;

/// Runs `check`.
pub fn check<E: Site, K: Sink>(
    alloc: Global,
    session: Capabilities,
    stream: &str,
    site: &mut E,
    report: &mut K,
) -> Status
    ensures checked { IsChecked (record { session = session; stream = stream.now }) (file_told (E.files site.old) stream.now) (E.picks site.new).is_open (E.left site.new) result (K.held report.old) (K.held report.new) (Rose (K.faults report.old) (K.faults report.new)) }
    ensures usage { result ≡ Status.Usage → ⊥ }
    ensures made { result ≡ Status.SiteFault → ⊥ }
    ensures read { result ≡ Status.ReadFault → Rose (E.faults site.old) (E.faults site.new) }
    ensures unharmed { (result ≡ Status.ReadFault → ⊥) → E.faults site.new ≡ E.faults site.old }
    ensures report { result ≡ Status.ReportFault → Rose (K.faults report.old) (K.faults report.new) }
    ensures missing { file_told (E.files site.old) stream.now ≡ Missing → (row_of result).may_be_unread ≡ true }
    ensures picked { PicksJust (E.picks site.old).names (E.picks site.new).names stream.now result }
    ensures unmade { E.made site.new ≡ E.made site.old }
    ensures wire_faults { E.wire_faults site.new ≡ E.wire_faults site.old }
    ensures ended { (row_of result).completed ≡ true → IsEnded (E.left site.new) }
{
    match pick(stream, site) {
        Ok(()) => {}
        Err(status) => return end(report, status),
    }
    match ug_check::check(alloc, session, site, report) {
        Ok(()) => end(report, Status::Ok),
        Err(Stop::Read) => end(report, Status::ReadFault),
        Err(Stop::Report) => end(report, Status::ReportFault),
        Err(Stop::NoMemory) => end(report, Status::NoMemory),
        Err(Stop::TooLong) => end(report, Status::TooLong),
        Err(Stop::Malformed { cause, offset }) => end_malformed(alloc, report, cause, offset),
    }
}

/// Tries the status line of a stream with a fault, for which memory may be wanting.
#[tactic(auto, unfolding(ug_report::specs::Statuses::status_text))]
fn end_malformed<K: Sink>(alloc: Global, report: &mut K, cause: u8, offset: u64) -> Status
    ensures status { (result ≡ Status.Malformed cause offset) ⊎ (result ≡ Status.NoMemory) }
    ensures report { AppendsThenStatus (K.held report.old) (K.held report.new) (Rose (K.faults report.old) (K.faults report.new)) [] (status_text result) }
    ensures faults { K.faults report.old ≤ K.faults report.new }
{
    let Ok(text) = malformed_text(alloc, cause, offset) else {
        return end(report, Status::NoMemory);
    };
    match write_all(report, text.as_bytes()) {
        Ok(()) => Status::Malformed { cause, offset },
        Err(Failed) => Status::Malformed { cause, offset },
    }
}
