//! The command `groups`.

ghost use Rattle.std.specs.Prelude.{◌≡◌, ◌≤◌, ◌⊎◌, [], true};
ghost use Rattle.ug_edge.specs.Told.{Rose, IsEnded, file_told, Missing};
ghost use Rattle.ug_report.specs.Statuses.{row_of, status_text};
ghost use Rattle.ug_commands.specs.Files.{AppendsThenStatus, PicksJust};
ghost use Rattle.ug_commands.specs.Listed.{IsListed};

use crate::frame::{end, pick};
use crate::listing;
use crate::stop::Stop;
use std::alloc::Global;
use ug_edge::{Failed, Sink, Site, Source};
use ug_pieces::write_all;
use ug_report::{Status, config_text};
use ug_types::ByteList;

/// Runs `groups`.
pub fn groups<E: Site, K: Sink>(alloc: Global, config: &str, site: &mut E, report: &mut K) -> Status
    ensures listed { IsListed (file_told (E.files site.old) config.now) result (K.held report.old) (K.held report.new) (Rose (K.faults report.old) (K.faults report.new)) }
    ensures usage { result ≡ Status.Usage → ⊥ }
    ensures made { result ≡ Status.SiteFault → ⊥ }
    ensures read { result ≡ Status.ReadFault → Rose (E.faults site.old) (E.faults site.new) }
    ensures unharmed { (result ≡ Status.ReadFault → ⊥) → E.faults site.new ≡ E.faults site.old }
    ensures report { result ≡ Status.ReportFault → Rose (K.faults report.old) (K.faults report.new) }
    ensures missing { file_told (E.files site.old) config.now ≡ Missing → (row_of result).may_be_unread ≡ true }
    ensures picked { PicksJust (E.picks site.old).names (E.picks site.new).names config.now result }
    ensures unmade { E.made site.new ≡ E.made site.old }
    ensures wire_faults { E.wire_faults site.new ≡ E.wire_faults site.old }
    ensures ended { (row_of result).completed ≡ true → IsEnded (E.left site.new) }
{
    match pick(config, site) {
        Ok(()) => {}
        Err(status) => return end(report, status),
    }
    match listing::groups(alloc, site, report) {
        Ok(()) => end(report, Status::Ok),
        Err(Stop::Read) => end(report, Status::ReadFault),
        Err(Stop::Report) => end(report, Status::ReportFault),
        Err(Stop::NoMemory) => end(report, Status::NoMemory),
        Err(Stop::TooLong) => end(report, Status::TooLong),
        Err(Stop::Config { number, field }) => end_refused(alloc, report, number, field),
    }
}

/// Tries the status line of a configuration that is refused, for which memory may be wanting.
#[tactic(auto, unfolding(ug_report::specs::Statuses::status_text))]
pub fn end_refused<K: Sink>(alloc: Global, report: &mut K, number: u8, field: ByteList) -> Status
    ensures status { (result ≡ Status.Config number field) ⊎ (result ≡ Status.NoMemory) }
    ensures report { AppendsThenStatus (K.held report.old) (K.held report.new) (Rose (K.faults report.old) (K.faults report.new)) [] (status_text result) }
    ensures faults { K.faults report.old ≤ K.faults report.new }
{
    let Ok(text) = config_text(alloc, number, field.as_slice()) else {
        return end(report, Status::NoMemory);
    };
    match write_all(report, text.as_slice()) {
        Ok(()) => Status::Config { number, field },
        Err(Failed) => Status::Config { number, field },
    }
}
