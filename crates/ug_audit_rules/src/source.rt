//! A report read from a source.

ghost use Rattle.std.specs.Prelude.{◌≡◌, ◌≤◌, ◌^◌, ℕ, IfOk, IfErr, IsErrOf};
ghost use Rattle.std.proofs.Common.{◌∙◌};
ghost use Rattle.ug_edge.specs.Told.{Rose};
ghost use Rattle.ug_pieces.specs.Pieces.{HasRead};
ghost use Rattle.ug_audit_rules.specs.Reading.{HasGone, HasStoppedIn, IsReport, IsReportHalt};
ghost use Rattle.ug_audit_rules.specs.ReadingLaws.{goes_nowhere, goes_further, stops_further};

use crate::entry::Entry;
use crate::peers::most_kept;
use crate::reading::Reading;
use crate::stop::Stop;
use std::alloc::Global;
use ug_edge::Source;
use ug_pieces::{Halt, Taker, read_pieces};
use ug_world::World;

/// The most bytes of a report.
const MOST_BYTES: usize = 1_073_741_824;

impl Taker<World> for Reading {
    type Stop = Stop;

    ghost has_taken = { HasGone };

    ghost has_stopped = { HasStoppedIn };

    ghost bound = { λ _. 2 ^ 64 };

    fn take(&mut self, piece: &[u8], last: &mut World) -> Result<(), Stop> {
        self.take_piece(last, piece)
    }

    ghost takes_none = { λ t c. goes_nowhere t c };

    ghost takes_more = { λ t u v c d e front more. goes_further t u v c d e front more };

    ghost stops_later = { λ t u v c d e front more stop first later. stops_further t u v c d e front more stop first later };
}

/// The marks and the losses that a report tells, in the order of its lines, by the world to which all lines of events lead.
/// It is read to its end, or up to the first line that isn't clear, or to the byte 1,073,741,825 or the line 2,000,001. No more
/// of it is held than a piece and the front of a line.
pub fn read_report<E: Source>(
    alloc: Global,
    last: &mut World,
    source: &mut E,
) -> Result<Vec<Entry>, Halt<Stop>>
    ensures ok { IfOk result (λ entries. HasRead (E.left source.old) (E.left source.new) (IsReport last.old (E.left source.new) entries.items)) }
    ensures halted { IfErr result (λ halt. HasRead (E.left source.old) (E.left source.new) (IsReportHalt last.old (E.left source.new) halt)) }
    ensures same { last.new ≡ last.old }
    ensures unread { IsErrOf result Halt.Read → Rose (E.faults source.old) (E.faults source.new) }
    ensures unharmed { (IsErrOf result Halt.Read → ⊥) → E.faults source.new ≡ E.faults source.old }
    ensures faults { E.faults source.old ≤ E.faults source.new }
    ensures files { E.files source.new ≡ E.files source.old }
    ensures picks { E.picks source.new ≡ E.picks source.old }
    ensures made { E.made source.new ≡ E.made source.old }
    ensures wire_faults { E.wire_faults source.new ≡ E.wire_faults source.old }
{
    let mut reading = Reading::new(alloc, most_kept(last));
    match read_pieces(alloc, MOST_BYTES, source, &mut reading, last) {
        Ok(()) => {}
        Err(halt) => return Err(halt),
    }
    match reading.end(last) {
        Ok(()) => Ok(reading.told.entries),
        Err(stop) => Err(Halt::Stopped(stop)),
    }
}
