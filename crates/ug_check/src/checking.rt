//! The check of a stream.

ghost use Rattle.std.specs.Prelude.{◌≡◌, ◌≤◌, OnOk, IfErr, IsErrOf};
ghost use Rattle.std.specs.List.{concat};
ghost use Rattle.ug_edge.specs.Told.{Rose, AppendsPiece};
ghost use Rattle.ug_check.specs.Checks.{IsDone, HasEnded};

use crate::report::write_report;
use crate::stop::Stop;
use crate::stream::read_stream;
use std::alloc::Global;
use ug_edge::{Sink, Source};
use ug_types::Capabilities;

/// Reads the bytes of a session from the source to their end and reports what they leave at the receiver: a line for
/// each row of the table, in key order, and then how many messages, End-of-RIBs, rows and left over bytes there are.
/// A fault of the stream, and a byte past the 1,073,741,824th, end it with nothing reported. What the session was opened
/// with the bytes don't say.
pub fn check<E: Source, K: Sink>(
    alloc: Global,
    session: Capabilities,
    source: &mut E,
    report: &mut K,
) -> Result<(), Stop>
    ensures ok { OnOk result (IsDone session (E.left source.old) (E.left source.new)
        (λ lines. AppendsPiece (K.held report.old) (K.held report.new) (concat lines))) }
    ensures stopped { IfErr result (λ stop. HasEnded stop session (E.left source.old) (E.left source.new) (K.held report.old) (K.held report.new)) }
    ensures unread { IsErrOf result Stop.Read → Rose (E.faults source.old) (E.faults source.new) }
    ensures failed { IsErrOf result Stop.Report → Rose (K.faults report.old) (K.faults report.new) }
    ensures report_faults { K.faults report.old ≤ K.faults report.new }
    ensures unharmed { (IsErrOf result Stop.Read → ⊥) → E.faults source.new ≡ E.faults source.old }
    ensures source_faults { E.faults source.old ≤ E.faults source.new }
    ensures files { E.files source.new ≡ E.files source.old }
    ensures picks { E.picks source.new ≡ E.picks source.old }
    ensures made { E.made source.new ≡ E.made source.old }
    ensures wire_faults { E.wire_faults source.new ≡ E.wire_faults source.old }
{
    let checker = match read_stream(alloc, session, source) {
        Ok(checker) => checker,
        Err(stop) => return Err(stop),
    };
    match write_report(alloc, &checker, report) {
        Ok(()) => Ok(()),
        Err(stop) => Err(stop),
    }
}
