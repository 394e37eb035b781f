//! Reading a stream to its end.

ghost use Rattle.std.specs.Prelude.{◌≡◌, ◌≤◌, IfOk, IfErr, IsErrOf};
ghost use Rattle.ug_edge.specs.Told.{Rose};
ghost use Rattle.ug_check.specs.Checks.{HasStopped};
ghost use Rattle.ug_check.specs.Checkers.{HasReadAll};

use crate::checker::Checker;
use crate::stop::Stop;
use std::alloc::Global;
use ug_edge::{Failed, Source};
use ug_types::Capabilities;

/// The most bytes of a stream.
const MOST_BYTES: usize = 1 << 30;

/// How many bytes are asked for at once.
const PIECE: usize = 1 << 16;

/// Reads the whole stream, and never holds more of it than a piece and a message.
pub fn read_stream<E: Source>(
    alloc: Global,
    session: Capabilities,
    source: &mut E,
) -> Result<Checker, Stop>
    ensures ok { IfOk result (λ checker. HasReadAll (E.left source.old) (E.left source.new) checker.reader checker.table checker.messages checker.eors) }
    ensures session { IfOk result (λ checker. checker.reader.session ≡ session) }
    ensures stopped { IfErr result (λ stop. HasStopped stop session (E.left source.old) (E.left source.new)) }
    ensures unread { IsErrOf result Stop.Read → Rose (E.faults source.old) (E.faults source.new) }
    ensures no_report { IsErrOf result Stop.Report → ⊥ }
    ensures unharmed { (IsErrOf result Stop.Read → ⊥) → E.faults source.new ≡ E.faults source.old }
    ensures faults { E.faults source.old ≤ E.faults source.new }
    ensures files { E.files source.new ≡ E.files source.old }
    ensures picks { E.picks source.new ≡ E.picks source.old }
    ensures made { E.made source.new ≡ E.made source.old }
    ensures wire_faults { E.wire_faults source.new ≡ E.wire_faults source.old }
{
    let mut buffer = match vec![in alloc; 0u8; PIECE] {
        Ok(buffer) => buffer,
        Err(_) => return Err(Stop::NoMemory),
    };
    let mut checker = Checker::new(alloc, session);
    let mut total: usize = 0;
    loop {
        let count = match source.read(buffer.as_mut_slice()) {
            Ok(count) => count,
            Err(Failed) => return Err(Stop::Read),
        };
        if count == 0 {
            match checker.finish() {
                Ok(()) => return Ok(checker),
                Err(cause) => return Err(cause),
            }
        }
        let within = count.min(MOST_BYTES - total);
        let (piece, _) = buffer.as_slice().split_at(within);
        match checker.take_piece(piece) {
            Ok(()) => {}
            Err(stop) => return Err(stop),
        }
        if within < count {
            return Err(Stop::TooLong);
        }
        total += count;
    }
}
