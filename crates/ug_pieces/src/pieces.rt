//! A source that is read in pieces, up to a limit.

ghost use Rattle.std.specs.Prelude.{◌≡◌, ◌<◌, ◌≤◌, length, OnOk, IfErr, IsErrOf};
ghost use Rattle.ug_edge.specs.Told.{Rose, IsEnded};
ghost use Rattle.ug_pieces.specs.Pieces.{HasRead, IsHalt};

use crate::halt::Halt;
use crate::taker::Taker;
use std::alloc::Global;
use ug_edge::{Failed, Source};

/// How many bytes are asked for at once.
const PIECE: usize = 1 << 16;

/// Reads a source to its end, and hands all its bytes on, unless they are more than the limit: then those within it,
/// and no more. It never holds more than a piece.
pub fn read_pieces<C, E: Source, T: Taker<C>>(
    alloc: Global,
    limit: usize,
    source: &mut E,
    taker: &mut T,
    context: &mut C,
) -> Result<(), Halt<T::Stop>>
    requires { limit < T.bound taker.old }
    ensures ok { OnOk result (HasRead (E.left source.old) (E.left source.new) (λ read.
        IsEnded (E.left source.new) × (length read ≤ limit) × T.has_taken taker.old context.old taker.new context.new read)) }
    ensures halted { IfErr result (λ halt. HasRead (E.left source.old) (E.left source.new)
        (IsHalt halt limit (T.has_taken taker.old context.old taker.new context.new) (T.has_stopped taker.old context.old taker.new context.new))) }
    ensures unread { IsErrOf result Halt.Read → Rose (E.faults source.old) (E.faults source.new) }
    ensures unharmed { (IsErrOf result Halt.Read → ⊥) → E.faults source.new ≡ E.faults source.old }
    ensures faults { E.faults source.old ≤ E.faults source.new }
    ensures files { E.files source.new ≡ E.files source.old }
    ensures picks { E.picks source.new ≡ E.picks source.old }
    ensures made { E.made source.new ≡ E.made source.old }
    ensures wire_faults { E.wire_faults source.new ≡ E.wire_faults source.old }
{
    let mut buffer = match vec![in alloc; 0u8; PIECE] {
        Ok(buffer) => buffer,
        Err(_) => return Err(Halt::NoMemory),
    };
    let mut total: usize = 0;
    loop {
        let count = match source.read(buffer.as_mut_slice()) {
            Ok(count) => count,
            Err(Failed) => return Err(Halt::Read),
        };
        if count == 0 {
            return Ok(());
        }
        let within = count.min(limit - total);
        let (piece, _) = buffer.as_slice().split_at(within);
        match taker.take(piece, context) {
            Ok(()) => {}
            Err(stop) => return Err(Halt::Stopped(stop)),
        }
        if within < count {
            return Err(Halt::TooLong);
        }
        total += count;
    }
}
