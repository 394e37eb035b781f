//! The rows that a stream leaves.

ghost use Rattle.std.specs.Prelude.{IfOk, IfErr};
ghost use Rattle.ug_check.specs.Checkers.{IsPieceCause};
ghost use Rattle.ug_check.specs.Decoded.{LeavesRows};

use crate::checker::Checker;
use crate::stop::Stop;
use std::alloc::Global;
use ug_types::Capabilities;

/// How many rows the bytes of a session leave at the receiver.
pub fn count_rows(alloc: Global, session: Capabilities, bytes: &[u8]) -> Result<usize, Stop>
    ensures ok { IfOk result (λ count. LeavesRows session bytes.now count) }
    ensures stopped { IfErr result (λ stop. IsPieceCause stop session bytes.now) }
{
    let mut checker = Checker::new(alloc, session);
    match checker.take_piece(bytes) {
        Ok(()) => {}
        Err(stop) => return Err(stop),
    }
    match checker.finish() {
        Ok(()) => Ok(checker.table.len()),
        Err(stop) => Err(stop),
    }
}
