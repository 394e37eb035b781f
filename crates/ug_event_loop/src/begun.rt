//! The line of a file whose newline has not come.

ghost use Rattle.std.specs.Prelude.{◌≡◌, ◌<◌, ◌≤◌, ◌++◌, length, take, OnOk, IfErr};
ghost use Rattle.std.specs.Vec.{vec_len};
ghost use Rattle.ug_pieces.specs.LineSteps.{HasStoppedAt};

use crate::stop::Stop;
use ug_pieces::{LineStop, keep_front};
use ug_types::NoMemory;

/// How many lines of a file were taken, of how many at most, and the front of the next, of which so many bytes are kept.
#[derive(Drop)]
pub(crate) struct Begun {
    pub(crate) rest: Vec<u8>,
    pub(crate) count: usize,
    pub(crate) most: usize,
    pub(crate) kept: usize,
    ghost short: { vec_len rest ≤ kept },
    ghost some: { 0 < kept },
    ghost counted: { count ≤ most },
    ghost begun: { 0 < vec_len rest → count < most },
}

/// Keeps bytes that no newline ends.
pub(crate) fn keep_begun(begun: &mut Begun, left: &[u8]) -> Result<(), LineStop<Stop>>
    ensures rest { OnOk result (begun.new.rest.items ≡ take begun.old.kept (begun.old.rest.items ++ left.now)) }
    ensures count { begun.new.count ≡ begun.old.count }
    ensures kept { begun.new.kept ≡ begun.old.kept }
    ensures most { begun.new.most ≡ begun.old.most }
    ensures stopped { IfErr result (λ stop. HasStoppedAt stop ((begun.old.count ≡ begun.old.most) × (0 < length left.now)) (Unit {0}) (λ _. ⊥)) }
{
    if left.is_empty() {
        return Ok(());
    }
    if begun.count == begun.most {
        return Err(LineStop::TooMany);
    }
    match keep_front(&mut begun.rest, begun.kept, left) {
        Ok(()) => Ok(()),
        Err(NoMemory) => Err(LineStop::NoMemory),
    }
}
