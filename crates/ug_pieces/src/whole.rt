//! A source that is kept whole.

ghost use Rattle.std.specs.Prelude.{◌≡◌, ◌<◌, ◌≤◌, ◌^◌, ◌++◌, length, IfOk, IsErrOf};
ghost use Rattle.ug_edge.specs.Told.{Rose, IsEnded};
ghost use Rattle.ug_pieces.specs.Pieces.{HasRead};
ghost use Rattle.ug_pieces.specs.Keeping.{keeps_more, keeps_none};

use crate::halt::Halt;
use crate::pieces::read_pieces;
use crate::taker::Taker;
use std::alloc::Global;
use ug_edge::Source;
use ug_types::{ByteList, NoMemory, Sequence};

impl Taker<()> for ByteList {
    type Stop = NoMemory;

    ghost has_taken = { λ t _ u _ bytes. u.items ≡ t.items ++ bytes };

    ghost has_stopped = { λ t _ u _ bytes _. Unit {0} };

    ghost bound = { λ _. 2 ^ 64 };

    fn take(&mut self, piece: &[u8], _context: &mut ()) -> Result<(), NoMemory> {
        self.extend_from_slice(piece)
    }

    ghost takes_none = { λ t c. keeps_none t.items };

    ghost takes_more = { λ t u v c d e front more. keeps_more t.items u.items v.items front more };

    ghost stops_later = { λ t u v c d e front more stop first later. tt };
}

/// The bytes of a source, where there are no more than the limit.
pub fn read_whole<E: Source>(
    alloc: Global,
    limit: usize,
    source: &mut E,
) -> Result<ByteList, Halt<NoMemory>>
    ensures ok { IfOk result (λ bytes. HasRead (E.left source.old) (E.left source.new) (λ read.
        IsEnded (E.left source.new) × (length read ≤ limit) × (bytes.items ≡ read))) }
    ensures too_long { IsErrOf result Halt.TooLong → HasRead (E.left source.old) (E.left source.new) (λ read. limit < length read) }
    ensures unread { IsErrOf result Halt.Read → Rose (E.faults source.old) (E.faults source.new) }
    ensures unharmed { (IsErrOf result Halt.Read → ⊥) → E.faults source.new ≡ E.faults source.old }
    ensures faults { E.faults source.old ≤ E.faults source.new }
    ensures files { E.files source.new ≡ E.files source.old }
    ensures picks { E.picks source.new ≡ E.picks source.old }
    ensures made { E.made source.new ≡ E.made source.old }
    ensures wire_faults { E.wire_faults source.new ≡ E.wire_faults source.old }
{
    let mut bytes: ByteList = Sequence::new(alloc);
    match read_pieces(alloc, limit, source, &mut bytes, &mut ()) {
        Ok(()) => Ok(bytes),
        Err(halt) => Err(halt),
    }
}
