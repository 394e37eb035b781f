//! A plain reader of whole streams, with which the tests compare the one that takes pieces.

ghost use Rattle.std.specs.Prelude.{List, ℕ, map, IfOk, MatchOption};
ghost use Rattle.ug_types.specs.Messages.{message_of};
ghost use Rattle.ug_message.specs.Received.{IsStream, IsFaultyAt};

use crate::ahead::Ahead;
use crate::reader::ahead;
use std::alloc::Global;
use ug_types::{Capabilities, Item, NoMemory};

/// The messages of a stream, and the cause and the offset of the first fault, where there is one.
pub fn read_all(
    alloc: Global,
    session: Capabilities,
    stream: &[u8],
) -> Result<(Vec<Item>, Option<(u8, u64)>), NoMemory>
    ensures { IfOk result (λ x. MatchOption x.1 ((rest : List ℕ) × IsStream session stream.now (map message_of x.0.items) rest)
        (λ f. IsFaultyAt session stream.now (map message_of x.0.items) f.0 f.1)) }
{
    let mut items = Vec::new(alloc);
    let mut at = 0;
    while at < stream.len() {
        let (_, rest) = stream.split_at(at);
        match ahead(alloc, session, rest)? {
            Ahead::Awaited => return Ok((items, None)),
            Ahead::Faulty(f) => return Ok((items, Some((f.cause, (at + f.place) as u64)))),
            Ahead::Message(item, size, _) => {
                items.push(item)?;
                at += size;
            }
        }
    }
    Ok((items, None))
}
