//! What the bytes that are left begin with.

use crate::fault::Fault;
use ug_types::Item;

/// A message, how many bytes it has and whether it is End-of-RIB; a fault; or neither before more bytes come.
pub enum Ahead {
    Message(Item, usize, bool),
    Faulty(Fault),
    Awaited,
}
