//! A queue of packets that many members take from, each at its own place; and values by number, where numbers are never
//! used twice, of which only those that are there take memory.
#![tactic(auto)]

mod cursors;
mod laws;
mod line;
mod live;
mod queue;
mod stand;

pub use laws::{member_laws, rest_laws};
pub use live::Live;
pub use queue::Queue;
pub use stand::Stand;
