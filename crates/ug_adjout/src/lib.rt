//! The Adj-RIB-Out of a subgroup: what was formatted, what is desired, and the keys for which a packet is owed; its
//! words, which are tables, the pending list and the packet that is owed next, and laws about them.
#![tactic(auto)]

mod adj_out;
mod after;
mod by_place;
mod copied;
mod desired;
mod first;
mod kept;
mod kept_slot;
mod laws;
mod line;
mod marked;
mod out_key;
mod queue;
mod row;
mod rows;
mod seat;
mod seats;
mod slot;
mod step;
mod stepping;
mod table;
mod waiting;

pub use adj_out::AdjOut;
pub use desired::Desired;
pub use laws::{all_desired_law, exact_laws, fitting_law, requeue_law};
pub use marked::Marked;
pub use out_key::OutKey;
