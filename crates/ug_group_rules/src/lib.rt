//! The machine of update groups, as definitions: its state, its steps, and what they promise. Peers of one group key share
//! subgroups, with one Adj-RIB-Out and one queue of packets each.
#![tactic(auto)]

mod by_key;
mod deciding;
mod evaluations;
mod laws;
mod phase;

pub use by_key::{due_laws, event_law, table_laws, turn_law, wanted_laws};
pub use deciding::decides_for;
pub use evaluations::group_evaluations;
pub use laws::{group_courses, group_laws, group_order, group_simulation};
pub use phase::Phase;
