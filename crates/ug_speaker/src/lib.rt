//! What a machine that speaks to peers owes, whatever it keeps and shares: the world is what the events make of it, and
//! each session is told what its peer should know, right after every message and whole when everything is told.
#![tactic(auto)]

mod laws;
mod speaker;

pub use laws::routes_fit;
pub use speaker::Speaker;
