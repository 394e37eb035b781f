//! The packet that is owed next of an Adj-RIB-Out, and those that say no routes: what many peers share, and each is sent
//! with a next hop of its own.
#![tactic(auto)]

mod built;
mod laws;
mod next;
mod rooms;
mod routes;
mod texts;
mod whole;

pub use built::Built;
pub use laws::ready_laws;
pub use next::build;
pub use routes::Routes;
pub use whole::{build_eor, build_mark};
