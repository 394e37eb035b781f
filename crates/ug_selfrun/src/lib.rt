//! The drawn workload: for a seed a world of some peers, and events that come to it. And what a run over it comes
//! to: the events that its world accepts and refuses, the world that they lead to, and the rows that each peer was told.
#![tactic(auto)]

mod configuration;
mod drawing;
mod events;
mod laws;
mod making;
mod replaying;
mod standing;
mod summing;

pub use laws::workload_laws;
pub use making::{Made, make};
pub use replaying::{Replayed, replay};
pub use summing::summary;
