//! Lanes, each of which sends to one peer, over one wire, what its pass was handed; and the workers of a run: lanes that
//! work each in a thread of its own, or here, beside one builder. The scope in which their threads are stands where the
//! builder's work is, since a closure has to name it.
#![tactic(auto)]

mod asking;
mod crew;
mod dock;
mod fleet;
mod laden;
mod lane;
mod open;
mod places;
mod pumped;
mod sending;
mod serve;
mod starter;
mod turn;
mod worker;

pub use crew::Crew;
pub use dock::{Dock, Docks, Intake, Roster};
pub use fleet::Fleet;
pub use laden::{Fill, Laden, Load};
pub use lane::{Buffer, Lane, Returned};
pub use pumped::{Pumped, Round};
pub use serve::labour;
pub use starter::{Starter, StarterBy};
pub use worker::Worker;
