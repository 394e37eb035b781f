//! The builder of a run: it takes the lines of events, one by one, onto a board that lanes work on beside it. And what a
//! run promises: definitions of the report and of what each session is told, and their law, that a run whose speaker
//! keeps what it owes keeps them.
#![tactic(auto)]

mod begun;
mod beside;
mod board;
mod builder;
mod came;
mod files;
mod grammar;
mod laws;
mod lines;
mod pace;
mod reading;
mod settled;
mod stop;
mod tally;
mod turns;

pub use beside::read_beside;
pub use builder::Builder;
pub use came::Came;
pub use grammar::Grammar;
pub use laws::promise_kept;
pub use reading::{End, Reading};
pub use stop::Stop;
pub use tally::Tally;
