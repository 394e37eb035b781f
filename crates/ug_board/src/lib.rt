//! A machine that takes one step at a time, and a board that holds it beside the history of its steps. And what that
//! history tells of the sessions to its peers, as definitions, with their laws. A deed is read off an entry and the state
//! that the rules lead to before it, so what is told of some entries doesn't depend on what others come after them.
#![tactic(auto)]

mod behind;
mod board;
mod entry;
mod history;
mod kept;
mod laws;
mod machine;
mod steps;

pub use board::Board;
pub use entry::BoardEntry;
pub use history::{History, HistoryList};
pub use laws::{laws_of_growth, laws_of_sessions};
pub use machine::Machine;
pub use steps::{BoardSaid, BoardStep, LaneSaid, LaneStep};
