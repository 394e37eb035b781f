//! The words of the command line: which are a command, and which one. What the commands share, how each of them ends, and
//! those that need no sessions: `check` and `groups`. And laws: what lines of events say is in range, and a run may begin in
//! each world that a configuration stands for.
#![tactic(auto)]

mod checking;
mod command;
mod frame;
mod grouping;
mod laws;
mod lines;
mod listing;
mod matches;
mod member;
mod members;
mod number;
mod so_far;
mod stop;
mod verb;

pub use checking::check;
pub use command::{
    AuditWords, CheckWords, Command, GroupsWords, OneWords, RunWords, SelfRunWords, command_in,
    read_command,
};
pub use frame::{end, pick};
pub use grouping::{end_refused, groups};
pub use laws::{configurations_open, lines_are_sound, one_opens};
pub use listing::read_world;
pub use stop::Stop;
