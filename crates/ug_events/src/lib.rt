//! The events that a speaker is told, and the lines of text that say them.
#![tactic(auto)]

mod entries;
mod event;
mod field;
mod fields;
mod hexadecimal;
mod line;
mod names;
mod path_fields;
mod paths;
mod recent;
mod refusal;
mod sharing;
mod verb;
mod words;

pub use event::{Event, Given, GivenList, Line};
pub use line::{LineReader, read_line, read_routes_line};
pub use refusal::LineRefusal;
