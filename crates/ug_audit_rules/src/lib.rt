//! What an auditor asks of the files that a run left, and what it reads in a report: the marks of `sync`, and the
//! sessions that were lost. And what each peer should have, version by version, worked out from the lines of events, and
//! between which versions each of its sessions was: what peers of one group key should have is worked out once for all.
//! Nothing of it knows how a speaker works.
#![tactic(auto)]

mod accepting;
mod entry;
mod group;
mod group_log;
mod history;
mod keys;
mod laws;
mod line;
mod lines;
mod merging;
mod number;
mod passing;
mod peers;
mod progress;
mod reading;
mod replay;
mod routes;
mod same_key;
mod seat;
mod since;
mod source;
mod spanned;
mod stop;
mod timeline;
mod timelines;
mod touched;

pub use entry::Entry;
pub use history::{History, history_of};
pub use laws::{breach_refutes, heard_is_sound, names_are_words, tables_in_a_list};
pub use line::read_entry;
pub use source::read_report;
pub use spanned::spans_are_courses;
pub use stop::Stop;
pub use timeline::Timeline;
pub use timelines::Timelines;
