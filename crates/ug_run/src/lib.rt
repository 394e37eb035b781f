//! The run: its wires, its lanes and its board, events read beside the lanes that send, the report, and how it ends. And laws
//! over its promise, which nothing uses: that an auditor finds the files of a completed run right.
#![tactic(auto)]

mod alone;
mod course;
mod drawn;
mod ending;
mod lanes;
mod laws;
mod losses;
mod run;
mod serving;
mod setup;
mod wires;

pub use alone::answer_alone;
pub use course::Done;
pub use laws::{files_are_right, kept_is_audited, report_is_read, run_is_audited};
pub use serving::serve;
pub use wires::{Unmade, WireList, make_wires};
