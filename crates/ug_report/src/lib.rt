//! The report of a run: what it says of each line of events, of marks, of sessions that were lost, and of how the run ended.
#![tactic(auto)]

mod endings;
mod lines;
mod status;
mod status_lines;

pub use endings::{Loss, write_counts, write_losses, write_lost_status};
pub use lines::{write_marks, write_refusal};
pub use status::Status;
pub use status_lines::{config_text, malformed_text};
