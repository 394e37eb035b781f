//! The check of a session's bytes: what they leave at the receiver, or their first fault. And what a receiver has read of
//! a session: the rows of its table, and which of them are stale.
#![tactic(auto)]

mod checker;
mod checking;
mod counting;
mod iter;
mod report;
mod row;
mod rows;
mod sharing;
mod stop;
mod stream;
mod table;
mod waiting;

pub use checking::check;
pub use counting::count_rows;
pub use iter::RowIter;
pub use stop::Stop;
pub use table::Table;
