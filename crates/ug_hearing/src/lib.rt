//! A session, heard message by message beside what the private table of its peer was, and judged: which breach of it
//! comes first, or how its keys climbed. What is asked of its messages beside the tables that it has to follow: breaches,
//! the first of them, and what a certificate tells; nothing of that knows of worlds. And the climb of one key over the
//! changes of its value: to the least place, not before the present one, at which the past has a value. The past itself,
//! a value for each version, is nowhere held.
#![tactic(auto)]

mod breach;
mod change;
mod climb_laws;
mod climbing;
mod climbs;
mod course;
mod dated;
mod dates;
mod differences;
mod hearing;
mod judge;
mod key_lists;
mod key_map;
mod key_order;
mod laws;
mod list_map;
mod lists;
mod log;
mod marks;
mod naming;
mod placing;
mod row;
mod rows;
mod session;
mod session_laws;
mod standings;
mod watch;
mod watching;

pub use breach::{Breach, BreachKind, Ending};
pub use change::{Change, Standing};
pub use climb_laws::{changes_are_glued, climbing_goes_on};
pub use climbing::{climb, is_same, value_at};
pub use climbs::{Climbs, Move};
pub use course::{Course, passed, start};
pub use dated::Dated;
pub use differences::first_difference;
pub use hearing::Hearing;
pub use judge::Judge;
pub use key_lists::KeyLists;
pub use key_order::{least, lesser};
pub use laws::log_goes_on;
pub use list_map::ListMap;
pub use lists::Lists;
pub use log::Log;
pub use naming::all_but;
pub use row::{Moved, Row};
pub use rows::Rows;
pub use session::Session;
pub use session_laws::{answers_are_one, unnamed_keys_stay};
pub use standings::Standings;
pub use watch::Watch;
