//! One turn between threads, and the history of the state that goes with it.
#![tactic(auto)]

mod bell;
mod logged;
mod pass;
mod plays;
mod turn;
mod turnstile;
mod view;

pub use bell::Bell;
pub use logged::Logged;
pub use pass::{Pass, PassList, PassOf};
pub use turn::Turn;
pub use turnstile::Turnstile;
