//! A pool in which equal values are stored once, and shared by small numbers.
#![tactic(auto)]

mod pool;
mod seat;

pub use pool::{AttrId, Pool};
