//! A list that grows at its end and is taken from its front, and never moves an item.
#![tactic(auto)]

mod chain;
mod places;
mod row;
mod segment;

pub use chain::SegChain;
