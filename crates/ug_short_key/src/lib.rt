//! The keys of routes of one family, in few bytes, in the order of all keys.
#![tactic(auto)]

mod v4_key;
mod v6_key;

pub use v4_key::V4Key;
pub use v6_key::V6Key;
