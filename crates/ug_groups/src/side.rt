//! The two tables of an Adj-RIB-Out.

/// What was formatted, or what is desired.
#[derive(Clone, Copy, PartialEq, Eq)]
pub enum Side {
    Formatted,
    Desired,
}
