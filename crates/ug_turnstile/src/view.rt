//! What a seat at the turnstile's table knows. No value of these types is made: they exist in proofs alone.

use std::collections::LinkedList;

/// What one pass knows: the root of the state, the entries that it has seen, and whether the state was spent then.
pub struct Part<E, R> {
    pub number: u32,
    pub root: R,
    pub seen: LinkedList<E>,
    pub spent: bool,
}

/// The parts of all passes that lie in one seat, and whether the seat holds the turn.
pub struct View<E, R> {
    pub holds: bool,
    pub parts: LinkedList<Part<E, R>>,
}
