use crate::change::Standing;

/// How a key stands in a session: its climb, the last of its moves, counted from 1 among those of all keys, or 0, and how
/// many refreshes had begun when it was named last.
#[derive(Clone, Copy, PartialEq, Eq)]
pub struct Row {
    pub standing: Standing,
    pub moved: usize,
    pub seen: u64,
}

/// A message at which the place of a key's climb moves, counted from 1, the place that it moves to, counted from the
/// session's first, and the last move of that key before it.
#[derive(Clone, Copy, PartialEq, Eq)]
pub struct Moved {
    pub message: u64,
    pub place: u32,
    pub before: usize,
}
