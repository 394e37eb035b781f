use ug_types::Key;

/// What a breach is of: bytes that can't be read, a route that was not so in the past from there on, a table that
/// isn't whole at a mark of `sync`, or at the end of a session.
#[derive(Clone, Copy, PartialEq, Eq)]
pub enum BreachKind {
    Unread,
    Stuck,
    Amiss,
    Off,
}

/// Where what is asked of a session isn't so: the message after which it is seen, counted from 1, and the key, where
/// there is one.
#[derive(Clone, Copy, PartialEq, Eq)]
pub struct Breach {
    pub kind: BreachKind,
    pub message: u64,
    pub key: Option<Key>,
}

/// What stands behind the messages of a session: nothing, less than a message, or a message with a fault.
#[derive(Clone, Copy, PartialEq, Eq)]
pub enum Ending {
    Whole,
    Cut,
    Malformed,
}
