//! What a line came to.

/// What a line came to: nothing; a refusal, with its number and for a message its own; an event that was taken, or a mark,
/// with what the machine said to it.
#[derive(Drop)]
pub enum Came<T> {
    Passed,
    Refused { number: u8, inner: Option<u8> },
    Took(T),
    Synced(T),
}
