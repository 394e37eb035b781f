/// What is to be done with an entry of a list (RFC 5291 section 4).
#[derive(Clone, Copy, PartialEq, Eq)]
pub enum Action {
    /// It takes the place of the one of its sequence, or is new.
    Add,
    /// The one of its sequence goes.
    Remove,
    /// All entries go.
    RemoveAll,
}
