//! Why reading came to an end before its source did.

/// Why a source was not read to its end. `S` is why what takes its bytes may stop.
#[derive(Clone, Copy, PartialEq, Eq, Drop)]
pub enum Halt<S> {
    /// The source could not be read.
    Read,
    /// Memory for the pieces was wanting. Nothing was read.
    NoMemory,
    /// The source has more bytes than the limit.
    TooLong,
    /// What takes the bytes stopped.
    Stopped(S),
}
