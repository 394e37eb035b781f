//! Why reading lines came to an end before its source did.

/// Why not all lines of a source were taken. `S` is why what takes them may stop.
#[derive(Clone, Copy, PartialEq, Eq, Drop)]
pub enum LineHalt<S> {
    /// The source could not be read.
    Read,
    /// Memory ran out.
    NoMemory,
    /// The source has more bytes than the limit.
    TooLong,
    /// The source has more lines than the limit.
    TooMany,
    /// What takes the lines stopped.
    Stopped(S),
}
