//! Why a builder stopped.

/// Why a builder takes no more lines.
#[derive(Clone, Copy, PartialEq, Eq, Drop)]
pub enum Stop {
    /// Memory ran out.
    NoMemory,
    /// The report could not be written.
    Report,
}
