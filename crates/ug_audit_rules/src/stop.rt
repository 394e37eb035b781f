/// Why a report tells nothing.
#[derive(Clone, Copy, PartialEq, Eq)]
pub enum Stop {
    /// Memory ran out.
    NoMemory,
    /// There are more lines than the limit, and those within it are clear.
    TooMany,
    /// The first line that isn't clear, counted from 1.
    Unclear { line: u64 },
}
