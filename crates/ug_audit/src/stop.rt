use ug_hearing::Breach;
use ug_types::{ByteList, PeerId};

/// Why there is no certificate.
#[derive(Drop)]
pub enum Stop {
    /// A file could not be read.
    Read,
    /// Memory ran out.
    NoMemory,
    /// A file is past its limit.
    TooLong,
    /// The configuration is refused: the number of the refusal, and the way to the field.
    Config {
        number: u8,
        field: ByteList,
    },
    /// A line of the report isn't clear: the first, counted from 1.
    Unclear {
        line: u64,
    },
    /// A session isn't right: which, its first breach, and the line that says so.
    Refuted {
        peer: PeerId,
        session: u32,
        breach: Breach,
        text: String,
    },
}
