use ug_types::ByteList;

/// Why no groups were listed, or not all.
#[derive(Drop)]
pub enum Stop {
    /// The configuration could not be read.
    Read,
    /// The report could not be written.
    Report,
    /// Memory ran out.
    NoMemory,
    /// The configuration has more bytes than are read of one.
    TooLong,
    /// The configuration is refused: the number of the refusal, and the way to the field.
    Config { number: u8, field: ByteList },
}
