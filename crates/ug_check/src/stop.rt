ghost use Rattle.std.specs.Prelude.{◌≡◌};
ghost use Rattle.ug_check.specs.declared.stop.Stop.TheVariants.{NoMemory as OutOfMemory};

use ug_types::NoMemory;

/// Why a check ended early.
#[derive(Clone, Copy, PartialEq, Eq)]
pub enum Stop {
    /// The stream could not be read.
    Read,
    /// The report could not be written.
    Report,
    /// Memory ran out.
    NoMemory,
    /// The stream has more bytes than are read of one.
    TooLong,
    /// The stream has a fault: which, and where it lies, counted in bytes from the start of the stream.
    Malformed { cause: u8, offset: u64 },
}

impl From<NoMemory> for Stop {
    ghost from_gives = { λ _ e. e ≡ OutOfMemory };

    fn from(_e: NoMemory) -> Stop {
        Stop::NoMemory
    }
}
