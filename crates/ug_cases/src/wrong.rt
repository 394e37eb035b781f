//! What is wrong with a file of cases.

use std::alloc::{AllocError, AllocFailed};
use std::io;
use std::io::ErrorKind;
use ug_types::NoMemory;

/// A line that no case may have where it stands, and why; a fault of reading or printing; or running out of memory.
#[derive(Drop)]
pub enum Wrong {
    Line(&'static str),
    Outside(io::Error),
}

impl From<NoMemory> for Wrong {
    fn from(_e: NoMemory) -> Wrong {
        Wrong::Outside(io::Error::from(ErrorKind::OutOfMemory))
    }
}

impl From<AllocError> for Wrong {
    fn from(_e: AllocError) -> Wrong {
        Wrong::Outside(io::Error::from(ErrorKind::OutOfMemory))
    }
}

impl<T: Drop> From<AllocFailed<T>> for Wrong {
    fn from(_e: AllocFailed<T>) -> Wrong {
        Wrong::Outside(io::Error::from(ErrorKind::OutOfMemory))
    }
}

impl From<io::Error> for Wrong {
    fn from(e: io::Error) -> Wrong {
        Wrong::Outside(e)
    }
}
