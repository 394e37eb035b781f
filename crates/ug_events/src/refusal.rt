//! Why a line is refused.

ghost use Rattle.std.specs.Prelude.{◌≡◌};
ghost use Rattle.ug_events.specs.declared.refusal.LineRefusal.TheVariants as refusals;

use std::alloc::{AllocError, AllocFailed};
use thiserror::Error;
use ug_types::NoMemory;

/// Why a line is refused.
#[derive(Clone, Copy, Debug, PartialEq, Eq, Error)]
pub enum LineRefusal {
    /// 20 the line is too long; 21 there is no such verb; 22 too few or too many words, an unknown, repeated or missing
    /// field, or a word of another form; 23 no prefix; 24 no value of an attribute, or attributes out of bounds; 25 no
    /// name; 26 no message: its own refusal is `inner`, which is there for 26 alone.
    #[error("the line is refused: {number}")]
    Refused { number: u8, inner: Option<u8> },
    /// Memory ran out.
    #[error("memory was wanting")]
    NoMemory,
}

impl LineRefusal {
    /// A refusal from 20 to 25.
    pub(crate) fn of(number: u8) -> LineRefusal
        ensures { result ≡ refusals.Refused number None }
    {
        LineRefusal::Refused {
            number,
            inner: None,
        }
    }
}

impl From<NoMemory> for LineRefusal {
    ghost from_gives = { λ _ e. e ≡ refusals.NoMemory };

    fn from(_e: NoMemory) -> LineRefusal {
        LineRefusal::NoMemory
    }
}

impl From<AllocError> for LineRefusal {
    ghost from_gives = { λ _ e. e ≡ refusals.NoMemory };

    fn from(_e: AllocError) -> LineRefusal {
        LineRefusal::NoMemory
    }
}

impl<T: Drop> From<AllocFailed<T>> for LineRefusal {
    ghost from_gives = { λ _ e. e ≡ refusals.NoMemory };

    fn from(_e: AllocFailed<T>) -> LineRefusal {
        LineRefusal::NoMemory
    }
}
