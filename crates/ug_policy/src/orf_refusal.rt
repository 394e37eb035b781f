//! Why bytes aren't an ORF message.

ghost use Rattle.std.specs.Prelude.{◌≡◌};
ghost use Rattle.ug_policy.specs.declared.orf_refusal.OrfRefusal.TheVariants as refusals;

use std::alloc::{AllocError, AllocFailed};
use thiserror::Error;

/// Why bytes aren't an ORF message.
#[derive(Clone, Copy, Debug, PartialEq, Eq, Error)]
pub enum OrfRefusal {
    /// 1 the bytes are under 24 or over 4,096, or aren't as many as their length field says; 2 the marker; 3 the type
    /// isn't 5; 4 the address families aren't 1 and 1; 5 when-to-refresh is neither 1 nor 2; 6 a block or an entry is
    /// cut short; 7 there is no such action; 8 a length over 32, or an entry that is added and isn't good; 9 the
    /// reserved byte isn't 0.
    #[error("no list of a peer's own: {number}")]
    Refused { number: u8 },
    /// Memory ran out.
    #[error("memory was wanting")]
    NoMemory,
}

impl From<AllocError> for OrfRefusal {
    ghost from_gives = { λ _ e. e ≡ refusals.NoMemory };

    fn from(_e: AllocError) -> OrfRefusal {
        OrfRefusal::NoMemory
    }
}

impl<T: Drop> From<AllocFailed<T>> for OrfRefusal {
    ghost from_gives = { λ _ e. e ≡ refusals.NoMemory };

    fn from(_e: AllocFailed<T>) -> OrfRefusal {
        OrfRefusal::NoMemory
    }
}
