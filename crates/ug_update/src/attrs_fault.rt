//! Why attributes could not be read.

ghost use Rattle.std.specs.Prelude.{◌≡◌};
ghost use Rattle.ug_update.specs.declared.attrs_fault.AttributeFault.TheVariants as one;

use std::alloc::{AllocError, AllocFailed};

/// Why attributes could not be read.
#[derive(Clone, Copy, PartialEq, Eq)]
pub enum AttrFault {
    /// The first fault. Its place is that of the attribute's first byte, counted from the first byte given, and 0 for 7.
    ///
    /// 1 the head or the value passes the end; 2 the type was there before, known or not; 3 wrong flags of a known
    /// type; 4 wrong length of a known type; 5 ORIGIN above 2; 6 AS_PATH has a segment of a type other than 1 and 2,
    /// one of no number, or one that passes the value's end; 7 ORIGIN, AS_PATH or NEXT_HOP is missing where all three
    /// are needed; 8 an unknown type without the optional bit; 9 MP_REACH_NLRI or MP_UNREACH_NLRI of IPv6 routes
    /// is cut short before the routes, of another family, or has a next hop of another length than 16 and 32.
    Refused { number: u8, place: usize },
    /// Memory ran out.
    NoMemory,
}

/// Why one attribute could not be read.
#[derive(Clone, Copy)]
pub enum AttributeFault {
    Refused(u8),
    NoMemory,
}

impl From<AllocError> for AttributeFault {
    ghost from_gives = { λ _ e. e ≡ one.NoMemory };

    fn from(_e: AllocError) -> AttributeFault {
        AttributeFault::NoMemory
    }
}

impl<T: Drop> From<AllocFailed<T>> for AttributeFault {
    ghost from_gives = { λ _ e. e ≡ one.NoMemory };

    fn from(_e: AllocFailed<T>) -> AttributeFault {
        AttributeFault::NoMemory
    }
}
