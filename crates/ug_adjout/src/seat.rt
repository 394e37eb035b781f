//! Where a row lies.
ghost use Rattle.std.specs.Prelude.{◌≡◌};

use crate::kept::Kept;
use std::alloc::AllocError;

/// The number under which a row lies as long as its key has one.
pub type Handle = u32;

/// A key and its row.
#[derive(Copy, Drop)]
pub struct Seat<K> {
    pub key: K,
    pub row: Kept,
}

impl<K: Copy> Clone for Seat<K> {
    ghost is_clone = { λ seat copy. copy ≡ seat };

    fn clone(&self) -> Result<Self, AllocError> {
        Ok(*self)
    }
}
