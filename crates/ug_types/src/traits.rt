//! What the generic structures above ask of the values that they hold.

ghost use Rattle.std.specs.Prelude.{◌≡◌, ℕ, IfOk};
ghost use Rattle.ug_types.specs.Keys.{weight_of};

use crate::key::Key;
use crate::memory::NoMemory;

/// A value that takes room in a message.
pub trait Weighed {
    /// How many bytes it takes.
    ghost bytes: { Self → ℕ };

    /// How many bytes it takes.
    fn weight(&self) -> usize
        ensures { result ≡ bytes self.now };
}

impl Weighed for Key {
    ghost bytes = { weight_of };

    fn weight(&self) -> usize {
        Key::weight(self)
    }
}

/// A value that can be made again, with the memory that it was made with.
pub trait Twin: Sized {
    /// An equal value of its own.
    fn twin(&self) -> Result<Self, NoMemory>
        ensures { IfOk result (λ twin. twin ≡ self.now) };
}
