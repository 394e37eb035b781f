ghost use Rattle.std.specs.Prelude.{◌≡◌};
ghost use Rattle.ug_types.specs.Keys.{weight_of};

use crate::prefix::Prefix;

/// A route's key: its prefix, and its path identifier (RFC 7911), which is 0 without ADD-PATH.
#[derive(Clone, Copy, PartialEq, Eq, PartialOrd, Ord)]
pub struct Key {
    pub prefix: Prefix,
    pub id: u32,
}

impl Key {
    /// How many bytes the route takes in a message: the length byte, the fewest bytes that hold the prefix's
    /// bits, and four for an identifier that isn't 0.
    pub fn weight(&self) -> usize
        ensures { result ≡ weight_of self.now }
    {
        let id = if self.id == 0 { 0 } else { 4 };
        1 + (self.prefix.len as usize + 7) / 8 + id
    }
}
