ghost use Rattle.std.specs.Prelude.{◌≡◌};
ghost use Rattle.ug_types.specs.Ip.{width_of};

/// An address family.
#[derive(Clone, Copy, Debug, PartialEq, Eq, PartialOrd, Ord, Hash)]
pub enum Family {
    V4,
    V6,
}

impl Family {
    /// How many bits an address has.
    pub fn width(self) -> u8
        ensures { result ≡ width_of self }
    {
        match self {
            Family::V4 => 32,
            Family::V6 => 128,
        }
    }
}
