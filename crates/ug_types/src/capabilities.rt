ghost use Rattle.std.specs.Prelude.{◌≡◌};
ghost use Rattle.ug_types.specs.Sessions.{message_limit};

use crate::family::Family;

/// What a session was opened with (RFC 5492): the family of its routes (RFC 4760), whether they have path
/// identifiers (ADD-PATH, RFC 7911), and whether extended messages are in use (RFC 8654).
#[derive(Clone, Copy, PartialEq, Eq)]
pub struct Capabilities {
    pub family: Family,
    pub add_path: bool,
    pub extended: bool,
}

impl Capabilities {
    /// How many bytes a message may have: 65,535 where extended messages are in use, and else 4,096.
    pub fn message_limit(self) -> usize
        ensures { result ≡ message_limit self }
    {
        if self.extended { 65535 } else { 4096 }
    }
}
