ghost use Rattle.std.specs.Prelude.{◌≡◌, ◌≤◌};
ghost use Rattle.ug_types.specs.Ip.{prefix_of, covers, cleared};

use crate::family::Family;
use std::marker::Model;

/// A prefix: an address, left aligned, of which the first `len` bits count. The bits past them are zero.
/// Prefixes order by family, bits, length.
#[derive(Clone, Copy, PartialEq, Eq, PartialOrd, Ord)]
pub struct Prefix {
    pub family: Family,
    pub bits: u128,
    pub len: u8,
}

impl Model for Prefix {
    ghost use Rattle.ug_types.specs.Ip.{IpPrefix, IsPrefix};

    ghost Value = { IpPrefix };

    ghost view = { λ p. record { family = p.family; bits = p.bits; len = p.len } };

    ghost invariant = { λ p. IsPrefix p.family p.bits p.len };

    ghost inverse = { λ p. record { family = p.family; bits = p.bits; len = p.len } };
}

impl Prefix {
    /// The prefix of that length that an address lies in: the bits past the length are cleared. None exactly
    /// where the family has no such length (over 32, or 128).
    pub fn new(family: Family, bits: u128, len: u8) -> Option<Prefix>
        ensures { result ≡ prefix_of family bits len }
    {
        if len > family.width() {
            return None;
        }
        Some(Prefix {
            family,
            bits: clear(len, bits),
            len,
        })
    }

    /// Whether each address in `other` lies in this prefix.
    pub fn covers(&self, other: &Prefix) -> bool
        ensures { result ≡ covers self.now other.now }
    {
        self.family == other.family
            && self.len <= other.len
            && clear(self.len, other.bits) == self.bits
    }
}

/// The bits with all past the first `len` cleared.
fn clear(len: u8, bits: u128) -> u128
    requires { len ≤ 128 }
    ensures { result ≡ cleared len bits }
{
    if len == 0 {
        return 0;
    }
    let shift = 128 - len;
    (bits >> shift) << shift
}
