ghost use Rattle.std.specs.Prelude.{◌≡◌};
ghost use Rattle.ug_types.specs.Ip.{ipv4};

use crate::family::Family;
use std::marker::Model;

/// An address, left aligned as in a prefix: of an IPv4 one the bits past the 32nd are zero.
#[derive(Clone, Copy, PartialEq, Eq, Hash)]
pub struct Addr {
    pub family: Family,
    pub bits: u128,
}

impl Model for Addr {
    ghost use Rattle.ug_types.specs.Ip.{IpAddress, IsAddress};

    ghost Value = { IpAddress };

    ghost view = { λ a. record { family = a.family; bits = a.bits } };

    ghost invariant = { λ a. IsAddress a.family a.bits };

    ghost inverse = { λ a. record { family = a.family; bits = a.bits } };
}

impl Addr {
    /// The IPv4 address of a number: 192.0.2.1 is 0xC0000201.
    pub fn v4(number: u32) -> Addr
        ensures { result ≡ ipv4 number }
    {
        Addr {
            family: Family::V4,
            bits: (number as u128) << 96,
        }
    }
}
