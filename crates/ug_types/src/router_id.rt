ghost use Rattle.std.specs.Prelude.{◌≡◌};
ghost use Rattle.ug_types.specs.Ip.{ipv4};
ghost use Rattle.ug_types.specs.declared.family.Family.TheVariants.{V4};

use crate::address::Addr;
use std::marker::Model;

/// A BGP Identifier (RFC 4271 section 4.2): four bytes, written as an IPv4 address. Contracts see that address.
#[derive(Clone, Copy)]
pub struct RouterId {
    number: u32,
}

impl Model for RouterId {
    ghost use Rattle.std.specs.Prelude.{◌/◌, ◌^◌};
    ghost use Rattle.ug_types.specs.Ip.{IpAddress, ipv4};
    ghost use Rattle.ug_types.specs.Routers.{leading_bits};

    ghost Value = { IpAddress };

    ghost view = { λ r. ipv4 r.number };

    ghost inverse = { λ r. record { number = r.bits / 2 ^ 96 } };

    ghost inverse_ok = { λ r h i. record { number = leading_bits r.number i } };
}

impl RouterId {
    /// The identifier of a number: 192.0.2.1 is 0xC0000201.
    pub fn new(number: u32) -> RouterId
        ensures { result ≡ ipv4 number }
    {
        RouterId { number }
    }

    /// The identifier that an IPv4 address is.
    pub fn of(address: Addr) -> RouterId
        requires { address.family ≡ V4 }
        ensures { result ≡ address }
    {
        RouterId {
            number: (address.bits >> 96) as u32,
        }
    }

    /// The address that it is written as.
    pub fn address(&self) -> Addr
        ensures { result ≡ self.now }
    {
        Addr::v4(self.number)
    }
}
