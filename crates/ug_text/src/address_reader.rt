//! Addresses and prefixes as text. A text with a colon is one of IPv6.

ghost use Rattle.std.specs.Prelude.{◌≡◌};
ghost use Rattle.ug_text.specs.Addresses.{ipv4_number, family_of, bits_in, length_in, address_in, prefix_in, prefix, aggregator};
ghost use Rattle.ug_text.specs.Numbers.{number};

use crate::cutting::cut_at;
use crate::ipv6_reader::ipv6_number;
use crate::number_reader::{number, read_number};
use ug_types::{Addr, Aggregator, Family, Prefix};

fn octet(text: &[u8]) -> Option<u8>
    ensures { result ≡ number 3 255 text.now }
{
    let value = number(3, 255, text)?;
    Some(value as u8)
}

/// The number of an IPv4 address text: four numbers of one to three digits, each at most 255, with points between.
#[tactic(auto, unfolding(crate::specs::Addresses::ipv4_number))]
pub fn read_ipv4(text: &[u8]) -> Option<u32>
    ensures { result ≡ ipv4_number text.now }
{
    let (a, rest) = cut_at(b'.', text)?;
    let (b, rest) = cut_at(b'.', rest)?;
    let (c, d) = cut_at(b'.', rest)?;
    let a = octet(a)?;
    let b = octet(b)?;
    let c = octet(c)?;
    let d = octet(d)?;
    Some(u32::from_be_bytes([a, b, c, d]))
}

fn family_of(text: &[u8]) -> Family
    ensures { result ≡ family_of text.now }
{
    for b in text {
        if *b == b':' {
            return Family::V6;
        }
    }
    Family::V4
}

/// The bits of an address text of the family, left aligned.
fn bits_in(family: Family, text: &[u8]) -> Option<u128>
    ensures { result ≡ bits_in family text.now }
{
    match family {
        Family::V4 => {
            let number = read_ipv4(text)?;
            Some((number as u128) << 96)
        }
        Family::V6 => ipv6_number(text),
    }
}

/// The address of a text of the family. An IPv6 text is eight groups of one to four hexadecimal digits of either case
/// with colons between, of which `::` may stand once for one or more that are zero.
pub fn read_address(family: Family, text: &[u8]) -> Option<Addr>
    ensures { result ≡ address_in family text.now }
{
    match family {
        Family::V4 => Some(Addr::v4(read_ipv4(text)?)),
        Family::V6 => Some(Addr {
            family,
            bits: ipv6_number(text)?,
        }),
    }
}

/// A prefix's length: one or two digits, at most 32, or of IPv6 one to three, at most 128.
fn length_in(family: Family, text: &[u8]) -> Option<u8>
    ensures { result ≡ length_in family text.now }
{
    let len = match family {
        Family::V4 => number(2, 32, text)?,
        Family::V6 => number(3, 128, text)?,
    };
    Some(len as u8)
}

/// The prefix of a text of the family: an address, a slash, and a length. Bits past the length are cleared.
#[tactic(auto, unfolding(crate::specs::Addresses::prefix_in))]
pub fn read_prefix_of(family: Family, text: &[u8]) -> Option<Prefix>
    ensures { result ≡ prefix_in family text.now }
{
    let (address, len) = cut_at(b'/', text)?;
    let bits = bits_in(family, address)?;
    let len = length_in(family, len)?;
    Prefix::new(family, bits, len)
}

/// The prefix of a text of either family.
pub fn read_prefix(text: &[u8]) -> Option<Prefix>
    ensures { result ≡ prefix text.now }
{
    read_prefix_of(family_of(text), text)
}

/// An AS number, a colon, and an IPv4 address.
#[tactic(auto, unfolding(crate::specs::Addresses::aggregator))]
pub fn read_aggregator(text: &[u8]) -> Option<Aggregator>
    ensures { result ≡ aggregator text.now }
{
    let (asn, addr) = cut_at(b':', text)?;
    let asn = read_number(asn)?;
    let addr = read_ipv4(addr)?;
    Some(Aggregator {
        asn,
        addr: Addr::v4(addr),
    })
}
