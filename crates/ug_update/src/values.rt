//! The parts of values: numbers and addresses.

ghost use Rattle.std.specs.Prelude.{◌≡◌, ◌+◌, ◌/◌, ◌≤◌, ◌++◌, length, IfOk};
ghost use Rattle.ug_message.specs.Values.{numbers, four_bytes, sixteen_bytes};
ghost use Rattle.ug_message.specs.Values.{number_in, address_in, numbers_in};

use byteorder::{BigEndian, ByteOrder};
use std::alloc::{AllocError, Global};
use ug_message::put_u32;
use ug_types::{Addr, ByteList, NumberList, Sequence};

/// The sixteen bytes of an IPv6 address.
pub fn sixteen_bytes(addr: &Addr) -> [u8; 16]
    ensures { result ≡ sixteen_bytes addr.now }
{
    let mut bytes = [0; 16];
    BigEndian::write_u128(&mut bytes, addr.bits);
    bytes
}

/// The four bytes of an IPv4 address.
pub fn four_bytes(addr: &Addr) -> [u8; 4]
    ensures { result ≡ four_bytes addr.now }
{
    let bytes = sixteen_bytes(addr);
    [bytes[0], bytes[1], bytes[2], bytes[3]]
}

/// The number of the first four bytes.
pub fn number_in(bytes: &[u8]) -> u32
    requires { 4 ≤ length bytes.now }
    ensures { result ≡ number_in bytes.now }
{
    BigEndian::read_u32(bytes)
}

/// The IPv4 address of the first four bytes.
pub fn address_in(bytes: &[u8]) -> Addr
    requires { 4 ≤ length bytes.now }
    ensures { result ≡ address_in bytes.now }
{
    Addr::v4(number_in(bytes))
}

/// The numbers of four bytes each.
pub fn numbers_in(alloc: Global, bytes: &[u8]) -> Result<NumberList, AllocError>
    ensures exact { IfOk result (λ list. list.items ≡ numbers_in bytes.now) }
    ensures count { IfOk result (λ list. length list.items ≡ length bytes.now / 4) }
{
    let mut numbers = Vec::with_capacity(alloc, bytes.len() / 4)?;
    let mut rest = bytes;
    while let [_, _, _, _, after @ ..] = rest {
        numbers.push(BigEndian::read_u32(rest))?;
        rest = after;
    }
    Ok(Sequence::from_vec(numbers))
}

/// Adds numbers of four bytes each.
pub fn put_numbers(out: &mut ByteList, list: &[u32])
    requires { length (numbers list.now) ≤ out.old.spare }
    ensures items { out.new.items ≡ out.old.items ++ numbers list.now }
    ensures spare { out.old.spare ≤ out.new.spare + length (numbers list.now) }
{
    for number in list {
        put_u32(out, *number);
    }
}
