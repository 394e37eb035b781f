//! Bytes and numbers added to a message, for which there is room.

ghost use Rattle.std.specs.Prelude.{◌≡◌, ◌+◌, ◌≤◌, ◌++◌, length};
ghost use Rattle.std.specs.Int.{w16, w32, to_be_bytes};

use byteorder::{BigEndian, ByteOrder};
use ug_types::ByteList;

/// Adds bytes at the end, for which there is room.
pub fn put(out: &mut ByteList, bytes: &[u8])
    requires { length bytes.now ≤ out.old.spare }
    ensures items { out.new.items ≡ out.old.items ++ bytes.now }
    ensures spare { out.old.spare ≤ out.new.spare + length bytes.now }
{
    let _ = out.extend_from_slice(bytes);
}

/// Adds a number of two bytes.
pub fn put_u16(out: &mut ByteList, number: u16)
    requires { 2 ≤ out.old.spare }
    ensures items { out.new.items ≡ out.old.items ++ to_be_bytes w16 number }
    ensures spare { out.old.spare ≤ out.new.spare + 2 }
{
    let mut bytes = [0; 2];
    BigEndian::write_u16(&mut bytes, number);
    put(out, &bytes);
}

/// Adds a number of four bytes.
pub fn put_u32(out: &mut ByteList, number: u32)
    requires { 4 ≤ out.old.spare }
    ensures items { out.new.items ≡ out.old.items ++ to_be_bytes w32 number }
    ensures spare { out.old.spare ≤ out.new.spare + 4 }
{
    let mut bytes = [0; 4];
    BigEndian::write_u32(&mut bytes, number);
    put(out, &bytes);
}
