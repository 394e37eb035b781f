//! An attribute as such: what stands before its value, and how long it is in all.

ghost use Rattle.std.specs.Prelude.{◌≡◌, ℕ, ◌+◌, ◌*◌, ◌<◌, ◌≤◌, ◌^◌, ◌++◌, length, IfOk, IfErr};
ghost use Rattle.std.specs.Int.{w32, to_be_bytes};
ghost use Rattle.ug_message.specs.Attribute.{attribute};
ghost use Rattle.ug_message.specs.Values.{numbers, where_some};
ghost use Rattle.ug_message.specs.Heads.{head, size_around};
ghost use Rattle.ug_message.specs.Attribute.{attribute_at, head_size, value_size};
ghost use Rattle.ug_update.specs.AttrsViews.{standing, GivesOne, HasNumber};

use crate::attrs_fault::AttributeFault;
use crate::found::Standing;
use crate::values::put_numbers;
use byteorder::{BigEndian, ByteOrder};
use ug_message::{put, put_u16, put_u32};
use ug_types::ByteList;

/// Set where the length of the value has two bytes.
const EXTENDED: u8 = 16;

/// How many bytes an attribute has whose value has `len`.
pub fn size_around(len: usize) -> usize
    requires { len ≤ 65535 }
    ensures { result ≡ size_around len }
{
    if len > 255 { len + 4 } else { len + 3 }
}

/// Adds what stands before a value of `len` bytes.
#[tactic(auto, unfolding(ug_message::specs::Heads::head))]
pub fn put_head(out: &mut ByteList, flags: u8, kind: u8, len: usize)
    requires flags { flags < 240 }
    requires short { len ≤ 65535 }
    requires room { length (head flags kind len) ≤ out.old.spare }
    ensures items { out.new.items ≡ out.old.items ++ head flags kind len }
    ensures spare { out.old.spare ≤ out.new.spare + length (head flags kind len) }
{
    if len <= 255 {
        put(out, &[flags, kind, len as u8]);
    } else {
        put(out, &[flags + EXTENDED, kind]);
        put_u16(out, len as u16);
    }
}

/// Adds an attribute whose value is at hand.
#[tactic(auto, using(ug_message::proofs::Heads::attribute_steps))]
pub fn put_attribute(out: &mut ByteList, flags: u8, kind: u8, value: &[u8])
    requires flags { flags < 240 }
    requires short { length value.now ≤ 65535 }
    requires room { length (attribute flags kind value.now) ≤ out.old.spare }
    ensures items { out.new.items ≡ out.old.items ++ attribute flags kind value.now }
    ensures spare { out.old.spare ≤ out.new.spare + length (attribute flags kind value.now) }
{
    put_head(out, flags, kind, value.len());
    put(out, value);
}

/// Adds an attribute whose value is a number of four bytes.
#[tactic(auto, using(ug_message::proofs::Heads::attribute_steps))]
pub fn put_number(out: &mut ByteList, flags: u8, kind: u8, number: u32)
    requires flags { flags < 240 }
    requires room { length (attribute flags kind (to_be_bytes w32 number)) ≤ out.old.spare }
    ensures items { out.new.items ≡ out.old.items ++ attribute flags kind (to_be_bytes w32 number) }
    ensures spare { out.old.spare ≤ out.new.spare + length (attribute flags kind (to_be_bytes w32 number)) }
{
    put_head(out, flags, kind, 4);
    put_u32(out, number);
}

/// How many bytes an attribute has whose value is a list of numbers.
#[tactic(auto, using(ug_message::proofs::Heads::size_steps))]
pub fn list_size(list: &[u32]) -> usize
    requires { length (numbers list.now) ≤ 65535 }
    ensures size { (flags type : ℕ) → result ≡ length (where_some (λ ns. attribute flags type (numbers ns)) list.now) }
    ensures small { result ≤ 65539 }
{
    if list.is_empty() {
        0
    } else {
        size_around(4 * list.len())
    }
}

/// Adds an attribute whose value is a list of numbers, where there are any.
#[tactic(auto, using(ug_message::proofs::Heads::attribute_steps))]
pub fn put_list(out: &mut ByteList, flags: u8, kind: u8, list: &[u32])
    requires flags { flags < 240 }
    requires short { length (numbers list.now) ≤ 65535 }
    requires room { length (where_some (λ ns. attribute flags kind (numbers ns)) list.now) ≤ out.old.spare }
    ensures items { out.new.items ≡ out.old.items ++ where_some (λ ns. attribute flags kind (numbers ns)) list.now }
    ensures spare { out.old.spare ≤ out.new.spare + length (where_some (λ ns. attribute flags kind (numbers ns)) list.now) }
{
    if !list.is_empty() {
        put_head(out, flags, kind, 4 * list.len());
        put_numbers(out, list);
    }
}

/// The attribute that the bytes begin with, and how many of them it takes.
#[tactic(auto, unfolding(ug_message::specs::Attribute::attribute_at))]
pub fn attribute_at(place: usize, bytes: &[u8]) -> Result<(Standing<'_>, usize), AttributeFault>
    requires { place + length bytes.now < 2 ^ 64 }
    ensures exact { GivesOne (λ x. standing x.0) result (attribute_at place bytes.now) }
    ensures value { IfOk result (λ x. x.0.place + length x.0.value.now ≤ place + length bytes.now) }
    ensures size { IfOk result (λ x. x.1 ≡ head_size bytes.now + value_size bytes.now) }
    ensures within { IfOk result (λ x. (1 ≤ x.1) × (x.1 ≤ length bytes.now)) }
    ensures number { IfErr result HasNumber }
{
    let passes_the_end = AttributeFault::Refused(1);
    if bytes.len() < 3 {
        return Err(passes_the_end);
    }
    let flags = bytes[0];
    let kind = bytes[1];
    let mut head = 3;
    let mut len = bytes[2] as usize;
    if flags & EXTENDED != 0 {
        if bytes.len() < 4 {
            return Err(passes_the_end);
        }
        head = 4;
        len = BigEndian::read_u16(&bytes[2..]) as usize;
    }
    if bytes.len() < head + len {
        return Err(passes_the_end);
    }
    let value = &bytes[head..head + len];
    let place = place + head;
    let standing = Standing {
        flags,
        kind,
        place,
        value,
    };
    Ok((standing, head + len))
}
