//! Addresses and prefixes as text.

ghost use Rattle.std.specs.Prelude.{◌≡◌, ◌+◌, ◌++◌, ◌≤◌, OnOk, false};
ghost use Rattle.std.specs.String.{string_bytes};
ghost use Rattle.std.specs.Fmt.{digits};
ghost use Rattle.ug_types.specs.declared.family.Family.TheVariants.{V4, V6};
ghost use Rattle.ug_text.specs.Texts.{dotted, leading, last_digit, grouped, four_groups, three_groups, group, group_text, bits_text, address_text, prefix_text};

use crate::from_end::FromEnd;
use ug_types::{Addr, Family, NoMemory, Prefix};

/// Adds four numbers with points between in front of the text, the high eight bits first.
#[tactic(auto, unfolding(crate::specs::Texts::dotted))]
fn put_dotted(text: &mut FromEnd, number: u32)
    requires { 43 ≤ text.old.room }
    ensures text { text.new.text ≡ dotted number ++ text.old.text }
    ensures room { text.old.room ≤ text.new.room + 43 }
{
    text.put_number(number % 256);
    text.put_byte(b'.');
    text.put_number(number / 256 % 256);
    text.put_byte(b'.');
    text.put_number(number / 65536 % 256);
    text.put_byte(b'.');
    text.put_number(number / 16777216);
}

/// Adds four numbers with points between, the high eight bits first.
pub fn write_dotted(out: &mut String, number: u32) -> Result<(), NoMemory>
    ensures { OnOk result (string_bytes out.new ≡ string_bytes out.old ++ dotted number) }
{
    let mut text = FromEnd::new();
    put_dotted(&mut text, number);
    out.push_str(text.as_str())?;
    Ok(())
}

/// Adds the prefix of IPv4 in front of the text: four numbers with points between, a slash and the length.
#[tactic(auto, unfolding(crate::specs::Texts::prefix_text))]
pub fn put_ipv4_prefix(text: &mut FromEnd, prefix: Prefix)
    requires family { prefix.family ≡ V4 }
    requires room { 54 ≤ text.old.room }
    ensures text { text.new.text ≡ prefix_text prefix ++ text.old.text }
{
    text.put_number(prefix.len as u32);
    text.put_byte(b'/');
    put_dotted(text, leading(prefix.bits));
}

fn write_ipv4_prefix(out: &mut String, prefix: Prefix) -> Result<(), NoMemory>
    requires { prefix.family ≡ V4 }
    ensures { OnOk result (string_bytes out.new ≡ string_bytes out.old ++ prefix_text prefix) }
{
    let mut text = FromEnd::new();
    put_ipv4_prefix(&mut text, prefix);
    out.push_str(text.as_str())?;
    Ok(())
}

/// The leading 32 bits.
fn leading(bits: u128) -> u32
    ensures { result ≡ leading bits }
{
    (bits >> 96) as u32
}

/// The group of sixteen bits that has 16 `k` bits below it.
fn group(bits: u128, k: u8) -> u16
    requires { k ≤ 7 }
    ensures { result ≡ group k bits }
{
    ((bits >> (16 * k)) % 65536) as u16
}

/// Adds the last hexadecimal digit, in lower case.
fn write_digit(out: &mut String, number: u16) -> Result<(), NoMemory>
    ensures { OnOk result (string_bytes out.new ≡ string_bytes out.old ++ last_digit number) }
{
    let digit = (number % 16) as u8;
    let glyph = if digit < 10 {
        b'0' + digit
    } else {
        b'a' - 10 + digit
    };
    out.push(glyph as char)?;
    Ok(())
}

/// Adds a number: hexadecimal, in lower case, without leading zeros. `{:x}` takes twice as long: it serves every radix.
fn write_hexadecimal(out: &mut String, number: u16) -> Result<(), NoMemory>
    ensures { OnOk result (string_bytes out.new ≡ string_bytes out.old ++ digits 16 false number) }
{
    if number < 16 {
        return write_digit(out, number);
    }
    write_hexadecimal(out, number / 16)?;
    write_digit(out, number)
}

/// Adds the group that has 16 `k` bits below it.
#[tactic(auto, unfolding(crate::specs::Texts::group_text))]
fn write_group(out: &mut String, bits: u128, k: u8) -> Result<(), NoMemory>
    requires { k ≤ 7 }
    ensures { OnOk result (string_bytes out.new ≡ string_bytes out.old ++ group_text k bits) }
{
    write_hexadecimal(out, group(bits, k))
}

/// Adds the lowest four groups, with colons between: hexadecimal, in lower case, without leading zeros.
#[tactic(auto, unfolding(crate::specs::Texts::four_groups))]
fn write_four_groups(out: &mut String, bits: u128) -> Result<(), NoMemory>
    ensures { OnOk result (string_bytes out.new ≡ string_bytes out.old ++ four_groups bits) }
{
    write_group(out, bits, 3)?;
    out.push_str(":")?;
    write_group(out, bits, 2)?;
    out.push_str(":")?;
    write_group(out, bits, 1)?;
    out.push_str(":")?;
    write_group(out, bits, 0)
}

#[tactic(auto, unfolding(crate::specs::Texts::grouped))]
fn write_eight_groups(out: &mut String, bits: u128) -> Result<(), NoMemory>
    ensures { OnOk result (string_bytes out.new ≡ string_bytes out.old ++ grouped bits) }
{
    write_four_groups(out, bits >> 64)?;
    out.push_str(":")?;
    write_four_groups(out, bits)
}

/// Adds the upper three of four groups, and five groups of 0 behind them.
#[tactic(auto, unfolding(crate::specs::Texts::three_groups))]
fn write_three_groups(out: &mut String, bits: u128) -> Result<(), NoMemory>
    ensures { OnOk result (string_bytes out.new ≡ string_bytes out.old ++ three_groups bits) }
{
    write_group(out, bits, 3)?;
    out.push_str(":")?;
    write_group(out, bits, 2)?;
    out.push_str(":")?;
    write_group(out, bits, 1)?;
    out.push_str(":0:0:0:0:0")?;
    Ok(())
}

/// Adds eight groups with colons between, the high sixteen bits first. In most prefixes the lower five are 0, which takes
/// less time.
fn write_grouped(out: &mut String, bits: u128) -> Result<(), NoMemory>
    ensures { OnOk result (string_bytes out.new ≡ string_bytes out.old ++ grouped bits) }
{
    if bits % (1 << 80) != 0 {
        return write_eight_groups(out, bits);
    }
    write_three_groups(out, bits >> 64)
}

/// Adds an address of the family with these bits, left aligned.
fn write_bits(out: &mut String, family: Family, bits: u128) -> Result<(), NoMemory>
    ensures { OnOk result (string_bytes out.new ≡ string_bytes out.old ++ bits_text family bits) }
{
    match family {
        Family::V4 => write_dotted(out, leading(bits)),
        Family::V6 => write_grouped(out, bits),
    }
}

/// Adds an address: an IPv4 address as four numbers with points between, an IPv6 address as eight groups with colons
/// between, none of them left out.
pub fn write_address(out: &mut String, address: Addr) -> Result<(), NoMemory>
    ensures { OnOk result (string_bytes out.new ≡ string_bytes out.old ++ address_text address) }
{
    write_bits(out, address.family, address.bits)
}

#[tactic(auto, unfolding(crate::specs::Texts::prefix_text))]
fn write_ipv6_prefix(out: &mut String, prefix: Prefix) -> Result<(), NoMemory>
    requires { prefix.family ≡ V6 }
    ensures { OnOk result (string_bytes out.new ≡ string_bytes out.old ++ prefix_text prefix) }
{
    let len = prefix.len;
    write_grouped(out, prefix.bits)?;
    write!(out, "/{len}")?;
    Ok(())
}

/// Adds a prefix: its address, a slash and its length.
pub fn write_prefix(out: &mut String, prefix: Prefix) -> Result<(), NoMemory>
    ensures { OnOk result (string_bytes out.new ≡ string_bytes out.old ++ prefix_text prefix) }
{
    match prefix.family {
        Family::V4 => write_ipv4_prefix(out, prefix),
        Family::V6 => write_ipv6_prefix(out, prefix),
    }
}
