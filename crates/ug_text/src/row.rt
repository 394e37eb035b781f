//! A row.

ghost use Rattle.std.specs.Prelude.{◌≡◌, ◌++◌, OnOk};
ghost use Rattle.std.specs.String.{string_bytes};
ghost use Rattle.ug_types.specs.declared.family.Family.TheVariants.{V4};
ghost use Rattle.ug_text.specs.Rows.{route_text, ending_text, row_text};

use crate::address::{put_ipv4_prefix, write_prefix};
use crate::attributes::write_attributes;
use crate::from_end::FromEnd;
use ug_types::{Attrs, Family, Key, NoMemory};

/// Adds the row of a route, with its newline. After running out of memory a part of it may be there.
pub fn write_row(out: &mut String, key: &Key, attrs: &Attrs) -> Result<(), NoMemory>
    ensures { OnOk result (string_bytes out.new ≡ string_bytes out.old ++ row_text key.now attrs.now) }
{
    write_route(out, key)?;
    write_ending(out, attrs)
}

/// Adds the route of IPv4, in one piece.
#[tactic(auto, unfolding(crate::specs::Rows::route_text))]
fn write_ipv4_route(out: &mut String, key: &Key) -> Result<(), NoMemory>
    requires { key.now.prefix.family ≡ V4 }
    ensures { OnOk result (string_bytes out.new ≡ string_bytes out.old ++ route_text key.now) }
{
    let mut text = FromEnd::new();
    text.put_number(key.id);
    text.put_byte(b'=');
    text.put_byte(b'd');
    text.put_byte(b'i');
    text.put_byte(b' ');
    put_ipv4_prefix(&mut text, key.prefix);
    out.push_str(text.as_str())?;
    Ok(())
}

#[tactic(auto, unfolding(crate::specs::Rows::route_text))]
fn write_ipv6_route(out: &mut String, key: &Key) -> Result<(), NoMemory>
    ensures { OnOk result (string_bytes out.new ≡ string_bytes out.old ++ route_text key.now) }
{
    let id = key.id;
    write_prefix(out, key.prefix)?;
    write!(out, " id={id}")?;
    Ok(())
}

/// Adds the route: its prefix and its identifier.
pub fn write_route(out: &mut String, key: &Key) -> Result<(), NoMemory>
    ensures { OnOk result (string_bytes out.new ≡ string_bytes out.old ++ route_text key.now) }
{
    match key.prefix.family {
        Family::V4 => write_ipv4_route(out, key),
        Family::V6 => write_ipv6_route(out, key),
    }
}

/// Adds the attributes and the newline.
#[tactic(auto, unfolding(crate::specs::Rows::ending_text))]
pub fn write_ending(out: &mut String, attrs: &Attrs) -> Result<(), NoMemory>
    ensures { OnOk result (string_bytes out.new ≡ string_bytes out.old ++ ending_text attrs.now) }
{
    write_attributes(out, attrs)?;
    write!(out, "\n")?;
    Ok(())
}
