//! The fields of a table that were read.

ghost use Rattle.std.specs.Prelude.{◌≡◌, IfOk, unwrap_or};
ghost use Rattle.std.specs.Option.{option_map};
ghost use Rattle.ug_text.specs.Lists.{items_of};
ghost use Rattle.ug_config.specs.Looks.{value_at, number_at, octet_at, flag_at, name_at, address_at, prefix_at, on_match_at, numbers_at};

use crate::given::Given;
use std::alloc::Global;
use std::marker::Model;
use ug_policy::OnMatch;
use ug_types::{Addr, Name, NoMemory, NumberList, Prefix, Sequence};

/// A field that was read.
#[derive(Drop)]
pub struct Field {
    pub name: &'static str,
    pub given: Given,
}

impl Model for Field {
    ghost use Rattle.ug_config.specs.Tables.{Entry};

    ghost Value = { Entry };

    ghost view = { λ f. record { name = f.name.now; given = f.given } };
}

/// The value at a name, where there is one.
fn value_at<'a>(fields: &'a [Field], name: &str) -> Option<&'a Given>
    ensures { unwrap_or (option_map (λ given. given.now) result) Given.Absent ≡ value_at name.now fields.now }
{
    for field in fields {
        if field.name == name {
            return Some(&field.given);
        }
    }
    None
}

/// The number at a name.
pub fn number_at(fields: &[Field], name: &str) -> Option<u32>
    ensures { result ≡ number_at name.now fields.now }
{
    match value_at(fields, name)? {
        Given::Number(n) => Some(*n),
        _ => None,
    }
}

/// The prefix's length, or the ORIGIN, at a name.
pub fn octet_at(fields: &[Field], name: &str) -> Option<u8>
    ensures { result ≡ octet_at name.now fields.now }
{
    match value_at(fields, name)? {
        Given::Octet(n) => Some(*n),
        _ => None,
    }
}

/// The flag at a name.
pub fn flag_at(fields: &[Field], name: &str) -> Option<bool>
    ensures { result ≡ flag_at name.now fields.now }
{
    match value_at(fields, name)? {
        Given::Flag(flag) => Some(*flag),
        _ => None,
    }
}

/// The address at a name.
pub fn address_at(fields: &[Field], name: &str) -> Option<Addr>
    ensures { result ≡ address_at name.now fields.now }
{
    match value_at(fields, name)? {
        Given::Address(address) => Some(*address),
        _ => None,
    }
}

/// The prefix at a name.
pub fn prefix_at(fields: &[Field], name: &str) -> Option<Prefix>
    ensures { result ≡ prefix_at name.now fields.now }
{
    match value_at(fields, name)? {
        Given::Prefix(prefix) => Some(*prefix),
        _ => None,
    }
}

/// Where the walk goes on, at a name.
pub fn on_match_at(fields: &[Field], name: &str) -> Option<OnMatch>
    ensures { result ≡ on_match_at name.now fields.now }
{
    match value_at(fields, name)? {
        Given::OnMatch(on_match) => Some(*on_match),
        _ => None,
    }
}

/// The name at a name, as one of its own.
pub fn name_at(alloc: Global, fields: &[Field], name: &str) -> Result<Option<Name>, NoMemory>
    ensures { IfOk result (λ copy. copy ≡ name_at name.now fields.now) }
{
    match value_at(fields, name) {
        Some(Given::Name(name)) => Ok(Some(name.copy(alloc)?)),
        _ => Ok(None),
    }
}

/// The numbers at a name, as a list of its own.
pub fn numbers_at(
    alloc: Global,
    fields: &[Field],
    name: &str,
) -> Result<Option<NumberList>, NoMemory>
    ensures { IfOk result (λ copy. option_map items_of copy ≡ numbers_at name.now fields.now) }
{
    match value_at(fields, name) {
        Some(Given::Numbers(numbers)) => {
            let copy = Vec::from_slice(alloc, numbers.as_slice())?;
            Ok(Some(Sequence::from_vec(copy)))
        }
        _ => Ok(None),
    }
}
