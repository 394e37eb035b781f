//! What the value of a field says.

ghost use Rattle.std.specs.Prelude.{◌≡◌, IfOk};
ghost use Rattle.toml.specs.View.{view};
ghost use Rattle.ug_config.specs.Kinds.{number_in, value_as, where_true};
ghost use Rattle.ug_config.specs.declared.kind.Kind.TheVariants as kinds;

use crate::arrays::{are_tables, communities_in, elements, numbers_in};
use crate::given::Given;
use crate::kind::Kind;
use crate::texts::{action, community_in, family, on_match, peer_name, text_of};
use std::alloc::Global;
use toml::Value;
use ug_text::{read_address, read_origin, read_prefix_of};
use ug_types::{Family, Name, NoMemory};

/// What a value of that kind says, in a table of that family; None where it is of another kind, out of range or
/// malformed.
pub fn value_as(
    alloc: Global,
    own: Family,
    kind: Kind,
    value: &Value,
) -> Result<Option<Given>, NoMemory>
    ensures { IfOk result (λ given. given ≡ value_as own kind (view value.now)) }
{
    match kind {
        Kind::Number(least, most) => Ok(number(least, most, value)),
        Kind::Length => Ok(length(value)),
        Kind::Flag => Ok(flag(value)),
        Kind::Ipv4Flag => Ok(ipv4_flag(own, value)),
        Kind::Name => name(alloc, value),
        Kind::PeerName => name_of_peer(alloc, value),
        Kind::Ipv4 => Ok(address(Family::V4, value)),
        Kind::Ipv4Prefix => Ok(prefix(Family::V4, value)),
        Kind::Family => Ok(family_word(value)),
        Kind::Address => Ok(address(own, value)),
        Kind::Subnet => Ok(prefix(own, value)),
        Kind::Action => Ok(action_word(value)),
        Kind::OnMatch => Ok(on_match_words(value)),
        Kind::Origin => Ok(origin_word(value)),
        Kind::Community => Ok(community(value)),
        Kind::Numbers => numbers(alloc, value),
        Kind::Communities => communities(alloc, value),
        Kind::Table => Ok(inner(value.is_table())),
        Kind::Tables => Ok(tables(value)),
    }
}

/// A whole number between two.
pub fn number_in(least: u32, most: u32, value: &Value) -> Option<u32>
    ensures { result ≡ number_in least most (view value.now) }
{
    let n = value.as_integer()?;
    if n < 0 {
        return None;
    }
    let n = n as u64;
    if least as u64 <= n && n <= most as u64 {
        Some(n as u32)
    } else {
        None
    }
}

fn number(least: u32, most: u32, value: &Value) -> Option<Given>
    ensures { result ≡ value_as Family.V4 (kinds.Number least most) (view value.now) }
{
    let n = number_in(least, most, value)?;
    Some(Given::Number(n))
}

fn length(value: &Value) -> Option<Given>
    ensures { result ≡ value_as Family.V4 kinds.Length (view value.now) }
{
    let n = number_in(0, 32, value)?;
    Some(Given::Octet(n as u8))
}

fn flag(value: &Value) -> Option<Given>
    ensures { result ≡ value_as Family.V4 kinds.Flag (view value.now) }
{
    let b = value.as_bool()?;
    Some(Given::Flag(b))
}

fn ipv4_flag(own: Family, value: &Value) -> Option<Given>
    ensures { result ≡ value_as own kinds.Ipv4Flag (view value.now) }
{
    let b = value.as_bool()?;
    if b && own == Family::V6 {
        return None;
    }
    Some(Given::Flag(b))
}

fn name(alloc: Global, value: &Value) -> Result<Option<Given>, NoMemory>
    ensures { IfOk result (λ given. given ≡ value_as Family.V4 kinds.Name (view value.now)) }
{
    let Some(text) = text_of(value) else {
        return Ok(None);
    };
    match Name::read(alloc, text)? {
        Some(name) => Ok(Some(Given::Name(name))),
        None => Ok(None),
    }
}

fn name_of_peer(alloc: Global, value: &Value) -> Result<Option<Given>, NoMemory>
    ensures { IfOk result (λ given. given ≡ value_as Family.V4 kinds.PeerName (view value.now)) }
{
    let Some(text) = text_of(value) else {
        return Ok(None);
    };
    match peer_name(alloc, text)? {
        Some(name) => Ok(Some(Given::Name(name))),
        None => Ok(None),
    }
}

fn address(of: Family, value: &Value) -> Option<Given>
    ensures { result ≡ value_as of kinds.Address (view value.now) }
{
    let text = text_of(value)?;
    let address = read_address(of, text)?;
    Some(Given::Address(address))
}

fn prefix(of: Family, value: &Value) -> Option<Given>
    ensures { result ≡ value_as of kinds.Subnet (view value.now) }
{
    let text = text_of(value)?;
    let prefix = read_prefix_of(of, text)?;
    Some(Given::Prefix(prefix))
}

fn family_word(value: &Value) -> Option<Given>
    ensures { result ≡ value_as Family.V4 kinds.Family (view value.now) }
{
    let text = text_of(value)?;
    let family = family(text)?;
    Some(Given::Family(family))
}

fn action_word(value: &Value) -> Option<Given>
    ensures { result ≡ value_as Family.V4 kinds.Action (view value.now) }
{
    let text = text_of(value)?;
    let permit = action(text)?;
    Some(Given::Flag(permit))
}

fn on_match_words(value: &Value) -> Option<Given>
    ensures { result ≡ value_as Family.V4 kinds.OnMatch (view value.now) }
{
    let text = text_of(value)?;
    let on_match = on_match(text)?;
    Some(Given::OnMatch(on_match))
}

fn origin_word(value: &Value) -> Option<Given>
    ensures { result ≡ value_as Family.V4 kinds.Origin (view value.now) }
{
    let text = text_of(value)?;
    let origin = read_origin(text)?;
    Some(Given::Octet(origin))
}

fn community(value: &Value) -> Option<Given>
    ensures { result ≡ value_as Family.V4 kinds.Community (view value.now) }
{
    let n = community_in(value)?;
    Some(Given::Number(n))
}

fn numbers(alloc: Global, value: &Value) -> Result<Option<Given>, NoMemory>
    ensures { IfOk result (λ given. given ≡ value_as Family.V4 kinds.Numbers (view value.now)) }
{
    let Some(values) = elements(value) else {
        return Ok(None);
    };
    match numbers_in(alloc, values)? {
        Some(numbers) => Ok(Some(Given::Numbers(numbers))),
        None => Ok(None),
    }
}

fn communities(alloc: Global, value: &Value) -> Result<Option<Given>, NoMemory>
    ensures { IfOk result (λ given. given ≡ value_as Family.V4 kinds.Communities (view value.now)) }
{
    let Some(values) = elements(value) else {
        return Ok(None);
    };
    match communities_in(alloc, values)? {
        Some(numbers) => Ok(Some(Given::Numbers(numbers))),
        None => Ok(None),
    }
}

fn inner(is_there: bool) -> Option<Given>
    ensures { result ≡ where_true is_there }
{
    if is_there { Some(Given::Inner) } else { None }
}

fn tables(value: &Value) -> Option<Given>
    ensures { result ≡ value_as Family.V4 kinds.Tables (view value.now) }
{
    let values = elements(value)?;
    inner(are_tables(values))
}
