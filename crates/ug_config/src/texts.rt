//! Texts in a document.

ghost use Rattle.std.specs.Prelude.{◌≡◌, IfOk};
ghost use Rattle.std.specs.Option.{option_copied};
ghost use Rattle.toml.specs.Data.{as_str};
ghost use Rattle.toml.specs.View.{view};
ghost use Rattle.ug_config.specs.Kinds.{action, family, on_match, name, peer_name, community_in};

use std::alloc::Global;
use toml::Value;
use ug_policy::OnMatch;
use ug_text::{cut_at, read_community, read_positive};
use ug_types::{Family, Name, NoMemory};

/// The bytes of a text.
pub fn text_of(value: &Value) -> Option<&[u8]>
    ensures { option_copied result ≡ as_str (view value.now) }
{
    match value.as_str() {
        Some(text) => Some(text.as_bytes()),
        None => None,
    }
}

/// `permit` or `deny`.
pub fn action(text: &[u8]) -> Option<bool>
    ensures { result ≡ action text.now }
{
    if text == b"permit".as_slice() {
        return Some(true);
    }
    if text == b"deny".as_slice() {
        return Some(false);
    }
    None
}

/// `ipv4` or `ipv6`.
pub fn family(text: &[u8]) -> Option<Family>
    ensures { result ≡ family text.now }
{
    if text == b"ipv4".as_slice() {
        return Some(Family::V4);
    }
    if text == b"ipv6".as_slice() {
        return Some(Family::V6);
    }
    None
}

/// `next`, or `goto N`.
pub fn on_match(text: &[u8]) -> Option<OnMatch>
    ensures { result ≡ on_match text.now }
{
    if text == b"next".as_slice() {
        return Some(OnMatch::Next);
    }
    let (word, number) = cut_at(b' ', text)?;
    if word != b"goto".as_slice() {
        return None;
    }
    let n = read_positive(number)?;
    Some(OnMatch::Goto(n))
}

/// A name that isn't `local`.
pub fn peer_name(alloc: Global, text: &[u8]) -> Result<Option<Name>, NoMemory>
    ensures { IfOk result (λ name. name ≡ peer_name text.now) }
{
    if text == b"local".as_slice() {
        return Ok(None);
    }
    Name::read(alloc, text)
}

/// A community.
pub fn community_in(value: &Value) -> Option<u32>
    ensures { result ≡ community_in (view value.now) }
{
    let text = text_of(value)?;
    read_community(text)
}
