ghost use Rattle.std.specs.Prelude.{◌≡◌, IfOk, MatchOption, true, false};
ghost use Rattle.std.specs.List.{list_all};
ghost use Rattle.std.specs.String.{string_bytes};
ghost use Rattle.ug_types.specs.Names.{is_letter, is_name_byte, is_name};

use crate::memory::NoMemory;
use crate::sequence::Sequence;
use std::alloc::Global;
use std::marker::Model;

/// The name of a peer, a policy, a list or a map: 1 to 32 bytes of a to z, 0 to 9, `-` and `_`, the first of
/// them a letter.
#[derive(Drop)]
pub struct Name {
    text: String,
}

pub type NameList = Sequence<Name>;

impl Model for Name {
    ghost use Rattle.std.specs.Prelude.{◌≡◌, List, ℕ, true};
    ghost use Rattle.std.specs.String.{string_bytes};
    ghost use Rattle.ug_types.specs.Names.{is_name};

    ghost Value = { List ℕ };

    ghost view = { λ n. string_bytes n.text };

    ghost invariant = { λ n. is_name (string_bytes n.text) ≡ true };
}

impl Name {
    /// The name that the bytes are; None exactly where they aren't one.
    pub fn read(alloc: Global, bytes: &[u8]) -> Result<Option<Name>, NoMemory>
        ensures { IfOk result (λ name. MatchOption name (is_name bytes.now ≡ false)
            (λ name. (is_name bytes.now ≡ true) × (name ≡ bytes.now))) }
    {
        if !is_name(bytes) {
            return Ok(None);
        }
        let Ok(text) = str::from_utf8(bytes) else {
            return Ok(None);
        };
        Ok(Some(Name {
            text: String::from_str(alloc, text)?,
        }))
    }

    /// The bytes as text.
    pub fn text(&self) -> &str
        ensures value { result.now ≡ self.now }
        ensures name { is_name self.now ≡ true }
    {
        self.text.as_str()
    }

    /// An equal name of its own.
    pub fn copy(&self, alloc: Global) -> Result<Name, NoMemory>
        ensures { IfOk result (λ copy. copy ≡ self.now) }
    {
        Ok(Name {
            text: String::from_str(alloc, self.text.as_str())?,
        })
    }
}

fn is_letter(b: u8) -> bool
    ensures { result ≡ is_letter b }
{
    97 <= b && b <= 122
}

fn is_name_byte(b: u8) -> bool
    ensures { result ≡ is_name_byte b }
{
    is_letter(b) || (48 <= b && b <= 57) || b == 45 || b == 95
}

fn is_name(bytes: &[u8]) -> bool
    ensures { result ≡ is_name bytes.now }
{
    match bytes {
        [] => false,
        [first, ..] => { is_letter(*first) && bytes.len() <= 32 && are_name_bytes(bytes) }
    }
}

fn are_name_bytes(bytes: &[u8]) -> bool
    ensures { result ≡ list_all is_name_byte bytes.now }
{
    bytes.iter().all(|b| is_name_byte(*b))
}
