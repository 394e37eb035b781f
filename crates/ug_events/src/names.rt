//! Words that are names.

ghost use Rattle.ug_events.specs.Fields.{name_of, source_of};
ghost use Rattle.ug_events.specs.Grammar.{policy_of};
ghost use Rattle.ug_events.specs.Views.{Gives};

use crate::refusal::LineRefusal;
use std::alloc::Global;
use ug_types::Name;

/// The name that a word is.
pub fn name_of(alloc: Global, word: &[u8]) -> Result<Name, LineRefusal>
    ensures { Gives (λ name. name) result (name_of word.now) }
{
    match Name::read(alloc, word)? {
        Some(name) => Ok(name),
        None => Err(LineRefusal::of(25)),
    }
}

/// The source of a path: `local`, or the name of a peer.
pub fn source_of(alloc: Global, value: &[u8]) -> Result<Option<Name>, LineRefusal>
    ensures { Gives (λ name. name) result (source_of value.now) }
{
    if value == b"local".as_slice() {
        return Ok(None);
    }
    Ok(Some(name_of(alloc, value)?))
}

/// The name of a policy, or `-` for none.
pub fn policy_of(alloc: Global, word: &[u8]) -> Result<Option<Name>, LineRefusal>
    ensures { Gives (λ name. name) result (policy_of word.now) }
{
    if word == b"-".as_slice() {
        return Ok(None);
    }
    Ok(Some(name_of(alloc, word)?))
}
