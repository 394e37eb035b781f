//! The keys that an UPDATE names.

ghost use Rattle.std.specs.Prelude.{◌≡◌, ◌&&◌, not, is_some, IfOk};
ghost use Rattle.ug_types.specs.declared.key.Key as routes;
ghost use Rattle.ug_message.specs.Tables.{among};
ghost use Rattle.ug_hearing.specs.Keyed.{value_for};

use crate::key_map::KeyMap;
use std::alloc::Global;
use ug_types::{Key, NoMemory};

/// A map that has just these keys.
pub fn set_of(alloc: Global, keys: &[Key]) -> Result<KeyMap<bool>, NoMemory>
    ensures { IfOk result (λ set. (q : routes.Key) → is_some (value_for set q) ≡ among keys.now q) }
{
    let mut set = KeyMap::new(alloc);
    for key in keys {
        set.put(*key, true)?;
    }
    Ok(set)
}

/// Those of the one keys that are not among the others.
pub fn all_but(alloc: Global, keys: &[Key], others: &[Key]) -> Result<Vec<Key>, NoMemory>
    ensures { IfOk result (λ left. (q : routes.Key) → among left.items q ≡ (among keys.now q && not (among others.now q))) }
{
    let mut left = Vec::new(alloc);
    if keys.is_empty() {
        return Ok(left);
    }
    let named = set_of(alloc, others)?;
    for key in keys {
        if !named.contains(key) {
            left.push(*key)?;
        }
    }
    Ok(left)
}
