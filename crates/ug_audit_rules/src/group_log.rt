//! What the peers of a group key should have, version by version.

ghost use Rattle.std.specs.Prelude.{◌≡◌, [], None, IsTrue, IfOk, OnOk, ◌↔◌, option_copied};
ghost use Rattle.ug_audit_rules.specs.Held.{last_held};
ghost use Rattle.ug_audit_rules.specs.GroupLogs.{IsSet};

use crate::since::Since;
use std::alloc::Global;
use ug_hearing::ListMap;
use ug_types::{Key, NoMemory, OutAttrs, Shared, value_laws};

/// What goes out under a key from a version on.
pub type GroupChange = Since<Option<Shared<OutAttrs>>>;

/// The changes of what goes out, key by key. Equal values that are noted one behind the other are shared.
#[derive(Drop)]
pub struct GroupLog {
    pub changes: ListMap<GroupChange>,
    pub last: Option<Shared<OutAttrs>>,
}

impl GroupLog {
    /// Before any change.
    pub fn new(alloc: Global) -> GroupLog
        ensures { result.changes ≡ [] }
    {
        GroupLog {
            changes: ListMap::new(alloc),
            last: None,
        }
    }

    /// From a version on this goes out under the key.
    pub fn note(
        &mut self,
        alloc: Global,
        version: u32,
        key: &Key,
        value: Option<OutAttrs>,
    ) -> Result<(), NoMemory>
        ensures { OnOk result (IsSet version key.now value self.old.changes self.new.changes) }
    {
        if is_last(self.changes.of(key), &value) {
            return Ok(());
        }
        let value = self.shared(alloc, value)?;
        self.changes.add(alloc, *key, Since { version, value })
    }

    /// The value, shared with the one before it where that is equal.
    fn shared(
        &mut self,
        alloc: Global,
        value: Option<OutAttrs>,
    ) -> Result<Option<Shared<OutAttrs>>, NoMemory>
        ensures value { IfOk result (λ shared. shared ≡ value) }
        ensures changes { self.new.changes ≡ self.old.changes }
    {
        let Some(out) = value else {
            return Ok(None);
        };
        if let Some(last) = &self.last {
            if is_same_value(last.get(), &out) {
                return Ok(Some(last.share()?));
            }
        }
        let first = Shared::new(alloc, out)?;
        let shared = first.share()?;
        self.last = Some(first);
        Ok(Some(shared))
    }
}

/// Whether that is what goes out behind all changes.
fn is_last(changes: &[GroupChange], value: &Option<OutAttrs>) -> bool
    ensures { IsTrue result ↔ (last_held None changes.now ≡ value.now) }
{
    match last_of(changes) {
        None => value.is_none(),
        Some(last) => match value {
            None => false,
            Some(value) => is_same_value(last, value),
        },
    }
}

/// What goes out behind all changes.
fn last_of(changes: &[GroupChange]) -> Option<&OutAttrs>
    ensures { option_copied result ≡ last_held None changes.now }
{
    let count = changes.len();
    if count == 0 {
        return None;
    }
    match &changes[count - 1].value {
        Some(value) => Some(value.get()),
        None => None,
    }
}

pub fn is_same_value(one: &OutAttrs, other: &OutAttrs) -> bool
    ensures { IsTrue result ↔ (one.now ≡ other.now) }
{
    value_laws();
    *one == *other
}
