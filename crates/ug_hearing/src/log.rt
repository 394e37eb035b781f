//! What a table was, version by version.

ghost use Rattle.std.specs.Prelude.{◌≡◌, [], length, option_copied, OnOk, IfOk};
ghost use Rattle.ug_hearing.specs.Logs.{IsNoted, AreNoted};

use crate::change::Change;
use crate::climbing::{is_same, value_at};
use crate::list_map::ListMap;
use std::alloc::Global;
use ug_types::{Attrs, Key, NoMemory, Shared};

/// The changes of a table's values, key by key.
#[derive(Drop)]
pub struct Log {
    pub changes: ListMap<Change>,
}

impl Log {
    /// Before any change.
    pub fn new(alloc: Global) -> Log
        ensures { result.changes ≡ [] }
    {
        Log {
            changes: ListMap::new(alloc),
        }
    }

    /// From a version on the key has this value. The version is behind those of all changes so far. After running out
    /// of memory the key's changes are lost.
    pub fn note(
        &mut self,
        alloc: Global,
        version: u32,
        key: Key,
        value: Option<&Attrs>,
    ) -> Result<(), NoMemory>
        ensures { OnOk result (IsNoted version key (option_copied value.entry) self.old.changes self.new.changes) }
    {
        let changes = self.changes.of(&key);
        if is_same(value_at(changes, changes.len()), value) {
            return Ok(());
        }
        let value = share(alloc, value)?;
        self.changes.add(
            alloc,
            key,
            Change {
                place: version,
                value,
            },
        )
    }

    /// A table of this version has these values under these keys.
    pub fn note_all(
        &mut self,
        alloc: Global,
        version: u32,
        keys: &[Key],
        values: &[Option<Attrs>],
    ) -> Result<(), NoMemory>
        requires { length values.now ≡ length keys.now }
        ensures { OnOk result (AreNoted version keys.now values.now self.old.changes self.new.changes) }
    {
        for i in 0..keys.len() {
            let key = keys[i];
            let value = values[i].as_ref();
            self.note(alloc, version, key, value)?;
        }
        Ok(())
    }
}

fn share(alloc: Global, value: Option<&Attrs>) -> Result<Option<Shared<Attrs>>, NoMemory>
    ensures { IfOk result (λ shared. shared ≡ option_copied value.entry) }
{
    match value {
        Some(attrs) => {
            let copy = attrs.copy(alloc)?;
            let shared = Shared::new(alloc, copy)?;
            Ok(Some(shared))
        }
        None => Ok(None),
    }
}
