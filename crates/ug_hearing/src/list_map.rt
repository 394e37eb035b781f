//! Lists by key, which grow.

ghost use Rattle.std.specs.Prelude.{◌≡◌, [], ◌∷◌, ◌++◌, length, IfOk, OnOk, false};
ghost use Rattle.std.specs.List.Sorted.{IsStrictlySortedBy};
ghost use Rattle.std.specs.Map.{keys_of};
ghost use Rattle.ug_types.specs.declared.key.Key as routes;
ghost use Rattle.ug_types.specs.Keys.{same_key};
ghost use Rattle.ug_types.specs.Orders.{key_cmp};
ghost use Rattle.ug_hearing.specs.Keyed.{value_for, list_for};
ghost use Rattle.ug_hearing.specs.Lists.{listed, items_in};

use crate::key_map::KeyMap;
use std::alloc::Global;
use std::collections::btree_map::IntoIter;
use std::marker::Model;
use ug_types::{Key, NoMemory};

/// A list for each of some keys, to which items are added one by one. Contracts see the keys in their order, each with its list.
#[derive(Drop)]
pub struct ListMap<T> {
    lists: KeyMap<Vec<T>>,
}

impl<T> Model for ListMap<T> {
    ghost use Rattle.std.specs.Prelude.{List};
    ghost use Rattle.ug_types.specs.declared.key.Key.{Key};
    ghost use Rattle.ug_hearing.specs.Lists.{listed};

    ghost Value = { List (Key × List T) };

    ghost view = { λ m. listed m.lists };
}

impl<T: Drop> ListMap<T> {
    /// No keys. It takes no memory.
    pub fn new(alloc: Global) -> ListMap<T>
        ensures { result ≡ [] }
    {
        ListMap {
            lists: KeyMap::new(alloc),
        }
    }

    /// The list of a key. It is empty where the key has none.
    pub fn of(&self, key: &Key) -> &[T]
        ensures { result.now ≡ list_for self.now key.now }
    {
        match self.lists.get(key) {
            Some(list) => list.as_slice(),
            None => &[],
        }
    }

    /// Adds an item to the list of a key. After running out of memory that list is lost.
    pub fn add(&mut self, alloc: Global, key: Key, item: T) -> Result<(), NoMemory>
        ensures list { OnOk result (list_for self.new key ≡ list_for self.old key ++ item ∷ []) }
        ensures others { OnOk result ((q : routes.Key) → same_key key q ≡ false → value_for self.new q ≡ value_for self.old q) }
    {
        let held = self.lists.remove(&key);
        let mut list = list_or_empty(alloc, held)?;
        list.push(item)?;
        self.lists.put(key, list)?;
        Ok(())
    }

    /// How many keys there are, which ascend.
    pub fn len(&self) -> usize
        ensures len { result ≡ length self.now }
        ensures ascending { IsStrictlySortedBy key_cmp (keys_of self.now) }
    {
        self.lists.len()
    }

    /// The keys in their order, each with its list, moved out of the map.
    pub(crate) fn into_entries(self) -> IntoIter<Key, Vec<T>>
        ensures { listed result ≡ self }
    {
        self.lists.into_entries()
    }
}

/// The list, or an empty one with room for an item where there is none.
fn list_or_empty<T>(alloc: Global, held: Option<Vec<T>>) -> Result<Vec<T>, NoMemory>
    ensures { IfOk result (λ list. list.items ≡ items_in held) }
{
    let Some(list) = held else {
        return Ok(Vec::with_capacity(alloc, 1)?);
    };
    Ok(list)
}
