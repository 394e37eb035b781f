//! Values by key.

ghost use Rattle.std.specs.Prelude.{◌≡◌, [], None, Some, length, OnOk, OnErr, is_some, option_copied, if◌then◌else◌};
ghost use Rattle.std.specs.List.Sorted.{IsStrictlySortedBy};
ghost use Rattle.std.specs.Map.{keys_of};
ghost use Rattle.ug_types.specs.declared.key.Key as routes;
ghost use Rattle.ug_types.specs.Keys.{same_key};
ghost use Rattle.ug_types.specs.Orders.{key_cmp};
ghost use Rattle.ug_hearing.specs.Keyed.{value_for};

use std::alloc::Global;
use std::collections::BTreeMap;
use std::collections::btree_map::{IntoIter, Iter};
use std::marker::Model;
use ug_types::{Key, NoMemory, comparison_laws};

/// A value for each of some keys. Contracts see the keys in their order, each with its value.
#[derive(Drop)]
pub struct KeyMap<V> {
    entries: BTreeMap<Key, V>,
}

impl<V> Model for KeyMap<V> {
    ghost use Rattle.std.specs.Prelude.{List};
    ghost use Rattle.ug_types.specs.declared.key.Key.{Key};

    ghost Value = { List (Key × V) };

    ghost view = { λ m. m.entries.entries };
}

impl<V: Drop> KeyMap<V> {
    /// No keys. It takes no memory.
    pub fn new(alloc: Global) -> KeyMap<V>
        ensures { result ≡ [] }
    {
        KeyMap {
            entries: BTreeMap::new(alloc),
        }
    }

    /// The value of a key; None exactly where it has none.
    pub fn get(&self, key: &Key) -> Option<&V>
        ensures { option_copied result ≡ value_for self.now key.now }
    {
        comparison_laws();
        self.entries.get(key)
    }

    /// Whether a key has a value.
    pub fn contains(&self, key: &Key) -> bool
        ensures { result ≡ is_some (value_for self.now key.now) }
    {
        self.get(key).is_some()
    }

    /// Gives the key this value. After running out of memory all is as before.
    pub fn put(&mut self, key: Key, value: V) -> Result<(), NoMemory>
        ensures ok { OnOk result ((q : routes.Key) → value_for self.new q ≡ (if same_key key q then Some value else value_for self.old q)) }
        ensures err { OnErr result (self.new ≡ self.old) }
    {
        comparison_laws();
        match self.entries.insert(key, value) {
            Ok(_) => Ok(()),
            Err(_) => Err(NoMemory),
        }
    }

    /// Takes a key out, and answers its value.
    pub fn remove(&mut self, key: &Key) -> Option<V>
        ensures value { result ≡ value_for self.old key.now }
        ensures others { (q : routes.Key) → value_for self.new q ≡ (if same_key key.now q then None else value_for self.old q) }
    {
        comparison_laws();
        self.entries.remove(key)
    }

    /// The keys in their order, each with its value.
    pub fn iter(&self) -> Iter<'_, Key, V>
        ensures rest { result ≡ self.now }
    {
        self.entries.iter()
    }

    /// The same, moved out of the map.
    pub fn into_entries(self) -> IntoIter<Key, V>
        ensures rest { result ≡ self }
    {
        self.entries.into_iter()
    }

    /// How many keys there are, which ascend.
    pub fn len(&self) -> usize
        ensures len { result ≡ length self.now }
        ensures ascending { IsStrictlySortedBy key_cmp (keys_of self.now) }
    {
        comparison_laws();
        self.entries.len()
    }
}
