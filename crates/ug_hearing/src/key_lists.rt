//! Lists by key, in the order of the keys.

ghost use Rattle.std.specs.Prelude.{◌≡◌, ◌<◌, length, slice_get, sum_by, Some, IfOk, IfSome, IfNone, None};
ghost use Rattle.std.specs.List.Sorted.{IsStrictlySortedBy};
ghost use Rattle.std.specs.Map.{keys_of};
ghost use Rattle.ug_types.specs.Orders.{key_cmp};
ghost use Rattle.ug_hearing.specs.Keyed.{value_for, list_for, pairs_of, IsPlaceOf};

use crate::list_map::ListMap;
use crate::lists::Lists;
use crate::placing::place_among;
use std::alloc::Global;
use std::marker::Model;
use ug_types::{Key, NoMemory, Shared};

/// A list for each of some keys, which ascend, and which others may share. Contracts see the keys in their order, each with
/// its list. A key is looked for near a place, on which no answer depends.
#[derive(Drop)]
pub struct KeyLists<T> {
    keys: Shared<Vec<Key>>,
    lists: Lists<T>,
}

impl<T> Model for KeyLists<T> {
    ghost use Rattle.std.specs.Prelude.{List, length, ◌≡◌};
    ghost use Rattle.std.specs.List.Sorted.{IsStrictlySortedBy};
    ghost use Rattle.ug_types.specs.declared.key.Key.{Key};
    ghost use Rattle.ug_types.specs.Orders.{key_cmp};
    ghost use Rattle.ug_hearing.specs.Keyed.{pairs_of};

    ghost Value = { List (Key × List T) };

    ghost view = { λ l. pairs_of l.keys.items l.lists };

    ghost invariant = { λ l. IsStrictlySortedBy key_cmp l.keys.items × (length l.lists ≡ length l.keys.items) };
}

impl<T: Drop> KeyLists<T> {
    /// These keys, each with the list at its place.
    pub fn over(keys: Shared<Vec<Key>>, lists: Lists<T>) -> KeyLists<T>
        requires sorted { IsStrictlySortedBy key_cmp keys.items }
        requires lengths { length lists ≡ length keys.items }
        ensures { result ≡ pairs_of keys.items lists }
    {
        KeyLists { keys, lists }
    }

    /// What a map has, moved out of it.
    pub fn of_map(alloc: Global, map: ListMap<T>) -> Result<KeyLists<T>, NoMemory>
        ensures { IfOk result (λ lists. lists ≡ map) }
    {
        let count = map.len();
        let mut keys = Vec::with_capacity(alloc, count)?;
        let mut lists = Lists::new(alloc, count, count)?;
        for (key, list) in map.into_entries() {
            let mut items = list;
            keys.push(key)?;
            lists.add(&mut items)?;
        }
        let keys = Shared::new(alloc, keys)?;
        Ok(KeyLists { keys, lists })
    }

    /// The keys, which ascend.
    pub fn keys(&self) -> &Shared<Vec<Key>>
        ensures keys { result.now.items ≡ keys_of self.now }
        ensures ascending { IsStrictlySortedBy key_cmp (keys_of self.now) }
    {
        let _lists = &self.lists;
        &self.keys
    }

    /// How many keys there are, which ascend.
    pub fn len(&self) -> usize
        ensures len { result ≡ length self.now }
        ensures ascending { IsStrictlySortedBy key_cmp (keys_of self.now) }
    {
        self.lists.len()
    }

    /// How many items all lists have together.
    pub fn item_count(&self) -> usize
        ensures { result ≡ sum_by (λ entry. length entry.1) self.now }
    {
        self.lists.item_count()
    }

    /// The key at a place, and its list.
    pub fn at(&self, place: usize) -> (&Key, &[T])
        requires { place < length self.now }
        ensures { slice_get self.now place ≡ Some (result.0.now, result.1.now) }
    {
        let keys = self.keys.get();
        (&keys[place], self.lists.at(place))
    }

    /// The place of a key; None exactly where it has no list.
    pub fn place(&self, near: usize, key: &Key) -> Option<usize>
        ensures found { IfSome result (IsPlaceOf key.now (keys_of self.now)) }
        ensures none { IfNone result (value_for self.now key.now ≡ None) }
    {
        place_among(self.keys.get(), near, key)
    }

    /// The list of a key. It is empty where the key has none.
    pub fn of(&self, near: usize, key: &Key) -> &[T]
        ensures { result.now ≡ list_for self.now key.now }
    {
        match self.place(near, key) {
            Some(place) => self.lists.at(place),
            None => &[],
        }
    }
}
