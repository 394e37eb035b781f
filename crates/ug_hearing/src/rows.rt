//! The rows of the keys that a session named.

ghost use Rattle.std.specs.Prelude.{◌≡◌, true, [], ◌++◌, length, replicate, None, Some, IfOk, OnOk, OnErr, is_some, option_copied, if◌then◌else◌};
ghost use Rattle.std.specs.List.Sorted.{IsStrictlySortedBy};
ghost use Rattle.std.specs.Map.{keys_of};
ghost use Rattle.ug_types.specs.declared.key.Key as routes;
ghost use Rattle.ug_types.specs.Keys.{same_key};
ghost use Rattle.ug_types.specs.Orders.{key_cmp};
ghost use Rattle.ug_message.specs.Tables.{among};
ghost use Rattle.ug_hearing.specs.Keyed.{value_for};

use crate::key_lists::KeyLists;
use crate::key_map::KeyMap;
use crate::naming::set_of;
use crate::placing::place_among;
use crate::row::Row;
use std::alloc::Global;
use std::marker::Model;
use ug_types::{Key, NoMemory, Shared};

/// A row for each of some keys. Most of them are known before, and have a place for their row each; whatever else is named is
/// kept beside them. Contracts see keys, each with its row. A key is looked for near a place, on which no answer depends.
#[derive(Drop)]
pub struct Rows {
    keys: Shared<Vec<Key>>,
    known: Vec<Option<Row>>,
    others: KeyMap<Row>,
}

impl Model for Rows {
    ghost use Rattle.std.specs.Prelude.{List, length, ◌≡◌, ◌++◌};
    ghost use Rattle.std.specs.List.Sorted.{IsStrictlySortedBy};
    ghost use Rattle.ug_types.specs.declared.key.Key.{Key};
    ghost use Rattle.ug_types.specs.Orders.{key_cmp};
    ghost use Rattle.ug_hearing.specs.declared.row.Row.{Row};
    ghost use Rattle.ug_hearing.specs.Keyed.{held_of, HasNoneOf};

    ghost Value = { List (Key × Row) };

    ghost view = { λ r. held_of r.keys.items r.known.items ++ r.others };

    ghost invariant = { λ r. IsStrictlySortedBy key_cmp r.keys.items × (length r.known.items ≡ length r.keys.items) × HasNoneOf r.keys.items r.others };
}

impl Rows {
    /// No rows. Those of the keys that have lists have a place each.
    pub fn new<T: Drop>(alloc: Global, lists: &KeyLists<T>) -> Result<Rows, NoMemory>
        ensures { IfOk result (λ rows. rows ≡ []) }
    {
        let keys = lists.keys().share()?;
        let known = no_rows(alloc, keys.get().len())?;
        Ok(Rows {
            keys,
            known,
            others: KeyMap::new(alloc),
        })
    }

    /// The row of a key; None exactly where it has none.
    pub fn get(&self, near: usize, key: &Key) -> Option<&Row>
        ensures { option_copied result ≡ value_for self.now key.now }
    {
        match place_among(self.keys.get(), near, key) {
            Some(place) => self.known[place].as_ref(),
            None => self.others.get(key),
        }
    }

    /// Gives the key this row. After running out of memory all is as before.
    pub fn put(&mut self, near: usize, key: Key, row: Row) -> Result<(), NoMemory>
        ensures ok { OnOk result ((q : routes.Key) → value_for self.new q ≡ (if same_key key q then Some row else value_for self.old q)) }
        ensures err { OnErr result (self.new ≡ self.old) }
    {
        match place_among(self.keys.get(), near, &key) {
            Some(place) => {
                self.known[place] = Some(row);
                Ok(())
            }
            None => self.others.put(key, row),
        }
    }

    /// Keys that ascend, and among which are all that have a row. They take no memory where none has one but those that were
    /// known before.
    pub fn keys(&self, alloc: Global) -> Result<Shared<Vec<Key>>, NoMemory>
        ensures named { IfOk result (λ keys. (q : routes.Key) → is_some (value_for self.now q) ≡ true → among keys.items q ≡ true) }
        ensures ascending { IfOk result (λ keys. IsStrictlySortedBy key_cmp keys.items) }
    {
        if self.others.len() == 0 {
            return self.keys.share();
        }
        let keys = with_others(alloc, self.keys.get(), &self.others)?;
        Shared::new(alloc, keys)
    }
}

/// So many places without a row.
fn no_rows(alloc: Global, count: usize) -> Result<Vec<Option<Row>>, NoMemory>
    ensures { IfOk result (λ rows. rows.items ≡ replicate count None) }
{
    let mut rows = Vec::with_capacity(alloc, count)?;
    for _place in 0..count {
        rows.push(None)?;
    }
    Ok(rows)
}

/// Adds the keys of a map, in their order.
fn add_keys<V: Drop>(keys: &mut Vec<Key>, map: &KeyMap<V>) -> Result<(), NoMemory>
    ensures { OnOk result (keys.new.items ≡ keys.old.items ++ keys_of map.now) }
{
    for (key, _value) in map.iter() {
        keys.push(*key)?;
    }
    Ok(())
}

/// The keys and those of a map, each once, in their order.
fn with_others<V: Drop>(
    alloc: Global,
    keys: &[Key],
    others: &KeyMap<V>,
) -> Result<Vec<Key>, NoMemory>
    ensures named { IfOk result (λ all. (q : routes.Key) → among all.items q ≡ among (keys.now ++ keys_of others.now) q) }
    ensures ascending { IfOk result (λ all. IsStrictlySortedBy key_cmp all.items) }
{
    let mut all = Vec::from_slice(alloc, keys)?;
    add_keys(&mut all, others)?;
    in_order(alloc, &all)
}

/// The same keys, each once, in their order.
fn in_order(alloc: Global, keys: &[Key]) -> Result<Vec<Key>, NoMemory>
    ensures named { IfOk result (λ sorted. (q : routes.Key) → among sorted.items q ≡ among keys.now q) }
    ensures ascending { IfOk result (λ sorted. IsStrictlySortedBy key_cmp sorted.items) }
{
    let set = set_of(alloc, keys)?;
    let mut sorted = Vec::with_capacity(alloc, set.len())?;
    add_keys(&mut sorted, &set)?;
    Ok(sorted)
}
