ghost use Rattle.std.specs.Prelude.{◌≡◌, [], Some, None, OnOk, OnErr, IfOk, option_copied, option_map, slice_get};
ghost use Rattle.ug_adjout.specs.Tables.{value_at, with_value, rows_after};
ghost use Rattle.ug_adjout.specs.Stored.{row_lent};

use crate::after::start_of;
use crate::out_key::OutKey;
use std::alloc::Global;
use std::collections::BTreeMap;
use std::marker::Model;
use std::ops::Bound;
use ug_intern::AttrId;
use ug_types::NoMemory;

/// What all subgroups of one policy desire: a value for each key. Contracts see the rows in key order.
#[derive(Drop)]
pub struct Desired<K: OutKey> {
    rows: BTreeMap<K, AttrId>,
}

impl<K: OutKey> Model for Desired<K> {
    ghost use Rattle.std.specs.Prelude.{List, ℕ};

    ghost Value = { List (K × ℕ) };

    ghost view = { λ d. d.rows.entries };
}

impl<K: OutKey> Desired<K> {
    /// The one without rows. It takes no memory.
    pub fn new(alloc: Global) -> Desired<K>
        ensures { result ≡ [] }
    {
        Desired {
            rows: BTreeMap::new(alloc),
        }
    }

    /// The key has this value from now on, or none. What it had before. Running out of memory changes nothing.
    pub fn put(&mut self, key: K, id: Option<AttrId>) -> Result<Option<AttrId>, NoMemory>
        ensures was { IfOk result (λ was. was ≡ value_at K.cmp self.old key) }
        ensures ok { OnOk result (self.new ≡ with_value K.cmp self.old key id) }
        ensures err { OnErr result (self.new ≡ self.old) }
    {
        match id {
            Some(id) => Ok(self.rows.insert(key, id)?),
            None => Ok(self.rows.remove(&key)),
        }
    }

    /// The key's value; None exactly where it has none.
    pub fn get(&self, key: &K) -> Option<AttrId>
        ensures { result ≡ value_at K.cmp self.now key.now }
    {
        match self.rows.get(key) {
            Some(id) => Some(*id),
            None => None,
        }
    }

    /// The least row above the key, or the first one; None exactly where there is none.
    pub fn row_after(&self, key: Option<&K>) -> Option<(&K, AttrId)>
        ensures { option_map row_lent result ≡ slice_get (rows_after K.cmp (option_copied key.entry) self.now) 0 }
    {
        match self.rows.range((start_of(key), Bound::Unbounded)).next() {
            Some((key, id)) => Some((key, *id)),
            None => None,
        }
    }
}
