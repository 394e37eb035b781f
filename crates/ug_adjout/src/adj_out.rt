ghost use Rattle.std.specs.Prelude.{◌≡◌, ◌<◌, ◌≤◌, ◌^◌, ℕ, nat_eq, is_some, true, ◌==◌, length, Some, None, OnOk, OnErr, IfOk, IsOk, IfSome, IfNone, option_copied, slice_get, IsTrue, ◌↔◌};
ghost use Rattle.ug_adjout.specs.Tables.{value_at, has, rows_after};
ghost use Rattle.ug_adjout.specs.Pending.{nothing_out, with_desired, with_all_forced, with_formatted, IsExact};
ghost use Rattle.ug_adjout.specs.Desiring.{AreForcedShown};
ghost use Rattle.ug_adjout.specs.Formatting.{fitting, withdrawals, announcements, alike, value_of_first};
ghost use Rattle.std.specs.Option.{option_map};

use crate::marked::Marked;
use crate::out_key::OutKey;
use crate::table::Table;
use std::alloc::Global;
use std::marker::Model;
use ug_intern::AttrId;
use ug_types::{KeyList, NoMemory};

/// The Adj-RIB-Out of a subgroup. Contracts see what was formatted and what is desired, as rows in key order, the forced
/// keys in key order, and the keys for which a packet is owed in the order in which they wait.
///
/// A key has one row, and only a key that waits has a value beside the one that was formatted.
#[derive(Drop)]
pub struct AdjOut<K: OutKey> {
    table: Table<K>,
    alloc: Global,
}

impl<K: OutKey> Model for AdjOut<K> {
    ghost use Rattle.std.specs.Prelude.{ℕ};
    ghost use Rattle.ug_adjout.specs.Pending.{AdjRibOut};

    ghost Value = { AdjRibOut K ℕ };

    ghost use Rattle.ug_adjout.specs.Stored.{adj_of};

    ghost view = { λ a. adj_of a.table.rows a.table.waiting };
}

impl<K: OutKey> AdjOut<K> {
    /// The one without routes. It takes no memory.
    pub fn new(alloc: Global) -> AdjOut<K>
        ensures { result ≡ nothing_out }
    {
        AdjOut {
            table: Table::new(alloc),
            alloc,
        }
    }

    /// The key is desired with this value from now on. What it was desired with. Running out of memory changes nothing.
    pub fn set(&mut self, key: K, id: AttrId) -> Result<Option<AttrId>, NoMemory>
        ensures was { IfOk result (λ was. was ≡ value_at K.cmp self.old.desired key) }
        ensures ok { OnOk result (self.new ≡ with_desired K.cmp nat_eq self.old key (Some id)) }
        ensures err { OnErr result (self.new ≡ self.old) }
    {
        self.table.want(key, Some(id))
    }

    /// The key is desired no more. What it was desired with. Running out of memory changes nothing.
    pub fn clear(&mut self, key: &K) -> Result<Option<AttrId>, NoMemory>
        ensures was { IfOk result (λ was. was ≡ value_at K.cmp self.old.desired key.now) }
        ensures ok { OnOk result (self.new ≡ with_desired K.cmp nat_eq self.old key.now None) }
        ensures err { OnErr result (self.new ≡ self.old) }
    {
        self.table.want(*key, None)
    }

    /// All keys of both tables are forced. After running out of memory some are.
    pub fn force_all(&mut self) -> Result<(), NoMemory>
        ensures { OnOk result (self.new ≡ with_all_forced K.cmp nat_eq self.old) }
    {
        self.table.force_all(self.alloc)
    }

    /// A key that waits is formatted as it is desired, and forced no more. It takes no memory.
    pub fn mark_formatted(&mut self, key: &K) -> Result<Marked, NoMemory>
        requires { has K.cmp self.old.pending key.now ≡ true }
        ensures succeeds { IsOk result }
        ensures was { IfOk result (λ marked. marked.was ≡ value_at K.cmp self.old.formatted key.now) }
        ensures now { IfOk result (λ marked. marked.now ≡ value_at K.cmp self.old.desired key.now) }
        ensures ok { self.new ≡ with_formatted K.cmp nat_eq self.old key.now }
    {
        let Some(marked) = self.table.mark(*key) else {
            unreachable!()
        };
        Ok(marked)
    }

    /// The same where the key waits; None exactly where it doesn't, and then nothing changes. It takes no memory.
    pub fn mark_if_pending(&mut self, key: &K) -> Option<Marked>
        ensures waits { is_some result ≡ has K.cmp self.old.pending key.now }
        ensures was { IfSome result (λ marked. marked.was ≡ value_at K.cmp self.old.formatted key.now) }
        ensures now { IfSome result (λ marked. marked.now ≡ value_at K.cmp self.old.desired key.now) }
        ensures ok { IfSome result (λ _. self.new ≡ with_formatted K.cmp nat_eq self.old key.now) }
        ensures none { IfNone result (self.new ≡ self.old) }
    {
        self.table.mark(*key)
    }

    /// The first keys that wait for their withdrawal, as many as weigh at most the budget together.
    pub fn first_withdrawals(&self, budget: usize) -> Result<KeyList<K>, NoMemory>
        ensures { IfOk result (λ keys. keys.items ≡ fitting K.bytes budget (withdrawals K.cmp self.now)) }
    {
        self.table.withdrawals(self.alloc, budget)
    }

    /// The first key that waits for its announcement and those of its value, as many as weigh at most the budget together.
    pub fn first_alike(&self, budget: usize) -> Result<KeyList<K>, NoMemory>
        ensures { IfOk result (λ keys. keys.items ≡ fitting K.bytes budget (alike K.cmp nat_eq self.now)) }
    {
        self.table.alike(self.alloc, budget)
    }

    /// The first key that waits for its withdrawal; None exactly where there is none.
    pub fn first_withdrawal(&self) -> Option<K>
        ensures { result ≡ slice_get (withdrawals K.cmp self.now) 0 }
    {
        self.table.first_withdrawal()
    }

    /// The first key that waits for its announcement, and the value that it waits for; None exactly where there is none.
    pub fn first_announcement(&self) -> Option<(K, AttrId)>
        ensures key { option_map (λ e. e.0) result ≡ slice_get (alike K.cmp nat_eq self.now) 0 }
        ensures value { option_map (λ e. e.1) result ≡ value_of_first (value_at K.cmp self.now.desired) (announcements K.cmp self.now) }
    {
        self.table.first_announcement()
    }

    /// What was formatted for the key.
    pub fn formatted(&self, key: &K) -> Option<AttrId>
        ensures { result ≡ value_at K.cmp self.now.formatted key.now }
    {
        self.table.formatted(key)
    }

    /// What the key is desired with.
    pub fn desired(&self, key: &K) -> Option<AttrId>
        ensures { result ≡ value_at K.cmp self.now.desired key.now }
    {
        self.table.desired(key)
    }

    /// Whether a packet is owed for the key.
    pub fn is_pending(&self, key: &K) -> bool
        ensures { result ≡ has K.cmp self.now.pending key.now }
    {
        self.table.is_pending(key)
    }

    /// How many keys wait.
    pub fn pending_len(&self) -> usize
        ensures { result ≡ length self.now.pending }
    {
        self.table.waiting_len()
    }

    /// How many keys are formatted.
    pub fn formatted_len(&self) -> usize
        ensures { result ≡ length self.now.formatted }
    {
        self.table.formatted_len()
    }

    /// It does nothing. What is so of each Adj-RIB-Out: its pending list is exact (`exact`), and each forced key stands in
    /// one of its tables (`shown`).
    pub fn know(&self)
        ensures exact { IsExact K.cmp nat_eq self.now }
        ensures shown { AreForcedShown K.cmp self.now }
    {
        self.table.know()
    }

    /// How many keys have a row: no table has more.
    pub fn row_count(&self) -> usize
        ensures formatted { length self.now.formatted ≤ result }
        ensures desired { length self.now.desired ≤ result }
        ensures small { result < 2 ^ 64 }
    {
        self.table.row_count()
    }

    /// Whether a key is forced.
    pub fn has_forced(&self) -> bool
        ensures { IsTrue result ↔ (0 < length self.now.forced) }
    {
        self.table.has_forced()
    }

    /// The least formatted row above the key, or the first one; None exactly where there is none.
    pub fn formatted_after(&self, key: Option<&K>) -> Option<(K, AttrId)>
        ensures { result ≡ slice_get (rows_after K.cmp (option_copied key.entry) self.now.formatted) 0 }
    {
        self.table.formatted_after(key)
    }

    /// The least desired row above the key, or the first one; None exactly where there is none.
    pub fn desired_after(&self, key: Option<&K>) -> Option<(K, AttrId)>
        ensures { result ≡ slice_get (rows_after K.cmp (option_copied key.entry) self.now.desired) 0 }
    {
        self.table.desired_after(key)
    }

    /// An equal one of its own.
    pub fn copy(&self) -> Result<AdjOut<K>, NoMemory>
        ensures { IfOk result (λ copy. copy ≡ self.now) }
    {
        Ok(AdjOut {
            table: self.table.copy(self.alloc)?,
            alloc: self.alloc,
        })
    }
}
