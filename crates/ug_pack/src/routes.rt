ghost use Rattle.std.specs.Prelude.{◌≡◌, ◌++◌, ℕ, nat_eq, slice_get, IfOk};
ghost use Rattle.std.specs.Option.{option_map};
ghost use Rattle.ug_types.specs.declared.key.Key as keys;
ghost use Rattle.ug_types.specs.Keys.{weight_of};
ghost use Rattle.ug_adjout.specs.Tables.{value_at};
ghost use Rattle.ug_adjout.specs.Pending.{AdjRibOut};
ghost use Rattle.ug_adjout.specs.Formatting.{fitting, withdrawals, announcements, alike, value_of_first};
ghost use Rattle.ug_pack.specs.Ready.{key_order};

use std::alloc::Global;
use ug_adjout::AdjOut;
use ug_intern::AttrId;
use ug_short_key::V4Key;
use ug_types::{Key, KeyList, NoMemory, Sequence};

/// An Adj-RIB-Out of routes, in whatever form it keeps their keys: that of an IPv4 subgroup keeps them in few bytes.
pub trait Routes {
    /// The Adj-RIB-Out by the keys as all see them.
    ghost adj: { Self → AdjRibOut keys.Key ℕ };

    /// The first key that waits for its withdrawal.
    fn first_withdrawal(&self) -> Option<Key>
        ensures { result ≡ slice_get (withdrawals key_order (adj self.now)) 0 };

    /// The first keys that wait for their withdrawal, as many as weigh at most the budget together.
    fn first_withdrawals(&self, alloc: Global, budget: usize) -> Result<KeyList<Key>, NoMemory>
        ensures { IfOk result (λ keys. keys.items ≡ fitting weight_of budget (withdrawals key_order (adj self.now))) };

    /// The first key that waits for its announcement, and the value that it waits for.
    fn first_announcement(&self) -> Option<(Key, AttrId)>
        ensures key { option_map (λ e. e.0) result ≡ slice_get (alike key_order nat_eq (adj self.now)) 0 }
        ensures value { option_map (λ e. e.1) result ≡ value_of_first (value_at key_order (adj self.now).desired) (announcements key_order (adj self.now)) };

    /// The first key that waits for its announcement and those of its value, as many as weigh at most the budget together.
    fn first_alike(&self, alloc: Global, budget: usize) -> Result<KeyList<Key>, NoMemory>
        ensures { IfOk result (λ keys. keys.items ≡ fitting weight_of budget (alike key_order nat_eq (adj self.now))) };
}

impl Routes for AdjOut<Key> {
    ghost adj = { λ a. a };

    fn first_withdrawal(&self) -> Option<Key> {
        AdjOut::first_withdrawal(self)
    }

    fn first_withdrawals(&self, _alloc: Global, budget: usize) -> Result<KeyList<Key>, NoMemory> {
        AdjOut::first_withdrawals(self, budget)
    }

    fn first_announcement(&self) -> Option<(Key, AttrId)> {
        AdjOut::first_announcement(self)
    }

    fn first_alike(&self, _alloc: Global, budget: usize) -> Result<KeyList<Key>, NoMemory> {
        AdjOut::first_alike(self, budget)
    }
}

impl Routes for AdjOut<V4Key> {
    ghost adj = { λ a. a };

    fn first_withdrawal(&self) -> Option<Key> {
        match AdjOut::first_withdrawal(self) {
            Some(key) => Some(key.widen()),
            None => None,
        }
    }

    fn first_withdrawals(&self, alloc: Global, budget: usize) -> Result<KeyList<Key>, NoMemory> {
        let keys = AdjOut::first_withdrawals(self, budget)?;
        widened(alloc, keys.as_slice())
    }

    fn first_announcement(&self) -> Option<(Key, AttrId)> {
        match AdjOut::first_announcement(self) {
            Some((key, id)) => Some((key.widen(), id)),
            None => None,
        }
    }

    fn first_alike(&self, alloc: Global, budget: usize) -> Result<KeyList<Key>, NoMemory> {
        let keys = AdjOut::first_alike(self, budget)?;
        widened(alloc, keys.as_slice())
    }
}

/// The same keys as all see them.
fn widened(alloc: Global, keys: &[V4Key]) -> Result<KeyList<Key>, NoMemory>
    ensures { IfOk result (λ wide. wide.items ≡ keys.now) }
{
    let mut wide = Sequence::new(alloc);
    wide.reserve(keys.len())?;
    for key in keys {
        let Ok(()) = wide.push(key.widen()) else {
            return Err(NoMemory);
        };
    }
    Ok(wide)
}
