ghost use Rattle.std.specs.Prelude.{◌≡◌, ◌+◌, ◌-◌, ◌<◌, ◌^◌, ℕ, true, false, Some, None, IsSome, IfSome, IfNone, IfOk, OnErr, ◌↔◌};
ghost use Rattle.ug_intern.specs.Pools.{Held, held, uses_of, value_of, raised, lowered, IsChangedAt, IsOneId, IsNew, IsSame};

use crate::seat::Seat;
use indexmap::IndexMap;
use slab::Slab;
use std::alloc::Global;
use std::hash::Hash;
use std::marker::Model;
use ug_types::NoMemory;

/// The number by which a value of a pool is shared. Numbers order by themselves, so a map may have them in its keys.
pub type AttrId = u32;

/// A pool of values. Contracts see for each live id its value and how many hold it.
///
/// Equal live values have one id, and the value of an id never changes while it lives. A value is found by its hash, and
/// compared with those of the same hash alone.
#[derive(Drop)]
pub struct Pool<T: Eq + Hash> {
    seats: Slab<Seat>,
    values: IndexMap<T, AttrId>,
}

impl<T: Eq + Hash> Model for Pool<T> {
    ghost use Rattle.ug_intern.specs.Pools.{Pooled};

    ghost Value = { Pooled T };

    ghost use Rattle.ug_intern.specs.Kept.{pooled, IsKept};

    ghost view = { λ p. pooled p.seats.slots p.values.entries };

    ghost invariant = { λ p. IsKept T.eq p.seats.slots p.values.entries };
}

impl<T: Eq + Hash> Pool<T> {
    /// The pool without values. It takes no memory.
    pub fn new(alloc: Global) -> Pool<T>
        ensures empty { (id : ℕ) → held result id ≡ None }
        ensures one_id { IsOneId T.eq result }
    {
        Pool {
            seats: Slab::new(alloc),
            values: IndexMap::new(alloc),
        }
    }

    /// How many hold the id: 0 exactly where it isn't live.
    pub fn uses(&self, id: AttrId) -> u128
        ensures uses { result ≡ uses_of (held self.now id) }
        ensures live { (result ≡ 0) ↔ (held self.now id ≡ None) }
        ensures one_id { IsOneId T.eq self.now }
    {
        match self.seats.get(id as usize) {
            Some(seat) => seat.uses,
            None => 0,
        }
    }

    /// The value of a live id.
    pub fn get(&self, id: AttrId) -> &T
        requires { IsSome (held self.now id) }
        ensures { value_of (held self.now id) ≡ Some result.now }
    {
        let Some(seat) = self.seats.get(id as usize) else {
            unreachable!()
        };
        let Some((value, _)) = self.values.get_index(seat.place) else {
            unreachable!()
        };
        value
    }

    /// A live id is held once more.
    pub fn share(&mut self, id: AttrId)
        requires live { IsSome (held self.old id) }
        requires room { uses_of (held self.old id) + 1 < 2 ^ 128 }
        ensures { IsChangedAt self.old self.new id (raised (held self.old id)) }
    {
        let Some(seat) = self.seats.get_mut(id as usize) else {
            unreachable!()
        };
        seat.uses += 1;
    }
}

impl<T: Eq + Hash + Drop> Pool<T> {
    /// The id of the value, held once more: that of an equal live value, or a new one. A value that is live takes no memory.
    pub fn hold(&mut self, value: T) -> Result<AttrId, NoMemory>
        requires { (id : ℕ) (x : Held T) → held self.old id ≡ Some x → T.eq value x.value ≡ true → x.uses + 1 < 2 ^ 128 }
        ensures known { IfOk result (λ id. IfSome (held self.old id) (λ x. (T.eq value x.value ≡ true) × IsChangedAt self.old self.new id (raised (Some x)))) }
        ensures fresh { IfOk result (λ id. IfNone (held self.old id) (IsNew T.eq self.old value × IsChangedAt self.old self.new id (Some (record { value = value; uses = 1 })))) }
        ensures err { OnErr result (IsNew T.eq self.old value × IsSame self.old self.new) }
        ensures one_id { IsOneId T.eq self.new }
    {
        let result = self.find_or_add(value);
        let _seats = &self.seats;
        result
    }

    fn find_or_add(&mut self, value: T) -> Result<AttrId, NoMemory>
        requires { (id : ℕ) (x : Held T) → held self.old id ≡ Some x → T.eq value x.value ≡ true → x.uses + 1 < 2 ^ 128 }
        ensures known { IfOk result (λ id. IfSome (held self.old id) (λ x. (T.eq value x.value ≡ true) × IsChangedAt self.old self.new id (raised (Some x)))) }
        ensures fresh { IfOk result (λ id. IfNone (held self.old id) (IsNew T.eq self.old value × IsChangedAt self.old self.new id (Some (record { value = value; uses = 1 })))) }
        ensures err { OnErr result (IsNew T.eq self.old value × IsSame self.old self.new) }
    {
        match self.find(&value) {
            Some(id) => {
                self.share(id);
                Ok(id)
            }
            None => self.add(value),
        }
    }

    /// The id of an equal live value.
    fn find(&self, value: &T) -> Option<AttrId>
        ensures known { IfSome result (λ id. (x : Held T) × (held self.now id ≡ Some x) × (T.eq value.now x.value ≡ true)) }
        ensures none { IfNone result (IsNew T.eq self.now value.now) }
    {
        if let Some(id) = self.find_last(value) {
            return Some(id);
        }
        match self.values.get(value) {
            Some(id) => Some(*id),
            None => None,
        }
    }

    /// The id of the last live value of the list, where this one is equal to it: values that come one after another are often
    /// the same, and it needs no hash.
    fn find_last(&self, value: &T) -> Option<AttrId>
        ensures { IfSome result (λ id. (x : Held T) × (held self.now id ≡ Some x) × (T.eq value.now x.value ≡ true)) }
    {
        let Some((last, id)) = self.values.last() else {
            return None;
        };
        if *value == *last { Some(*id) } else { None }
    }

    /// A new id for a value that is equal to no live one. Running out of memory, or of ids, changes nothing.
    fn add(&mut self, value: T) -> Result<AttrId, NoMemory>
        requires { IsNew T.eq self.old value }
        ensures vacant { IfOk result (λ id. held self.old id ≡ None) }
        ensures ok { IfOk result (λ id. IsChangedAt self.old self.new id (Some (record { value = value; uses = 1 }))) }
        ensures err { OnErr result (IsSame self.old self.new) }
    {
        let id = self.seats.vacant_key();
        if id > u32::MAX as usize {
            return Err(NoMemory);
        }
        self.seats.reserve(1)?;
        let place = self.values.len();
        let Ok(_) = self.values.insert(value, id as u32) else {
            return Err(NoMemory);
        };
        self.seats.insert_reserved(Seat { place, uses: 1 });
        Ok(id as u32)
    }

    /// A live id is held once less. Where nobody holds it any more its value goes.
    pub fn drop_one(&mut self, id: AttrId)
        requires { IsSome (held self.old id) }
        ensures { IsChangedAt self.old self.new id (lowered (held self.old id)) }
    {
        if self.uses(id) == 1 {
            self.remove(id);
            return;
        }
        self.release(id);
    }

    /// One holder less, where there are others.
    fn release(&mut self, id: AttrId)
        requires { 1 < uses_of (held self.old id) }
        ensures { IsChangedAt self.old self.new id (lowered (held self.old id)) }
    {
        let Some(seat) = self.seats.get_mut(id as usize) else {
            unreachable!()
        };
        seat.uses -= 1;
    }

    /// The value goes, and the last one of the list takes its place there.
    fn remove(&mut self, id: AttrId)
        requires { IsSome (held self.old id) }
        ensures { IsChangedAt self.old self.new id None }
    {
        let Some(seat) = self.seats.try_remove(id as usize) else {
            unreachable!()
        };
        let place = seat.place;
        self.values.swap_remove_index(place);
        let Some((_, moved)) = self.values.get_index(place) else {
            return;
        };
        let moved = *moved as usize;
        let Some(other) = self.seats.get_mut(moved) else {
            unreachable!()
        };
        other.place = place;
    }
}
