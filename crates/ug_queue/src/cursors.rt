//! Where the members' cursors are kept, and how one of them is found.
ghost use Rattle.std.specs.Prelude.{◌≡◌, ◌+◌, ◌<◌, ◌≤◌, ◌%◌, ◌^◌, [], ℕ, length, slice_get, OnOk, OnErr, None, Some, is_some, IsSome};
ghost use Rattle.std.specs.Map.{keys_of, lookup, remove_entry};
ghost use Rattle.std.specs.BTreeMap.{insert_entry};
ghost use Rattle.std.specs.List.Sorted.{IsStrictlySortedBy};
ghost use Rattle.std.specs.Ordering.{nat_cmp};
ghost use Rattle.ug_queue.specs.Cursors.{lower_count};
ghost use Rattle.ug_queue.specs.Queues.{is_member};

use std::alloc::Global;
use std::marker::Model;
use ug_types::{NoMemory, PeerId};

/// Each member with its cursor, by rising number. Members come and go seldom, and are looked up for each packet: so they stand
/// in one piece of memory, where a search halves them, and who comes or goes moves those behind it.
#[derive(Drop)]
pub struct Cursors {
    entries: Vec<(PeerId, u64)>,
}

impl Model for Cursors {
    ghost use Rattle.std.specs.Prelude.{ℕ, List};
    ghost use Rattle.std.specs.Map.{keys_of};
    ghost use Rattle.std.specs.List.Sorted.{IsStrictlySortedBy};
    ghost use Rattle.std.specs.Ordering.{nat_cmp};

    ghost Value = { List (ℕ × ℕ) };

    ghost view = { λ c. c.entries.items };

    ghost invariant = { λ c. IsStrictlySortedBy nat_cmp (keys_of c.entries.items) };
}

/// How many entries stand before the place of the member.
#[inline]
fn place(entries: &[(PeerId, u64)], member: PeerId) -> usize
    requires { IsStrictlySortedBy nat_cmp (keys_of entries.now) }
    ensures place { result ≡ lower_count entries.now member }
    ensures bound { result ≤ length entries.now }
{
    entries.partition_point(|e| e.0 < member)
}

impl Cursors {
    /// No member. It takes no memory.
    pub fn new(alloc: Global) -> Cursors
        ensures { result ≡ [] }
    {
        Cursors {
            entries: Vec::new(alloc),
        }
    }

    /// The number of members.
    #[inline]
    pub fn len(&self) -> usize
        ensures len { result ≡ length self.now }
        ensures small { result < 2 ^ 63 }
        ensures ordered { IsStrictlySortedBy nat_cmp (keys_of self.now) }
    {
        self.entries.len()
    }

    /// The members with their cursors, by rising number.
    #[inline]
    pub fn entries(&self) -> &[(PeerId, u64)]
        ensures { result.now ≡ self.now }
    {
        &self.entries
    }

    /// Whether this is a member.
    #[inline]
    pub fn has(&self, member: PeerId) -> bool
        ensures { result ≡ is_some (lookup (is_member member) self.now) }
    {
        let i = place(&self.entries, member);
        if i >= self.entries.len() {
            return false;
        }
        self.entries[i].0 == member
    }

    /// The index of the member's entry, and its cursor: one search finds both.
    #[inline]
    pub fn find(&self, member: PeerId) -> (usize, u64)
        requires { IsSome (lookup (is_member member) self.now) }
        ensures { slice_get self.now result.0 ≡ Some (member, result.1) }
    {
        let i = place(&self.entries, member);
        (i, self.entries[i].1)
    }

    /// The cursor at the index goes on by one, round the end of 64 bits. Nothing is searched.
    #[inline]
    pub fn go_on(&mut self, index: usize)
        requires { index < length self.old }
        ensures entries { (e : ℕ × ℕ) → slice_get self.old index ≡ Some e → self.new ≡ insert_entry nat_cmp self.old e.0 ((e.1 + 1) % 2 ^ 64) }
        ensures ordered { IsStrictlySortedBy nat_cmp (keys_of self.new) }
    {
        let entry = &mut self.entries[index];
        entry.1 = entry.1.wrapping_add(1);
    }

    /// Takes a member in. Running out of memory changes nothing.
    pub fn insert(&mut self, member: PeerId, cursor: u64) -> Result<(), NoMemory>
        requires { lookup (is_member member) self.old ≡ None }
        ensures entries { OnOk result (self.new ≡ insert_entry nat_cmp self.old member cursor) }
        ensures ordered { IsStrictlySortedBy nat_cmp (keys_of self.new) }
        ensures err { OnErr result (self.new ≡ self.old) }
    {
        let i = place(&self.entries, member);
        self.entries.insert(i, (member, cursor))?;
        Ok(())
    }

    /// Lets a member go.
    pub fn remove(&mut self, member: PeerId)
        requires { IsSome (lookup (is_member member) self.old) }
        ensures entries { self.new ≡ remove_entry (is_member member) self.old }
        ensures ordered { IsStrictlySortedBy nat_cmp (keys_of self.new) }
    {
        let i = place(&self.entries, member);
        let _entry = self.entries.remove(i);
    }
}
