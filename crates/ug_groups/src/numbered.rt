//! The subgroups by number.

ghost use Rattle.std.specs.Prelude.{◌≡◌, ℕ, ◌<◌, ◌≤◌, ◌&&◌, not, ◌==◌, true, false, [], length, map, Some, None, is_some, IsSome, IfSome, IfNone, IfOk, OnOk, OnErr};
ghost use Rattle.std.specs.Map.{keys_of};
ghost use Rattle.std.specs.Option.{option_map};
ghost use Rattle.ug_board.specs.Rules.{buffer_size};
ghost use Rattle.ug_message.specs.Spellable.{is_address};
ghost use Rattle.ug_pack.specs.Ready.{IsKeyOf};
ghost use Rattle.ug_queue.specs.Queues.{place_of, rest_of, IsMember, shed, past_next};
ghost use Rattle.ug_group_rules.specs.Machine.{first_joinable, asked, owes, unstuck};
ghost use Rattle.ug_group_rules.specs.Evaluations.{has_key};
ghost use Rattle.ug_groups.specs.Standings.{IsFit, desiring};
ghost use Rattle.ug_groups.specs.Sent.{session_of};
ghost use Rattle.ug_groups.specs.Subgroups.{IsHanded, StandTogether};
ghost use Rattle.ug_groups.specs.Entries.{IsKept};
ghost use Rattle.ug_groups.specs.Rows.{Row, Rows, row_at, any_at, HasRow, Sits, subs_of, keys_in, with_sub, with_queue, with_row, without_row, with_next, each_row, of_key, empty_row, joined_row, left_row, formatted_row, rekeyed_row, tabled_row, rest_row, part_row, absorbing_row, counted_row, may_format_row, may_merge_rows, must_part_row, some_row, has_packets, some_merge, IsRow};

use crate::classes::place_of_key;
use crate::entry::Entry;
use crate::handed::Handed;
use crate::{classes, comings, desires, known, members, points, scans, states, sweeps, tables};
use std::alloc::Global;
use std::marker::Model;
use ug_intern::Pool;
use ug_outbound::GroupKey;
use ug_queue::Live;
use ug_types::{Key, NoMemory, NumberList, OutAttrs, PeerEnds, PeerId, PeerList};

/// The subgroups by number, none where one is gone, and the pool of what their tables hold. Each has a class beside it, so that
/// keys are compared only where one comes or changes.
#[derive(Drop)]
pub struct Subgroups {
    live: Live<Entry>,
    pool: Pool<OutAttrs>,
    /// The next class.
    classes: u64,
    alloc: Global,
}

impl Model for Subgroups {
    ghost use Rattle.std.specs.Prelude.{None};
    ghost use Rattle.ug_groups.specs.Rows.{Rows};
    ghost use Rattle.ug_groups.specs.Entries.{rows_in, IsKept};

    ghost Value = { Rows };

    ghost view = { λ s. rows_in s.pool s.live };

    ghost invariant = { λ s. IsKept s.classes None s.pool s.live };
}

/// Without subgroups, where nothing is known of them any more.
fn clear(live: &mut Live<Entry>, pool: &mut Pool<OutAttrs>, alloc: Global)
    ensures { (next : ℕ) → IsKept next None pool.new live.new }
{
    *live = Live::new(alloc);
    *pool = Pool::new(alloc);
}

impl Subgroups {
    /// None. It takes no memory.
    pub fn new(alloc: Global) -> Subgroups
        ensures { result ≡ [] }
    {
        Subgroups {
            live: Live::new(alloc),
            pool: Pool::new(alloc),
            classes: 0,
            alloc,
        }
    }

    /// How many numbers subgroups have had: the next number.
    pub fn next_number(&self) -> u32
        ensures { result ≡ length self.now }
    {
        self.live.next()
    }

    /// What is so of each.
    pub fn know_rows(&self)
        ensures { (g : ℕ) (r : Row) → row_at g self.now ≡ Some r → IsRow r }
    {
        known::know_entries(self.live.entries(), &self.pool);
    }

    // ---- that come and go

    /// One more, of which nothing was formatted and nothing is desired, without members. Its number is answered.
    /// Running out of memory, and of numbers, changes nothing.
    pub fn add(&mut self, key: GroupKey, limit: usize) -> Result<u32, NoMemory>
        ensures number { IfOk result (λ g. g ≡ length self.old) }
        ensures rows { OnOk result (self.new ≡ with_next (empty_row key limit) self.old) }
        ensures err { OnErr result (self.new ≡ self.old) }
    {
        if self.classes == u64::MAX {
            return Err(NoMemory);
        }
        let g = comings::add(&mut self.live, self.classes, self.alloc, key, limit)?;
        self.classes += 1;
        Ok(g)
    }

    /// It ends. It takes no memory.
    pub fn retire(&mut self, g: u32)
        requires { IsSome (row_at g self.old) }
        ensures { self.new ≡ without_row g self.old }
    {
        comings::retire(&mut self.live, &mut self.pool, g);
    }

    /// Members that stand at one point of the queue leave it together, for a subgroup of their own, whose number is answered:
    /// with the tables, the flags and the packets that they have still to take, and as one whose queue was never full.
    pub fn split(&mut self, g: u32, members: &PeerList) -> Result<u32, NoMemory>
        requires { HasRow g self.old (λ r. StandTogether r.queue members.now.items) }
        ensures number { IfOk result (λ n. n ≡ length self.old) }
        ensures rows { OnOk result ((r : Row) → row_at g self.old ≡ Some r → self.new ≡ with_next (part_row members.now.items r) (with_row g (rest_row members.now.items) self.old)) }
    {
        comings::split(&mut self.live, &mut self.pool, g, members)
    }

    /// The members of the second move to the end of the first one's queue, and the second ends.
    pub fn merge(&mut self, g: u32, h: u32) -> Result<(), NoMemory>
        requires other { (g == h) ≡ false }
        requires there { IsSome (row_at g self.old) }
        requires apart { HasRow h self.old (λ s. (m : ℕ) → IsMember s.queue m → (r : Row) → row_at g self.old ≡ Some r → place_of r.queue m ≡ None) }
        ensures rows { OnOk result ((s : Row) → row_at h self.old ≡ Some s → self.new ≡ without_row h (with_row g (absorbing_row s) self.old)) }
    {
        comings::merge(&mut self.live, &mut self.pool, g, h)
    }

    // ---- members

    /// Takes a member in, whose cursor is at the end. Running out of memory changes nothing.
    pub fn join(&mut self, g: u32, member: PeerId) -> Result<(), NoMemory>
        requires { HasRow g self.old (λ r. place_of r.queue member ≡ None) }
        ensures ok { OnOk result (self.new ≡ with_row g (joined_row member) self.old) }
        ensures err { OnErr result (self.new ≡ self.old) }
    {
        members::join(&mut self.live, g, member)
    }

    /// A member goes: what it hasn't taken isn't sent. It takes no memory.
    pub fn leave(&mut self, g: u32, member: PeerId)
        requires { Sits member g self.old }
        ensures { self.new ≡ with_row g (left_row member) self.old }
    {
        members::leave(&mut self.live, g, member);
    }

    /// The member takes its next packet: the text that it is sent, with a next hop of its own, at the front of the buffer;
    /// None exactly where its cursor is at the end. It takes no memory.
    pub fn take(
        &mut self,
        g: u32,
        member: PeerId,
        ends: &PeerEnds,
        buf: &mut [u8],
    ) -> Option<Handed>
        requires member { Sits member g self.old }
        requires own { HasRow g self.old (λ r. is_address r.sub.key.family ends.now.local ≡ true) }
        requires room { buffer_size ≤ length buf.old }
        ensures none { IfNone result ((r : Row) → row_at g self.old ≡ Some r → rest_of r.queue member ≡ []) }
        ensures same { IfNone result (self.new ≡ self.old) }
        ensures some { IfSome result (λ h. (r : Row) → row_at g self.old ≡ Some r → IsHanded r.sub.key ends.now (rest_of r.queue member) buf.new h) }
        ensures rows { IfSome result (λ _. self.new ≡ with_row g (with_queue (λ q. shed (past_next q member))) self.old) }
    {
        members::take(&mut self.live, g, member, ends, buf)
    }

    // ---- one of them

    /// Formats one packet, for each member to take.
    pub fn format(&mut self, g: u32, made: u64) -> Result<(), NoMemory>
        requires room { HasRow g self.old (λ r. length r.queue.packets < r.queue.limit) }
        requires members { HasRow g self.old (λ r. 0 < length r.queue.places) }
        requires fit { HasRow g self.old (λ r. IsFit r.sub) }
        ensures { OnOk result (self.new ≡ with_row g (formatted_row made) self.old) }
    {
        let Ok(()) = points::format(&mut self.live, &mut self.pool, g, made) else {
            clear(&mut self.live, &mut self.pool, self.alloc);
            return Err(NoMemory);
        };
        Ok(())
    }

    /// All routes are to be told again: between marks, or at once.
    pub fn refresh(&mut self, g: u32) -> Result<(), NoMemory>
        requires { IsSome (row_at g self.old) }
        ensures { OnOk result (self.new ≡ with_row g (with_sub asked) self.old) }
    {
        let Ok(()) = points::refresh(&mut self.live, &self.pool, g) else {
            clear(&mut self.live, &mut self.pool, self.alloc);
            return Err(NoMemory);
        };
        Ok(())
    }

    /// It has another key, whose sessions are the same. What peers of that key should have is told by other calls.
    /// Running out of memory changes nothing.
    pub fn rekey(&mut self, g: u32, key: GroupKey) -> Result<(), NoMemory>
        requires { HasRow g self.old (λ r. session_of key ≡ session_of r.sub.key) }
        ensures rows { OnOk result (self.new ≡ with_row g (rekeyed_row key) self.old) }
        ensures err { OnErr result (self.new ≡ self.old) }
    {
        if self.classes == u64::MAX {
            return Err(NoMemory);
        }
        comings::rekey(&mut self.live, self.classes, g, key);
        self.classes += 1;
        Ok(())
    }

    /// Its queue was never full with keys pending.
    pub fn unstick(&mut self, g: u32)
        requires { IsSome (row_at g self.old) }
        ensures { self.new ≡ with_row g (with_sub unstuck) self.old }
    {
        points::unstick(&mut self.live, g);
    }

    /// A key is desired with this value from now on, or no more, by this one alone.
    pub fn desire_alone(
        &mut self,
        g: u32,
        key: &Key,
        value: Option<OutAttrs>,
    ) -> Result<(), NoMemory>
        requires { HasRow g self.old (λ r. IsKeyOf r.sub.key.family r.sub.key.add_path key.now) }
        ensures { OnOk result (self.new ≡ with_row g (with_sub (desiring key.now value)) self.old) }
    {
        desires::desire_alone(&mut self.live, &mut self.pool, g, key, value)
    }

    /// It desires what another one desires, and nothing else, of the same sessions.
    pub fn desire_as(&mut self, g: u32, from: u32) -> Result<(), NoMemory>
        requires { HasRow g self.old (λ r. HasRow from self.old (λ s. session_of s.sub.key ≡ session_of r.sub.key)) }
        ensures { OnOk result ((s : Row) → row_at from self.old ≡ Some s → self.new ≡ with_row g (tabled_row s) self.old) }
    {
        tables::desire_as(&mut self.live, &mut self.pool, g, from)
    }

    // ---- all of them, and those of one key

    /// A key is desired with this value from now on, or no more, by all that have the key of this one. The attributes are held
    /// once for all of them.
    pub fn desire(&mut self, g: u32, key: &Key, value: Option<OutAttrs>) -> Result<(), NoMemory>
        requires { HasRow g self.old (λ r. IsKeyOf r.sub.key.family r.sub.key.add_path key.now) }
        ensures { OnOk result ((r : Row) → row_at g self.old ≡ Some r → self.new ≡ each_row (of_key r.sub.key (desiring key.now value)) self.old) }
    {
        desires::desire_class(&mut self.live, &mut self.pool, g, key, value)
    }

    /// Another event has passed.
    pub fn count(&mut self) -> Result<(), NoMemory>
        ensures { OnOk result (self.new ≡ each_row counted_row self.old) }
    {
        sweeps::count_all(&mut self.live)
    }

    /// The first of each key, in order of number.
    pub fn groups(&self) -> Result<NumberList, NoMemory>
        ensures keys { IfOk result (λ gs. map (λ g. option_map (λ r. r.sub.key) (row_at g self.now)) gs.items ≡ map Some (keys_in self.now)) }
    {
        classes::first_of_each(self.live.entries(), self.alloc)
    }

    // ---- what they are

    /// The key of one.
    pub fn key(&self, g: u32) -> &GroupKey
        requires { IsSome (row_at g self.now) }
        ensures { option_map (λ r. r.sub.key) (row_at g self.now) ≡ Some result.now }
    {
        self.live.at(g).subgroup.key()
    }

    /// One of that key, if there is one.
    pub fn of_key(&self, key: &GroupKey) -> Option<u32>
        ensures there { IfSome result (λ g. HasRow g self.now (λ r. r.sub.key ≡ key.now)) }
        ensures none { IfNone result (has_key (keys_in self.now) key.now ≡ false) }
        ensures some { IfSome result (λ _. has_key (keys_in self.now) key.now ≡ true) }
    {
        let entries = self.live.entries();
        scans::number_of(entries, place_of_key(entries, key))
    }

    /// The first that a session of this key that starts may share.
    pub fn first_joinable(&self, key: &GroupKey) -> Option<u32>
        ensures { result ≡ first_joinable key.now 0 (subs_of self.now) }
    {
        let entries = self.live.entries();
        scans::number_of(entries, scans::place_to_join(entries, key))
    }

    /// Whether it is there.
    pub fn is_there(&self, g: u32) -> bool
        ensures { result ≡ is_some (row_at g self.now) }
    {
        self.live.get(g).is_some()
    }

    /// The number of members.
    pub fn member_count(&self, g: u32) -> usize
        requires { IsSome (row_at g self.now) }
        ensures { option_map (λ r. length r.queue.places) (row_at g self.now) ≡ Some result }
    {
        self.live.at(g).subgroup.member_count()
    }

    /// Its members, by rising number.
    pub fn members(&self, g: u32) -> Result<PeerList, NoMemory>
        requires { IsSome (row_at g self.now) }
        ensures { IfOk result (λ ms. option_map (λ r. keys_of r.queue.places) (row_at g self.now) ≡ Some ms.items) }
    {
        self.live.at(g).subgroup.members()
    }

    /// Whether the member's cursor is at the queue's front.
    pub fn at_front(&self, g: u32, member: PeerId) -> bool
        requires { Sits member g self.now }
        ensures front { (r : Row) → row_at g self.now ≡ Some r → result ≡ true → place_of r.queue member ≡ Some 0 }
        ensures behind { (r : Row) → row_at g self.now ≡ Some r → result ≡ false → (place_of r.queue member ≡ Some 0 → ⊥) }
    {
        self.live.at(g).subgroup.at_front(member)
    }

    /// How many packets the member has still to take.
    pub fn left(&self, g: u32, member: PeerId) -> usize
        requires { Sits member g self.now }
        ensures { option_map (λ r. length (rest_of r.queue member)) (row_at g self.now) ≡ Some result }
    {
        self.live.at(g).subgroup.left(member)
    }

    // ---- what may be done

    /// Whether it is there, a packet is owed, and its queue isn't full.
    pub fn may_format(&self, g: u32) -> bool
        ensures { result ≡ any_at may_format_row (row_at g self.now) }
    {
        match self.live.get(g) {
            Some(entry) => states::may_format(entry),
            None => false,
        }
    }

    /// Whether both are there, and the members of the second may move to the end of the first one's queue.
    pub fn may_merge(&self, g: u32, h: u32) -> bool
        ensures { result ≡ (not (g == h) && any_at (λ r. any_at (λ s. may_merge_rows r s) (row_at h self.now)) (row_at g self.now)) }
    {
        let (Some(entry), Some(other)) = (self.live.get(g), self.live.get(h)) else {
            return false;
        };
        g != h && states::may_merge(entry, other)
    }

    /// Whether it is there, and those at the front of its queue have to leave it: it was full through so many events.
    pub fn must_part(&self, g: u32, after: u64) -> bool
        ensures { result ≡ any_at (must_part_row after) (row_at g self.now) }
    {
        match self.live.get(g) {
            Some(entry) => states::must_part(entry, after),
            None => false,
        }
    }

    /// The first that owes a packet and isn't full.
    pub fn first_to_format(&self) -> Option<u32>
        ensures some { IfSome result (λ g. any_at may_format_row (row_at g self.now) ≡ true) }
        ensures none { IfNone result (some_row may_format_row self.now ≡ false) }
    {
        let entries = self.live.entries();
        scans::number_of(entries, scans::place_to_format(entries))
    }

    /// The first two that may merge.
    pub fn first_to_merge(&self) -> Option<(u32, u32)>
        ensures some { IfSome result (λ p. (not (p.0 == p.1) && any_at (λ r. any_at (λ s. may_merge_rows r s) (row_at p.1 self.now)) (row_at p.0 self.now)) ≡ true) }
        ensures none { IfNone result (some_merge self.now ≡ false) }
    {
        let entries = self.live.entries();
        let Some(i) = scans::place_to_merge(entries) else {
            return None;
        };
        let entry = &entries[i];
        let Some(j) = scans::place_of_partner(entries, entry) else {
            unreachable!()
        };
        let partner = &entries[j];
        Some((entry.0, partner.0))
    }

    /// The first from which members have to part.
    pub fn first_to_part(&self, after: u64) -> Option<u32>
        ensures some { IfSome result (λ g. any_at (must_part_row after) (row_at g self.now) ≡ true) }
        ensures none { IfNone result (some_row (must_part_row after) self.now ≡ false) }
    {
        let entries = self.live.entries();
        scans::number_of(entries, scans::place_to_part(entries, after))
    }

    /// Whether one of them owes a packet.
    pub fn some_owes(&self) -> bool
        ensures { result ≡ some_row (λ r. owes r.sub) self.now }
    {
        scans::place_that_owes(self.live.entries()).is_some()
    }

    /// Whether one of their queues holds a packet.
    pub fn some_have_packets(&self) -> bool
        ensures { result ≡ some_row has_packets self.now }
    {
        scans::place_with_packets(self.live.entries()).is_some()
    }
}
