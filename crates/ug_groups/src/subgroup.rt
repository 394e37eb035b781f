//! A subgroup.

ghost use Rattle.std.specs.Prelude.{◌≡◌, nat_le, not, if◌then◌else◌, ◌==◌, ◌&&◌, ◌+◌, ◌<◌, ◌≤◌, ◌^◌, ◌↔◌, [], true, false, IsTrue, Some, None, length, slice_get, option_copied, ℕ, All, IsSome, IfSome, IfNone, IfOk, IfErr, OnOk, OnErr};
ghost use Rattle.std.specs.Map.{keys_of};
ghost use Rattle.ug_types.specs.declared.route.OutAttrs as values;
ghost use Rattle.ug_types.specs.Bytes.{is_empty};
ghost use Rattle.ug_board.specs.Rules.{buffer_size};
ghost use Rattle.ug_group_rules.specs.Packets.{same_group, same_out};
ghost use Rattle.ug_message.specs.Spellable.{is_address};
ghost use Rattle.ug_adjout.specs.Tables.{value_at, rows_after, IsTable};
ghost use Rattle.ug_adjout.specs.Pending.{IsExact, nothing_out};
ghost use Rattle.ug_intern.specs.Pools.{Pooled, held, uses_of};
ghost use Rattle.ug_pack.specs.Ready.{key_order, IsKeyOf};
ghost use Rattle.std.specs.List.Sorted.{IsStrictlySortedBy};
ghost use Rattle.std.specs.Ordering.{nat_cmp};
ghost use Rattle.ug_queue.specs.Rests.{IsInside};
ghost use Rattle.ug_queue.specs.Queues.{empty_queue, with_packet, with_member, with_members, without_member, without_members, past_next, shed, place_of, rest_of, passed, standing, IsMember, seat_all, AreNew, AreNewcomers, AreMembers};
ghost use Rattle.ug_group_rules.specs.declared.phase.Phase.TheVariants.{Quiet};
ghost use Rattle.ug_group_rules.specs.Machine.{says_next, formatted, asked, owes, is_level, is_pending, is_joinable};
ghost use Rattle.ug_groups.specs.Values.{value_in, valued_by};
ghost use Rattle.ug_groups.specs.Holders.{holds, rows_of, IsCounted, IsMoved, IsUsed, HasRoom};
ghost use Rattle.ug_groups.specs.Standings.{seen, IsFit, AreShown, AreOwn, desiring};
ghost use Rattle.ug_groups.specs.Sent.{session_of};
ghost use Rattle.ug_groups.specs.Subgroups.{IsHanded, StandTogether, part_of};

use crate::handed::Handed;
use crate::packet::Packet;
use crate::point::Point;
use crate::side::Side;
use std::alloc::Global;
use std::marker::Model;
use ug_intern::{AttrId, Pool};
use ug_outbound::GroupKey;
use ug_queue::Queue;
use ug_types::{Key, NoMemory, OutAttrs, PeerEnds, PeerId, PeerList};

/// Peers of one group key that stand at the same point, and their queue of packets.
#[derive(Drop)]
pub struct Subgroup {
    point: Point,
    queue: Queue<Packet>,
}

impl Model for Subgroup {
    ghost use Rattle.ug_groups.specs.Subgroups.{Grouped, said_queue, AreSent};

    ghost Value = { Grouped };

    ghost view = { λ s. record { point = s.point; queue = said_queue s.queue } };

    ghost invariant = { λ s. AreSent s.point.key s.queue };
}

impl Subgroup {
    /// One of which nothing was formatted and nothing is desired, without members. It takes no memory.
    pub fn new(alloc: Global, key: GroupKey, limit: usize) -> Subgroup
        ensures { result ≡ record { point = record { key = key; adj = nothing_out; ending = true; fresh = true; phase = Quiet; stuck = 0 }; queue = empty_queue limit } }
    {
        Subgroup {
            point: Point::new(alloc, key),
            queue: Queue::new(alloc, limit),
        }
    }

    /// Takes a member in, whose cursor is at the end. Running out of memory leaves it as it was.
    pub fn join(&mut self, member: PeerId) -> Result<(), NoMemory>
        requires { place_of self.old.queue member ≡ None }
        ensures ok { OnOk result (self.new ≡ record self.old { queue = with_member self.old.queue member (length self.old.queue.packets) }) }
        ensures err { OnErr result (self.new ≡ self.old) }
    {
        self.queue.join_at_end(member)
    }

    /// Formats one packet, for each member to take.
    pub fn format(&mut self, pool: &mut Pool<OutAttrs>, made: u64) -> Result<(), NoMemory>
        requires room { length self.old.queue.packets < self.old.queue.limit }
        requires members { 0 < length self.old.queue.places }
        requires fit { IsFit (seen pool.old self.old.point) }
        requires counted { IsCounted pool.old self.old.point.adj }
        requires uses { HasRoom (2 ^ 64) pool.old }
        ensures point { OnOk result (seen pool.new self.new.point ≡ formatted (seen pool.old self.old.point)) }
        ensures key { self.new.point.key ≡ self.old.point.key }
        ensures queue { OnOk result (self.new.queue ≡ with_packet self.old.queue (record { made = made; says = says_next (seen pool.old self.old.point) })) }
        ensures moved { OnOk result (IsMoved pool.old pool.new self.old.point.adj self.new.point.adj) }
    {
        let packet = self.point.next_packet(pool, made)?;
        let Ok(()) = self.queue.append(packet) else {
            return Err(NoMemory);
        };
        Ok(())
    }

    /// The member takes its next packet: the text that it is sent, with a next hop of its own, at the front of the buffer;
    /// None exactly where its cursor is at the end. It takes no memory.
    pub fn take(&mut self, member: PeerId, ends: &PeerEnds, buf: &mut [u8]) -> Option<Handed>
        requires member { IsMember self.old.queue member }
        requires own { is_address self.old.point.key.family ends.now.local ≡ true }
        requires room { buffer_size ≤ length buf.old }
        ensures none { IfNone result (rest_of self.old.queue member ≡ []) }
        ensures same { IfNone result (self.new ≡ self.old) }
        ensures some { IfSome result (IsHanded self.old.point.key ends.now (rest_of self.old.queue member) buf.new) }
        ensures queue { IfSome result (λ _. self.new ≡ record self.old { queue = shed (past_next self.old.queue member) }) }
    {
        let stand = self.queue.stand(member);
        let Some(packet) = self.queue.next(stand) else {
            return None;
        };
        let made = packet.made();
        let len = packet.send(ends, buf);
        self.queue.advance(stand);
        Some(Handed { made, len })
    }

    /// A member goes: what it hasn't taken isn't sent. It takes no memory.
    pub fn leave(&mut self, member: PeerId)
        requires { IsMember self.old.queue member }
        ensures { self.new ≡ record self.old { queue = shed (without_member self.old.queue member) } }
    {
        self.queue.leave(member);
    }

    /// A key is desired with what the id stands for from now on, or no more. Running out of memory changes nothing.
    pub fn desire(
        &mut self,
        pool: &mut Pool<OutAttrs>,
        key: &Key,
        id: Option<AttrId>,
    ) -> Result<(), NoMemory>
        requires own { IsKeyOf self.old.point.key.family self.old.point.key.add_path key.now }
        requires used { IsUsed pool.old id }
        requires counted { IsCounted pool.old self.old.point.adj }
        requires room { HasRoom 1 pool.old }
        ensures point { OnOk result (seen pool.new self.new.point ≡ desiring key.now (valued_by pool.old id) (seen pool.old self.old.point)) }
        ensures key { self.new.point.key ≡ self.old.point.key }
        ensures queue { self.new.queue ≡ self.old.queue }
        ensures moved { OnOk result (IsMoved pool.old pool.new self.old.point.adj self.new.point.adj) }
        ensures err { OnErr result (self.new ≡ self.old) }
        ensures pool { OnErr result (pool.new ≡ pool.old) }
    {
        self.point.desire(pool, key, id)
    }

    /// All routes are to be told again: between marks, or at once. Running out of memory leaves it without routes.
    pub fn refresh(&mut self, pool: &Pool<OutAttrs>) -> Result<(), NoMemory>
        requires counted { IsCounted pool.now self.old.point.adj }
        ensures point { OnOk result (seen pool.now self.new.point ≡ asked (seen pool.now self.old.point)) }
        ensures key { self.new.point.key ≡ self.old.point.key }
        ensures queue { self.new.queue ≡ self.old.queue }
        ensures moved { OnOk result (IsMoved pool.now pool.now self.old.point.adj self.new.point.adj) }
    {
        self.point.refresh(pool)
    }

    /// It has another key, whose sessions are the same. What peers of that key should have is told by `desire`.
    pub fn rekey(&mut self, key: GroupKey)
        requires { session_of key ≡ session_of self.old.point.key }
        ensures point { self.new.point ≡ record self.old.point { key = key } }
        ensures queue { self.new.queue ≡ self.old.queue }
    {
        self.point.rekey(key);
    }

    /// Its queue was never full with keys pending.
    pub fn unstick(&mut self)
        ensures point { self.new.point ≡ record self.old.point { stuck = 0 } }
        ensures queue { self.new.queue ≡ self.old.queue }
    {
        self.point.unstick();
    }

    /// Whether a packet is owed: keys are pending, End-of-RIB is due, or a refresh has to begin or to end.
    pub fn owes(&self) -> bool
        ensures { (pool : Pooled values.OutAttrs) → result ≡ owes (seen pool self.now.point) }
    {
        self.point.owes()
    }

    /// Whether keys are pending.
    pub fn is_pending(&self) -> bool
        ensures { (pool : Pooled values.OutAttrs) → result ≡ is_pending (seen pool self.now.point) }
    {
        self.point.is_pending()
    }

    /// Whether its members have all that they should have, once they have taken its packets.
    pub fn is_level(&self) -> bool
        ensures { (pool : Pooled values.OutAttrs) → result ≡ is_level (seen pool self.now.point) }
    {
        self.point.is_level()
    }

    /// Whether a session of this key that starts may share it.
    pub fn is_joinable(&self, key: &GroupKey) -> bool
        ensures { (pool : Pooled values.OutAttrs) → result ≡ is_joinable key.now (seen pool self.now.point) }
    {
        self.point.is_joinable(key)
    }

    /// Another event has passed. A count that has no room counts as out of memory.
    pub fn count(&mut self) -> Result<(), NoMemory>
        ensures ok { OnOk result (self.new.point ≡ record self.old.point { stuck = if nat_le self.old.queue.limit (length self.old.queue.packets) && not (is_empty self.old.point.adj.pending) then self.old.point.stuck + 1 else 0 }) }
        ensures err { OnErr result (self.new ≡ self.old) }
        ensures queue { self.new.queue ≡ self.old.queue }
    {
        let full = self.is_full();
        self.point.count(full)
    }

    /// A subgroup of its own with the tables, flags and packets that the members listed have still to take, who stand where
    /// the first of them does. They are still members of this one too. The pool counts the copy's ids.
    fn copy(
        &self,
        pool: &mut Pool<OutAttrs>,
        first: PeerId,
        members: &PeerList,
    ) -> Result<Subgroup, NoMemory>
        requires first { IsMember self.now.queue first }
        requires some { 0 < length members.now.items }
        requires beside { All (λ m. place_of self.now.queue m ≡ place_of self.now.queue first) members.now.items }
        requires once { AreNew [] members.now.items }
        requires counted { IsCounted pool.old self.now.point.adj }
        requires room { HasRoom (length self.now.point.adj.formatted + length self.now.point.adj.desired) pool.old }
        ensures point { IfOk result (λ copy. copy.point ≡ record self.now.point { stuck = 0 }) }
        ensures packets { IfOk result (λ copy. copy.queue.packets ≡ rest_of self.now.queue first) }
        ensures members { IfOk result (λ copy. copy.queue.places ≡ seat_all [] members.now.items) }
        ensures limit { IfOk result (λ copy. copy.queue.limit ≡ self.now.queue.limit) }
        ensures uses { OnOk result ((id : ℕ) → uses_of (held pool.new id) ≡ uses_of (held pool.old id) + holds self.now.point.adj id) }
        ensures values { (id : ℕ) → value_in pool.new id ≡ value_in pool.old id }
        ensures err { OnErr result (pool.new ≡ pool.old) }
    {
        let queue = self.queue.copy_from(first, members)?;
        let point = self.point.copy(pool)?;
        Ok(Subgroup { point, queue })
    }

    /// Members that stand at one point of the queue leave it together, for a subgroup of their own: with the tables, the flags
    /// and the packets that they have still to take, and as one whose queue was never full. The pool counts its ids
    /// too. Running out of memory changes nothing.
    pub fn split(
        &mut self,
        pool: &mut Pool<OutAttrs>,
        members: &PeerList,
    ) -> Result<Subgroup, NoMemory>
        requires members { StandTogether self.old.queue members.now.items }
        requires counted { IsCounted pool.old self.old.point.adj }
        requires room { HasRoom (length self.old.point.adj.formatted + length self.old.point.adj.desired) pool.old }
        ensures point { IfOk result (λ part. part.point ≡ record self.old.point { stuck = 0 }) }
        ensures queue { IfOk result (λ part. part.queue ≡ part_of self.old.queue members.now.items) }
        ensures rest { OnOk result (self.new ≡ record self.old { queue = shed (without_members self.old.queue members.now.items) }) }
        ensures uses { OnOk result ((id : ℕ) → uses_of (held pool.new id) ≡ uses_of (held pool.old id) + holds self.old.point.adj id) }
        ensures values { (id : ℕ) → value_in pool.new id ≡ value_in pool.old id }
        ensures err { OnErr result (self.new ≡ self.old) }
        ensures pool { OnErr result (pool.new ≡ pool.old) }
    {
        let first = members.as_slice()[0];
        let part = self.copy(pool, first, members)?;
        self.leave_all(members.as_slice());
        Ok(part)
    }

    /// Several members go.
    fn leave_all(&mut self, members: &[PeerId])
        requires { AreMembers self.old.queue members.now }
        ensures { self.new ≡ record self.old { queue = shed (without_members self.old.queue members.now) } }
    {
        self.queue.leave_all(members);
    }

    /// The members of the other move to the end of this one's queue, and the other ends: the pool counts its ids no
    /// more. Running out of memory hands the other back, and changes nothing.
    pub fn absorb(&mut self, pool: &mut Pool<OutAttrs>, other: Subgroup) -> Result<(), Subgroup>
        requires apart { (m : ℕ) → IsMember other.queue m → place_of self.old.queue m ≡ None }
        requires counted { IsCounted pool.old other.point.adj }
        ensures ok { OnOk result (self.new ≡ record self.old { queue = with_members self.old.queue (keys_of other.queue.places) }) }
        ensures uses { OnOk result ((id : ℕ) → uses_of (held pool.new id) + holds other.point.adj id ≡ uses_of (held pool.old id)) }
        ensures values { (id : ℕ) → IsSome (held pool.new id) → value_in pool.new id ≡ value_in pool.old id }
        ensures err { OnErr result (self.new ≡ self.old) }
        ensures pool { OnErr result (pool.new ≡ pool.old) }
        ensures returned { IfErr result (λ back. back ≡ other) }
    {
        let Ok(()) = self.take_in(&other) else {
            return Err(other);
        };
        other.retire(pool);
        Ok(())
    }

    /// Takes in the members of the other, whose cursors are at the end.
    fn take_in(&mut self, other: &Subgroup) -> Result<(), NoMemory>
        requires apart { (m : ℕ) → IsMember other.now.queue m → place_of self.old.queue m ≡ None }
        ensures ok { OnOk result (self.new ≡ record self.old { queue = with_members self.old.queue (keys_of other.now.queue.places) }) }
        ensures err { OnErr result (self.new ≡ self.old) }
    {
        let members = other.queue.members()?;
        self.join_all(members.as_slice())
    }

    /// Takes in members, whose cursors are at the end. Running out of memory changes nothing.
    fn join_all(&mut self, members: &[PeerId]) -> Result<(), NoMemory>
        requires { AreNewcomers self.old.queue members.now }
        ensures ok { OnOk result (self.new ≡ record self.old { queue = with_members self.old.queue members.now }) }
        ensures err { OnErr result (self.new ≡ self.old) }
    {
        self.queue.join_all_at_end(members)?;
        Ok(())
    }

    /// It ends, and the pool counts its ids no more. It takes no memory.
    pub fn retire(self, pool: &mut Pool<OutAttrs>)
        requires counted { IsCounted pool.old self.point.adj }
        ensures uses { (id : ℕ) → uses_of (held pool.new id) + holds self.point.adj id ≡ uses_of (held pool.old id) }
        ensures values { (id : ℕ) → IsSome (held pool.new id) → value_in pool.new id ≡ value_in pool.old id }
    {
        let Subgroup { point, queue: _ } = self;
        point.retire(pool);
    }

    /// Its group key.
    pub fn key(&self) -> &GroupKey
        ensures { result.now ≡ self.now.point.key }
    {
        self.point.key()
    }

    /// Whether it has an equal key.
    pub fn has_key(&self, key: &GroupKey) -> bool
        ensures { result ≡ same_group self.now.point.key key.now }
    {
        self.point.has_key(key)
    }

    /// Whether both are level.
    fn are_level(&self, other: &Subgroup) -> bool
        ensures { (pool : Pooled values.OutAttrs) → result ≡ (is_level (seen pool self.now.point) && is_level (seen pool other.now.point)) }
    {
        self.is_level() && other.is_level()
    }

    /// Whether its queue holds no packet.
    fn has_no_packet(&self) -> bool
        ensures { result ≡ (length self.now.queue.packets == 0) }
    {
        self.queue.is_empty()
    }

    /// Whether the members of the other may move to the end of this one's queue: both are level, of one key, and the other's
    /// members have nothing left to take.
    pub fn may_merge(&self, other: &Subgroup) -> bool
        ensures { (pool : Pooled values.OutAttrs) → result ≡ (is_level (seen pool self.now.point) && (is_level (seen pool other.now.point) && same_group self.now.point.key other.now.point.key) && (length other.now.queue.packets == 0)) }
    {
        if !self.are_level(other) {
            return false;
        }
        if !self.has_key(other.key()) {
            return false;
        }
        other.has_no_packet()
    }

    /// Whether they have no member in common.
    pub fn is_apart(&self, other: &Subgroup) -> bool
        ensures apart { IsTrue result → (m : ℕ) → IsMember other.now.queue m → place_of self.now.queue m ≡ None }
        ensures meets { result ≡ false → (m : ℕ) × IsMember other.now.queue m × IsMember self.now.queue m }
    {
        self.queue.is_apart(&other.queue)
    }

    /// Whether its queue holds as many packets as it may.
    pub fn is_full(&self) -> bool
        ensures { IsTrue result ↔ (self.now.queue.limit ≤ length self.now.queue.packets) }
    {
        self.queue.is_full()
    }

    /// Whether this is a member.
    pub fn is_member(&self, member: PeerId) -> bool
        ensures member { IsTrue result ↔ IsMember self.now.queue member }
        ensures none { result ≡ false → place_of self.now.queue member ≡ None }
    {
        self.queue.is_member(member)
    }

    /// The number of members.
    pub fn member_count(&self) -> usize
        ensures { result ≡ length self.now.queue.places }
    {
        self.queue.member_count()
    }

    /// The members, by rising number.
    pub fn members(&self) -> Result<PeerList, NoMemory>
        ensures { IfOk result (λ members. members.items ≡ keys_of self.now.queue.places) }
    {
        self.queue.members()
    }

    /// What is so of its queue: the first packet is some member's to take, and no member stands past the end.
    pub fn know_queue(&self)
        ensures needed { passed self.now.queue ≡ 0 }
        ensures bounded { length self.now.queue.packets ≤ self.now.queue.limit }
        ensures inside { (m : ℕ) → IsInside self.now.queue m }
        ensures sorted { IsStrictlySortedBy nat_cmp (keys_of self.now.queue.places) }
    {
        self.queue.know_places();
    }

    /// How many members' cursors are at the queue's front. It takes the same time however many members there are.
    pub fn count_at_front(&self) -> usize
        ensures { result ≡ standing self.now.queue.places 0 }
    {
        self.queue.count_at_front()
    }

    /// Whether the member's cursor is at the queue's front.
    pub fn at_front(&self, member: PeerId) -> bool
        requires { IsMember self.now.queue member }
        ensures { IsTrue result ↔ (place_of self.now.queue member ≡ Some 0) }
    {
        self.queue.at_front(member)
    }

    /// How many packets the member has still to take.
    pub fn left(&self, member: PeerId) -> usize
        requires { IsMember self.now.queue member }
        ensures { result ≡ length (rest_of self.now.queue member) }
    {
        self.queue.left(member)
    }

    /// How many packets its queue holds. Some member has still to take all of them, and no member stands behind them.
    pub fn len(&self) -> usize
        ensures len { result ≡ length self.now.queue.packets }
        ensures needed { passed self.now.queue ≡ 0 }
        ensures bounded { result ≤ self.now.queue.limit }
    {
        self.queue.len()
    }

    /// Through how many events in a row its queue was full with keys pending.
    pub fn stuck(&self) -> u64
        ensures { result ≡ self.now.point.stuck }
    {
        self.point.stuck()
    }

    /// What the key is desired with.
    pub fn desired(&self, key: &Key) -> Option<AttrId>
        requires { key.now.prefix.family ≡ self.now.point.key.family }
        ensures { result ≡ value_at key_order self.now.point.adj.desired key.now }
    {
        self.point.desired(key)
    }

    /// The least row of the table above the key, or the first one; None exactly where there is none.
    pub fn row_after(&self, side: Side, key: Option<&Key>) -> Option<(Key, AttrId)>
        requires { IfSome (option_copied key) (λ q. q.prefix.family ≡ self.now.point.key.family) }
        ensures { result ≡ slice_get (rows_after key_order (option_copied key.entry) (rows_of side self.now.point.adj)) 0 }
    {
        self.point.row_after(side, key)
    }

    /// The keys that are desired are those of its sessions, each once, in order.
    pub fn know_keys(&self)
        ensures own { AreOwn self.now.point.key self.now.point.adj.desired }
        ensures sorted { IsTable key_order self.now.point.adj.desired }
    {
        self.point.know_kept();
    }

    /// How many keys have a row: neither table has more.
    pub fn row_count(&self) -> usize
        ensures formatted { length self.now.point.adj.formatted ≤ result }
        ensures desired { length self.now.point.adj.desired ≤ result }
        ensures small { result < 2 ^ 64 }
    {
        self.point.row_count()
    }

    /// Its list of pending keys is exact, and each forced key has a row.
    pub fn know_exact(&self, pool: &Pool<OutAttrs>)
        requires counted { IsCounted pool.now self.now.point.adj }
        ensures exact { IsExact key_order same_out (seen pool.now self.now.point).out }
        ensures shown { AreShown (seen pool.now self.now.point).out }
    {
        self.point.know_exact(pool);
    }
}
