//! The packets and the members' cursors, before packets that nobody waits for are dropped.
ghost use Rattle.std.specs.Prelude.{◌≡◌, ◌+◌, ◌-◌, ◌<◌, ◌≤◌, ◌^◌, ℕ, length, get_or, slice_get, slice_set, IfOk, OnOk, OnErr, IfErr, IsTrue, ◌↔◌, false, Some, None, option_copied};
ghost use Rattle.std.specs.Map.{keys_of};
ghost use Rattle.std.specs.List.Sorted.{IsStrictlySortedBy};
ghost use Rattle.std.specs.Ordering.{nat_cmp};
ghost use Rattle.ug_queue.specs.Rests.{IsInside};
ghost use Rattle.ug_queue.specs.Stands.{IsStand};
ghost use Rattle.ug_queue.specs.Queues.{empty_queue, with_packet, with_member, without_member, past_next, without_first, place_of, rest_of, IsMember, passed, standing};

use crate::cursors::Cursors;
use crate::stand::Stand;
use std::alloc::Global;
use std::collections::VecDeque;
use std::marker::Model;
use ug_segchain::SegChain;
use ug_types::{NoMemory, PeerId, PeerList, Sequence};

/// The packets, the members' cursors, and for each place how many members stand there. A cursor counts from `start` on,
/// round the end of 64 bits: where a packet goes, `start` moves and no cursor does.
#[derive(Drop)]
pub struct Line<P> {
    packets: SegChain<P>,
    waiting: VecDeque<usize>,
    start: u64,
    cursors: Cursors,
    limit: usize,
}

impl<P> Model for Line<P> {
    ghost use Rattle.std.specs.Prelude.{length};
    ghost use Rattle.ug_queue.specs.Queues.{Queued};
    ghost use Rattle.ug_queue.specs.Lines.{places_from, IsLine};

    ghost Value = { Queued P };

    ghost view = { λ q. record { packets = q.packets.items; places = places_from q.start q.cursors; limit = q.limit } };

    ghost invariant = { λ q. IsLine (length q.packets.items) q.waiting.items q.start q.cursors };
}

/// One member less stands at the place.
fn lower(waiting: &mut VecDeque<usize>, place: usize)
    requires inside { place < length waiting.old.items }
    requires some { 1 ≤ get_or waiting.old.items place 0 }
    ensures { waiting.new.items ≡ slice_set waiting.old.items place (get_or waiting.old.items place 0 - 1) }
{
    waiting[place] -= 1;
}

/// One member more stands at the place.
fn raise(waiting: &mut VecDeque<usize>, place: usize)
    requires inside { place < length waiting.old.items }
    requires fits { get_or waiting.old.items place 0 + 1 < 2 ^ 64 }
    ensures { waiting.new.items ≡ slice_set waiting.old.items place (get_or waiting.old.items place 0 + 1) }
{
    waiting[place] += 1;
}

/// Makes the place of the front, where there is none yet.
fn begin(waiting: &mut VecDeque<usize>) -> Result<(), NoMemory>
    ensures counts { (i : ℕ) → get_or waiting.new.items i 0 ≡ get_or waiting.old.items i 0 }
    ensures same { 0 < length waiting.old.items → length waiting.new.items ≡ length waiting.old.items }
    ensures first { length waiting.old.items ≡ 0 → OnOk result (length waiting.new.items ≡ 1) }
    ensures err { OnErr result (length waiting.new.items ≡ length waiting.old.items) }
{
    if waiting.is_empty() {
        waiting.push_back(0)?;
        return Ok(());
    }
    Ok(())
}

impl<P> Line<P> {
    pub fn new(alloc: Global, limit: usize) -> Self
        ensures { result ≡ empty_queue limit }
    {
        Line {
            packets: SegChain::new(alloc),
            waiting: VecDeque::new(alloc),
            start: 0,
            cursors: Cursors::new(alloc),
            limit,
        }
    }

    /// The number of packets.
    pub fn len(&self) -> usize
        ensures { result ≡ length self.now.packets }
    {
        self.packets.len()
    }

    /// How many packets make it full.
    pub fn limit(&self) -> usize
        ensures { result ≡ self.now.limit }
    {
        self.limit
    }

    /// The packet at a place.
    pub fn packet(&self, place: usize) -> &P
        requires { place < length self.now.packets }
        ensures { slice_get self.now.packets place ≡ Some result.now }
    {
        self.packets.at(place)
    }

    /// Whether this is a member.
    pub fn has(&self, member: PeerId) -> bool
        ensures member { IsTrue result ↔ IsMember self.now member }
        ensures none { result ≡ false → place_of self.now member ≡ None }
    {
        self.cursors.has(member)
    }

    /// Whether no member of the other is one of this.
    pub fn is_apart(&self, other: &Line<P>) -> bool
        ensures apart { IsTrue result → (m : ℕ) → IsMember other.now m → place_of self.now m ≡ None }
        ensures meets { result ≡ false → (m : ℕ) × IsMember other.now m × IsMember self.now m }
    {
        for (member, _) in other.cursors.entries() {
            if self.has(*member) {
                return false;
            }
        }
        true
    }

    /// The number of members.
    pub fn member_count(&self) -> usize
        ensures count { result ≡ length self.now.places }
        ensures sorted { IsStrictlySortedBy nat_cmp (keys_of self.now.places) }
    {
        self.cursors.len()
    }

    /// The members, by rising number.
    pub fn members(&self, alloc: Global) -> Result<PeerList, NoMemory>
        ensures members { IfOk result (λ members. members.items ≡ keys_of self.now.places) }
        ensures sorted { IsStrictlySortedBy nat_cmp (keys_of self.now.places) }
    {
        let mut members = Sequence::new(alloc);
        for (member, _) in self.cursors.entries() {
            let Ok(()) = members.push(*member) else {
                return Err(NoMemory);
            };
        }
        Ok(members)
    }

    /// Where the member's cursor stands.
    pub fn stand(&self, member: PeerId) -> Stand
        requires { IsMember self.now member }
        ensures stand { IsStand self.now result }
        ensures member { result.member ≡ member }
        ensures place { place_of self.now member ≡ Some result.place }
        ensures inside { result.place ≤ length self.now.packets }
    {
        let (index, cursor) = self.cursors.find(member);
        Stand {
            member,
            index,
            place: cursor.wrapping_sub(self.start) as usize,
        }
    }

    /// The number of packets in front of the member's cursor.
    pub fn place(&self, member: PeerId) -> usize
        requires { IsMember self.now member }
        ensures place { place_of self.now member ≡ Some result }
        ensures inside { result ≤ length self.now.packets }
    {
        self.stand(member).place
    }

    /// The next packet of the member that stands there; None exactly where its cursor is at the end.
    pub fn next(&self, stand: Stand) -> Option<&P>
        requires { IsStand self.now stand }
        ensures { option_copied result ≡ slice_get (rest_of self.now stand.member) 0 }
    {
        if stand.place < self.packets.len() {
            return Some(self.packets.at(stand.place));
        }
        None
    }

    /// Members stand at most at the end.
    pub fn know_places(&self)
        ensures { (m : ℕ) → IsInside self.now m }
    {
        let _start = &self.start;
    }

    /// Adds a packet at the end, for each member to take.
    pub fn append(&mut self, packet: P) -> Result<(), P>
        requires { 0 < length self.old.places }
        ensures ok { OnOk result (self.new ≡ with_packet self.old packet) }
        ensures needed { passed self.old ≡ 0 → OnOk result (passed self.new ≡ 0) }
        ensures err { OnErr result (self.new ≡ self.old) }
        ensures returned { IfErr result (λ back. back ≡ packet) }
    {
        let Ok(()) = self.packets.reserve(1) else {
            return Err(packet);
        };
        let Ok(()) = self.waiting.push_back(0) else {
            return Err(packet);
        };
        self.packets.push(packet);
        Ok(())
    }

    /// Takes a member in, at the end.
    pub fn join(&mut self, member: PeerId) -> Result<(), NoMemory>
        requires { place_of self.old member ≡ None }
        ensures ok { OnOk result (self.new ≡ with_member self.old member (length self.old.packets)) }
        ensures needed { OnOk result (passed self.new ≡ passed self.old) }
        ensures err { OnErr result (self.new ≡ self.old) }
    {
        let end = self.packets.len();
        begin(&mut self.waiting)?;
        let _members = self.cursors.len();
        self.cursors
            .insert(member, self.start.wrapping_add(end as u64))?;
        raise(&mut self.waiting, end);
        Ok(())
    }

    /// Moves the cursor of the member that stands there behind its next packet. Nothing is searched.
    pub fn step(&mut self, stand: Stand)
        requires stand { IsStand self.old stand }
        requires next { 0 < length (rest_of self.old stand.member) }
        ensures line { self.new ≡ past_next self.old stand.member }
        ensures needed { 0 < stand.place → passed self.old ≡ 0 → passed self.new ≡ 0 }
    {
        let _members = self.cursors.len();
        self.cursors.go_on(stand.index);
        lower(&mut self.waiting, stand.place);
        raise(&mut self.waiting, stand.place + 1);
    }

    /// Lets a member go.
    pub fn remove(&mut self, member: PeerId)
        requires { IsMember self.old member }
        ensures { self.new ≡ without_member self.old member }
    {
        let place = self.place(member);
        self.cursors.remove(member);
        lower(&mut self.waiting, place);
    }

    /// How many members' cursors are at the front, before the first packet.
    pub fn count_at_front(&self) -> usize
        ensures { result ≡ standing self.now.places 0 }
    {
        if self.waiting.is_empty() {
            return 0;
        }
        self.waiting[0]
    }

    /// Whether every member's cursor has passed the first packet.
    pub fn is_first_passed(&self) -> bool
        ensures { IsTrue result ↔ (0 < passed self.now) }
    {
        if self.packets.len() == 0 {
            return false;
        }
        self.waiting[0] == 0
    }
}

impl<P: Drop> Line<P> {
    /// Drops the first packet, which every member's cursor has passed.
    pub fn drop_first(&mut self)
        requires { 0 < passed self.old }
        ensures { self.new ≡ without_first 1 self.old }
    {
        let _packet = self.packets.pop_front();
        let _count = self.waiting.pop_front();
        self.start = self.start.wrapping_add(1);
    }
}
