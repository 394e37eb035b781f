//! The queue: a packet goes as soon as every member's cursor has passed it.
ghost use Rattle.std.specs.Prelude.{◌≡◌, ℕ, ◌+◌, ◌-◌, ◌<◌, ◌≤◌, [], ◌++◌, length, drop, slice_get, OnOk, OnErr, IfOk, IfErr, IsTrue, ◌↔◌, false, Some, None, option_copied, All};
ghost use Rattle.std.specs.Map.{keys_of};
ghost use Rattle.std.specs.List.Sorted.{IsStrictlySortedBy};
ghost use Rattle.std.specs.Ordering.{nat_cmp};
ghost use Rattle.ug_queue.specs.Rests.{IsInside};
ghost use Rattle.ug_queue.specs.Stands.{IsStand};
ghost use Rattle.ug_queue.specs.Queues.{empty_queue, with_packet, with_member, without_member, past_next, shed, place_of, rest_of, IsMember, passed, standing, seat_all, AreNew, with_members, AreNewcomers, without_members, AreMembers};

use crate::line::Line;
use crate::stand::Stand;
use std::alloc::Global;
use std::marker::Model;
use ug_types::{NoMemory, PeerId, PeerList, Twin};

/// Packets that many members take, each from its own cursor on. Contracts see the packets, each member with its place (the number of
/// packets in front of its cursor), and how many packets make the queue full. A packet goes exactly when every member's cursor has passed it.
#[derive(Drop)]
pub struct Queue<P> {
    line: Line<P>,
    alloc: Global,
}

impl<P> Model for Queue<P> {
    ghost use Rattle.std.specs.Prelude.{◌≡◌, ◌≤◌, length};
    ghost use Rattle.ug_queue.specs.Queues.{Queued, passed};

    ghost Value = { Queued P };

    ghost view = { λ q. q.line };

    ghost invariant = { λ q. (passed q.line ≡ 0) × (length q.line.packets ≤ q.line.limit) };
}

/// Drops the packets that every member's cursor has passed.
fn shed_passed<P: Drop>(line: &mut Line<P>)
    ensures line { line.new ≡ shed line.old }
    ensures front { passed line.new ≡ 0 }
{
    while line.is_first_passed() {
        line.drop_first();
    }
}

impl<P> Queue<P> {
    /// The empty queue, full from `limit` packets on. It takes no memory.
    pub fn new(alloc: Global, limit: usize) -> Queue<P>
        ensures { result ≡ empty_queue limit }
    {
        Queue {
            line: Line::new(alloc, limit),
            alloc,
        }
    }

    /// The number of packets.
    pub fn len(&self) -> usize
        ensures len { result ≡ length self.now.packets }
        ensures bounded { result ≤ self.now.limit }
        ensures needed { passed self.now ≡ 0 }
    {
        self.line.len()
    }

    /// Whether there is no packet.
    pub fn is_empty(&self) -> bool
        ensures { IsTrue result ↔ (length self.now.packets ≡ 0) }
    {
        self.len() == 0
    }

    /// Whether it holds as many packets as it may.
    pub fn is_full(&self) -> bool
        ensures { IsTrue result ↔ (self.now.limit ≤ length self.now.packets) }
    {
        self.line.limit() <= self.line.len()
    }

    /// Whether this is a member.
    pub fn is_member(&self, member: PeerId) -> bool
        ensures member { IsTrue result ↔ IsMember self.now member }
        ensures none { result ≡ false → place_of self.now member ≡ None }
    {
        self.line.has(member)
    }

    /// Whether they have no member in common.
    pub fn is_apart(&self, other: &Queue<P>) -> bool
        ensures apart { IsTrue result → (m : ℕ) → IsMember other.now m → place_of self.now m ≡ None }
        ensures meets { result ≡ false → (m : ℕ) × IsMember other.now m × IsMember self.now m }
    {
        self.line.is_apart(&other.line)
    }

    /// The number of members.
    pub fn member_count(&self) -> usize
        ensures count { result ≡ length self.now.places }
        ensures sorted { IsStrictlySortedBy nat_cmp (keys_of self.now.places) }
    {
        self.line.member_count()
    }

    /// The members, by rising number.
    pub fn members(&self) -> Result<PeerList, NoMemory>
        ensures members { IfOk result (λ members. members.items ≡ keys_of self.now.places) }
        ensures sorted { IsStrictlySortedBy nat_cmp (keys_of self.now.places) }
    {
        self.line.members(self.alloc)
    }

    /// What is so of every queue: the first packet is some member's to take, and no member stands past the end.
    pub fn know_places(&self)
        ensures needed { passed self.now ≡ 0 }
        ensures bounded { length self.now.packets ≤ self.now.limit }
        ensures inside { (m : ℕ) → IsInside self.now m }
        ensures sorted { IsStrictlySortedBy nat_cmp (keys_of self.now.places) }
    {
        self.line.know_places();
        let _count = self.line.member_count();
    }

    /// Where the member's cursor stands: one search finds it, and what is done there searches no more.
    pub fn stand(&self, member: PeerId) -> Stand
        requires { IsMember self.now member }
        ensures stand { IsStand self.now result }
        ensures member { result.member ≡ member }
        ensures place { place_of self.now member ≡ Some result.place }
    {
        self.line.stand(member)
    }

    /// The next packet of the member that stands there; None exactly where its cursor is at the end.
    pub fn next(&self, stand: Stand) -> Option<&P>
        requires { IsStand self.now stand }
        ensures { option_copied result ≡ slice_get (rest_of self.now stand.member) 0 }
    {
        self.line.next(stand)
    }

    /// The number of packets from the member's cursor to the end. Where there is no packet, no cursor is looked up.
    pub fn left(&self, member: PeerId) -> usize
        requires { IsMember self.now member }
        ensures left { result ≡ length (rest_of self.now member) }
        ensures inside { IsInside self.now member }
    {
        if self.line.len() == 0 {
            self.line.know_places();
            return 0;
        }
        self.line.len() - self.line.place(member)
    }

    /// Whether the member's cursor is at the queue's front.
    pub fn at_front(&self, member: PeerId) -> bool
        requires { IsMember self.now member }
        ensures { IsTrue result ↔ (place_of self.now member ≡ Some 0) }
    {
        self.line.place(member) == 0
    }

    /// How many members' cursors are at the queue's front. It takes the same time however many members there are.
    pub fn count_at_front(&self) -> usize
        ensures { result ≡ standing self.now.places 0 }
    {
        self.line.count_at_front()
    }

    /// Adds a packet at the end. Running out of memory hands it back and leaves the queue as it was.
    pub fn append(&mut self, packet: P) -> Result<(), P>
        requires room { length self.old.packets < self.old.limit }
        requires members { 0 < length self.old.places }
        ensures ok { OnOk result (self.new ≡ with_packet self.old packet) }
        ensures err { OnErr result (self.new ≡ self.old) }
        ensures returned { IfErr result (λ back. back ≡ packet) }
    {
        self.line.append(packet)
    }

    /// Takes a member in, whose cursor is at the end. Running out of memory leaves the queue as it was.
    pub fn join_at_end(&mut self, member: PeerId) -> Result<(), NoMemory>
        requires { place_of self.old member ≡ None }
        ensures ok { OnOk result (self.new ≡ with_member self.old member (length self.old.packets)) }
        ensures err { OnErr result (self.new ≡ self.old) }
    {
        self.line.join(member)
    }

    /// Takes in members, whose cursors are at the end. Running out of memory leaves the queue as it was.
    pub fn join_all_at_end(&mut self, members: &[PeerId]) -> Result<(), NoMemory>
        requires { AreNewcomers self.old members.now }
        ensures ok { OnOk result (self.new ≡ with_members self.old members.now) }
        ensures err { OnErr result (self.new ≡ self.old) }
    {
        join_each(&mut self.line, members)
    }
}

impl<P: Drop> Queue<P> {
    /// Moves the cursor of the member that stands there behind its next packet. Only where it stood at the front are packets
    /// looked for that have to go.
    pub fn advance(&mut self, stand: Stand)
        requires stand { IsStand self.old stand }
        requires next { 0 < length (rest_of self.old stand.member) }
        ensures { self.new ≡ shed (past_next self.old stand.member) }
    {
        self.line.step(stand);
        if stand.place == 0 {
            shed_passed(&mut self.line);
        }
    }

    /// Lets a member go.
    pub fn leave(&mut self, member: PeerId)
        requires { IsMember self.old member }
        ensures { self.new ≡ shed (without_member self.old member) }
    {
        self.line.remove(member);
        shed_passed(&mut self.line);
    }

    /// Lets several members go.
    pub fn leave_all(&mut self, members: &[PeerId])
        requires { AreMembers self.old members.now }
        ensures { self.new ≡ shed (without_members self.old members.now) }
    {
        remove_each(&mut self.line, members);
        shed_passed(&mut self.line);
    }
}

/// Takes in members at the end: all of them, or none.
fn join_each<P>(line: &mut Line<P>, members: &[PeerId]) -> Result<(), NoMemory>
    requires { AreNewcomers line.old members.now }
    ensures ok { OnOk result (line.new ≡ with_members line.old members.now) }
    ensures packets { OnOk result (line.new.packets ≡ line.old.packets) }
    ensures limit { OnOk result (line.new.limit ≡ line.old.limit) }
    ensures needed { OnOk result (passed line.new ≡ passed line.old) }
    ensures err { OnErr result (line.new ≡ line.old) }
{
    let [first, rest @ ..] = members else {
        return Ok(());
    };
    line.join(*first)?;
    let Err(NoMemory) = join_each(line, rest) else {
        return Ok(());
    };
    line.remove(*first);
    Err(NoMemory)
}

/// Lets members go.
fn remove_each<P>(line: &mut Line<P>, members: &[PeerId])
    requires { AreMembers line.old members.now }
    ensures line { line.new ≡ without_members line.old members.now }
    ensures packets { line.new.packets ≡ line.old.packets }
    ensures limit { line.new.limit ≡ line.old.limit }
{
    for member in members {
        line.remove(*member);
    }
}

/// Takes members into a queue without packets.
fn seat<P>(copy: &mut Queue<P>, members: &[PeerId]) -> Result<(), NoMemory>
    requires once { AreNew copy.old.places members.now }
    requires empty { length copy.old.packets ≡ 0 }
    ensures places { OnOk result (copy.new.places ≡ seat_all copy.old.places members.now) }
    ensures packets { OnOk result (copy.new.packets ≡ copy.old.packets) }
    ensures limit { OnOk result (copy.new.limit ≡ copy.old.limit) }
{
    for member in members {
        copy.join_at_end(*member)?;
    }
    Ok(())
}

/// Adds twins of the packets from a place on.
fn add_twins<P: Twin + Drop>(
    copy: &mut Queue<P>,
    line: &Line<P>,
    from: usize,
) -> Result<(), NoMemory>
    requires inside { from ≤ length line.now.packets }
    requires room { length copy.old.packets + (length line.now.packets - from) ≤ copy.old.limit }
    requires members { 0 < length copy.old.places }
    ensures packets { OnOk result (copy.new.packets ≡ copy.old.packets ++ drop from line.now.packets) }
    ensures places { OnOk result (copy.new.places ≡ copy.old.places) }
    ensures limit { OnOk result (copy.new.limit ≡ copy.old.limit) }
{
    for place in from..line.len() {
        let packet = line.packet(place).twin()?;
        let Ok(()) = copy.append(packet) else {
            return Err(NoMemory);
        };
    }
    Ok(())
}

impl<P: Twin + Drop> Queue<P> {
    /// A queue of its own with the packets from the member's cursor on, and all the members listed at its front.
    pub fn copy_from(&self, member: PeerId, members: &PeerList) -> Result<Queue<P>, NoMemory>
        requires member { IsMember self.now member }
        requires some { 0 < length members.now.items }
        requires beside { All (λ m. place_of self.now m ≡ place_of self.now member) members.now.items }
        requires once { AreNew [] members.now.items }
        ensures packets { IfOk result (λ copy. copy.packets ≡ rest_of self.now member) }
        ensures members { IfOk result (λ copy. copy.places ≡ seat_all [] members.now.items) }
        ensures limit { IfOk result (λ copy. copy.limit ≡ self.now.limit) }
    {
        let mut copy = Queue::new(self.alloc, self.line.limit());
        seat(&mut copy, members.as_slice())?;
        add_twins(&mut copy, &self.line, self.line.place(member))?;
        Ok(copy)
    }
}
