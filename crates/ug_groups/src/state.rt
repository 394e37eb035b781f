//! The state of a machine of update groups.

ghost use Rattle.std.specs.Prelude.{◌≡◌, ◌+◌, ◌<◌, ◌≤◌, ◌&&◌, true, false, None, length, slice_get, IfOk, IfErr, IfSome, IfNone, OnOk, is_none, nat_lt};
ghost use Rattle.ug_world.specs.Verdicts.{verdict};
ghost use Rattle.ug_board.specs.declared.steps.LaneStep.TheVariants.{Next};
ghost use Rattle.ug_board.specs.Rules.{buffer_size, LeavesHanded};
ghost use Rattle.ug_events.specs.Events.{IsEvent};
ghost use Rattle.ug_events.specs.Views.{event_of};
ghost use Rattle.ug_world.specs.Touches.{is_about};
ghost use Rattle.ug_speaker.specs.Owes.{IsOpening};
ghost use Rattle.ug_speaker.specs.Speech.{is_request, Prepares};
ghost use Rattle.ug_group_rules.specs.Machine as machine;
ghost use Rattle.ug_group_rules.specs.Machine.{start, legal, after_job, after_next, after_loss, has_unlost, is_settled, is_drained, marks_at};
ghost use Rattle.ug_group_rules.specs.Evaluations.{evaluations};
ghost use Rattle.ug_group_rules.specs.Rules.{group_rules, lane_reply, due, purpose};

use crate::Subgroups;
use crate::formatting::format;
use crate::job::{GroupJob, Work};
use crate::lanes::{lose, may_lose, next};
use crate::marking::{marks_of_all, marks_of_asker};
use crate::member::{Member, fresh_members};
use crate::merging::merge;
use crate::quiet::{due_of, is_drained};
use crate::settling::{is_settled, next_draining, next_settling};
use crate::slowing::slow;
use crate::taking::{peer_of, take_event};
use std::alloc::Global;
use std::marker::Model;
use std::mem;
use std::sync::ledger::Ledger;
use ug_board::LaneSaid;
use ug_events::Event;
use ug_types::{MarkList, NoMemory, PeerId, Steps};
use ug_world::{World, sendable_laws};

/// The world, whether there will be no more jobs, how many packets were formatted, the subgroups, and the peers in configured
/// order. After running out of memory there are no subgroups and no members any more, and no job may be done.
#[derive(Drop)]
pub struct GroupState {
    alloc: Global,
    world: World,
    closed: bool,
    made: u64,
    subgroups: Subgroups,
    members: Vec<Member>,
}

impl Model for GroupState {
    ghost use Rattle.ug_group_rules.specs.Machine.{System};
    ghost use Rattle.ug_groups.specs.Members.{system};
    ghost use Rattle.ug_groups.specs.Kept.{IsKept};

    ghost Value = { System };

    ghost view = { λ s. system s.world s.closed s.made s.subgroups s.members.items };

    ghost invariant = { λ s. IsKept s.world s.closed s.made s.subgroups s.members.items };
}

impl GroupState {
    /// The state before any job. Running out of memory hands the world back.
    pub fn new(alloc: Global, world: World) -> Result<GroupState, World>
        requires { IsOpening world }
        ensures ok { IfOk result (λ s. s ≡ start world) }
        ensures returned { IfErr result (λ back. back ≡ world) }
    {
        let Ok(members) = fresh_members(alloc, &world) else {
            return Err(world);
        };
        Ok(GroupState {
            alloc,
            world,
            closed: false,
            made: 0,
            subgroups: Subgroups::new(alloc),
            members,
        })
    }

    /// The world.
    pub fn world(&self) -> &World
        ensures { result.now ≡ self.now.world }
    {
        &self.world
    }

    /// What is next for a peer. It takes no memory.
    pub fn next(&mut self, peer: PeerId, buf: &mut [u8]) -> LaneSaid
        requires room { buffer_size ≤ length buf.old }
        ensures said { result ≡ lane_reply (Next peer) self.old }
        ensures state { self.new ≡ after_next peer self.old }
        ensures handed { LeavesHanded group_rules (Next peer) result self.old buf.new }
    {
        next(
            &self.world,
            self.closed,
            self.made,
            &mut self.subgroups,
            &mut self.members,
            peer,
            buf,
        )
    }

    /// Notes the loss of a session. It takes no memory.
    pub fn lose(&mut self, peer: PeerId, session: u32)
        ensures { self.new ≡ after_loss peer session self.old }
    {
        lose(
            &self.world,
            &mut self.subgroups,
            &mut self.members,
            peer,
            session,
        );
    }

    /// Whether the loss of this session may be noted.
    pub fn may_lose(&self, peer: PeerId, session: u32) -> bool
        ensures { result ≡ has_unlost session (slice_get self.now.members peer) }
    {
        may_lose(&self.members, peer as usize, session)
    }

    /// How many steps of lanes are due at most.
    pub fn due(&self) -> u64
        ensures { result ≡ due self.now.world.peers self.now.members }
    {
        due_of(&self.world, &self.subgroups, &self.members)
    }

    /// How much a job that may be done raises what is due at most, where that is known before it.
    pub fn due_rise(&self, job: &GroupJob) -> Option<u64>
        requires { legal job.now self.now ≡ true }
        ensures { IfSome result (λ rise. group_rules.due (after_job job.now self.now) ≤ group_rules.due self.now + rise) }
    {
        match &job.work {
            Work::Take(event) => self.rise_by_event(event),
            Work::Format(sub) => Some(self.rise_by_packet(*sub)),
            Work::Sync | Work::Close => Some(0),
            Work::Merge(_, _) | Work::Slow(_) => None,
        }
    }

    /// An event about routes or a list begins no session and formats no packet: it raises nothing. Of an event about a peer
    /// nothing is known before it.
    fn rise_by_event(&self, event: &Event) -> Option<u64>
        requires { legal (machine.Take (event_of event.now)) self.now ≡ true }
        ensures { IfSome result (λ rise. group_rules.due (after_job (machine.Take (event_of event.now)) self.now) ≤ group_rules.due self.now + rise) }
    {
        prove!(!self.closed);
        if peer_of(event).is_some() {
            return None;
        }
        Some(0)
    }

    /// A packet is one more for each member of its subgroup.
    fn rise_by_packet(&self, sub: u32) -> u64
        requires { legal (machine.Format sub) self.now ≡ true }
        ensures { group_rules.due (after_job (machine.Format sub) self.now) ≤ group_rules.due self.now + result }
    {
        self.subgroups.know_rows();
        self.subgroups.member_count(sub) as u64
    }

    /// Whether nothing has to be done before the next event.
    pub fn is_settled(&self) -> bool
        ensures { result ≡ is_settled self.now }
    {
        self.subgroups.know_rows();
        is_settled(&self.world, &self.subgroups)
    }

    /// Whether everything is told.
    pub fn is_drained(&self) -> bool
        ensures { result ≡ is_drained self.now }
    {
        self.subgroups.know_rows();
        is_drained(&self.world, &self.subgroups, &self.members)
    }

    /// Whether a job may be done.
    pub fn is_legal(&self, job: &GroupJob) -> bool
        ensures { result ≡ legal job.now self.now }
    {
        if self.closed {
            return false;
        }
        match &job.work {
            Work::Take(event) => self.may_take(event),
            Work::Format(sub) => self.may_format(*sub),
            Work::Merge(sub, other) => self.may_merge(*sub, *other),
            Work::Slow(sub) => self.must_part(*sub),
            Work::Sync => self.is_drained(),
            Work::Close => true,
        }
    }

    fn may_take(&self, event: &Event) -> bool
        ensures { result ≡ (is_none (verdict self.now.world (event_of event.now)) && (nat_lt self.now.world.version 4294967295 && is_settled self.now)) }
    {
        self.world.judge(event).is_ok() && (self.world.version() < 4294967295 && self.is_settled())
    }

    fn may_format(&self, sub: u32) -> bool
        ensures { result ≡ machine.may_format self.now sub }
    {
        self.subgroups.know_rows();
        self.subgroups.may_format(sub)
    }

    fn may_merge(&self, sub: u32, other: u32) -> bool
        ensures { result ≡ machine.may_merge self.now sub other }
    {
        self.subgroups.know_rows();
        self.subgroups.may_merge(sub, other)
    }

    fn must_part(&self, sub: u32) -> bool
        ensures { result ≡ machine.must_part self.now sub }
    {
        self.subgroups.know_rows();
        self.subgroups
            .must_part(sub, self.world.local().slow_after as u64)
    }

    /// A job that has to be done before the next event.
    pub fn next_settling(&self) -> Option<GroupJob>
        ensures prepares { IfSome result (λ job. purpose job ≡ Prepares) }
        ensures legal { IfSome result (λ job. legal job self.now ≡ true) }
        ensures settled { IfNone result (self.now.closed ≡ false → is_settled self.now ≡ true) }
    {
        if self.closed {
            return None;
        }
        self.subgroups.know_rows();
        next_settling(&self.world, &self.subgroups)
    }

    /// A job by which more can be told.
    pub fn next_draining(&self) -> Option<GroupJob>
        ensures prepares { IfSome result (λ job. purpose job ≡ Prepares) }
        ensures legal { IfSome result (λ job. legal job self.now ≡ true) }
        ensures prepared { IfNone result ((job : machine.Job) → purpose job ≡ Prepares → legal job self.now ≡ false) }
    {
        if self.closed {
            return None;
        }
        self.subgroups.know_rows();
        next_draining(&self.world, &self.subgroups)
    }

    /// There will be no more jobs.
    pub fn close(&mut self)
        ensures { self.new ≡ after_job machine.Close self.old }
    {
        self.closed = true;
    }

    /// How much each live peer was told in its present session.
    pub fn marks(&self) -> Result<MarkList, NoMemory>
        ensures { IfOk result (λ marks. marks.items ≡ marks_at (λ _. true) 0 self.now.world.peers self.now) }
    {
        marks_of_all(self.alloc, &self.world, &self.members)
    }

    /// The mark of the live peer that asks for all routes by this event, or none.
    pub fn mark_of_asker(&self, event: &Event) -> Result<MarkList, NoMemory>
        ensures { IfOk result (λ marks. marks.items ≡ marks_at (λ s. is_request (event_of event.now) && is_about (event_of event.now) s) 0 self.now.world.peers self.now) }
    {
        marks_of_asker(self.alloc, &self.world, event, &self.members)
    }

    /// Formats a packet for a subgroup. Its number is answered.
    pub fn format(&mut self, sub: u32) -> Result<u64, NoMemory>
        requires { legal (machine.Format sub) self.old ≡ true }
        ensures state { OnOk result (self.new ≡ after_job (machine.Format sub) self.old) }
        ensures made { IfOk result (λ made. made ≡ self.old.made) }
    {
        let alloc = self.alloc;
        let made = self.made;
        let Some(next) = made.checked_add(1) else {
            return Err(NoMemory);
        };
        let mut subgroups = mem::replace(&mut self.subgroups, Subgroups::new(alloc));
        let members = mem::replace(&mut self.members, Vec::new(alloc));
        self.closed = true;
        subgroups.know_rows();
        format(&self.world, made, &mut subgroups, &members, sub)?;
        self.subgroups = subgroups;
        self.members = members;
        self.made = next;
        self.closed = false;
        Ok(made)
    }

    /// The members of the second subgroup move to the first.
    pub fn merge(&mut self, sub: u32, other: u32) -> Result<(), NoMemory>
        requires { legal (machine.Merge sub other) self.old ≡ true }
        ensures { OnOk result (self.new ≡ after_job (machine.Merge sub other) self.old) }
    {
        let alloc = self.alloc;
        let made = self.made;
        let mut subgroups = mem::replace(&mut self.subgroups, Subgroups::new(alloc));
        let mut members = mem::replace(&mut self.members, Vec::new(alloc));
        self.closed = true;
        subgroups.know_rows();
        merge(&self.world, made, &mut subgroups, &mut members, sub, other)?;
        self.subgroups = subgroups;
        self.members = members;
        self.closed = false;
        Ok(())
    }

    /// Those at the front of a queue move to a subgroup of their own, whose number is answered.
    pub fn slow(&mut self, sub: u32) -> Result<u32, NoMemory>
        requires { legal (machine.Slow sub) self.old ≡ true }
        ensures state { OnOk result (self.new ≡ after_job (machine.Slow sub) self.old) }
        ensures number { IfOk result (λ n. n ≡ length self.old.subgroups) }
    {
        let alloc = self.alloc;
        let made = self.made;
        let mut subgroups = mem::replace(&mut self.subgroups, Subgroups::new(alloc));
        let mut members = mem::replace(&mut self.members, Vec::new(alloc));
        self.closed = true;
        subgroups.know_rows();
        let new = slow(alloc, &self.world, made, &mut subgroups, &mut members, sub)?;
        self.subgroups = subgroups;
        self.members = members;
        self.closed = false;
        Ok(new)
    }

    /// Takes an event.
    pub fn take<L: Ledger>(&mut self, event: &Event, steps: &mut Steps<L>) -> Result<(), NoMemory>
        requires legal { legal (machine.Take (event_of event.now)) self.old ≡ true }
        requires form { IsEvent (event_of event.now) }
        ensures state { OnOk result (self.new ≡ after_job (machine.Take (event_of event.now)) self.old) }
        ensures steps { OnOk result (steps.new ≡ steps.old + evaluations (event_of event.now) self.old) }
        ensures most { steps.new ≤ steps.old + evaluations (event_of event.now) self.old }
        ensures counted { steps.old ≤ steps.new }
    {
        let alloc = self.alloc;
        sendable_laws();
        let mut subgroups = mem::replace(&mut self.subgroups, Subgroups::new(alloc));
        let mut members = mem::replace(&mut self.members, Vec::new(alloc));
        self.closed = true;
        take_event(
            alloc,
            &mut self.world,
            &mut subgroups,
            &mut members,
            event,
            steps,
        )?;
        self.subgroups = subgroups;
        self.members = members;
        self.closed = false;
        Ok(())
    }
}
