//! What is kept of one peer.

ghost use Rattle.std.specs.Prelude.{◌≡◌, ◌<◌, [], Some, true, false, length, slice_get, IfOk, OnOk, IfSome};
ghost use Rattle.ug_types.specs.declared.key.Key as routes;
ghost use Rattle.ug_events.specs.Views.{event_of};
ghost use Rattle.ug_world.specs.declared.peer_state.PeerState as peers;
ghost use Rattle.ug_world.specs.Touches.{is_about};
ghost use Rattle.ug_hearing.specs.Courses.{changes_of};
ghost use Rattle.ug_types.specs.Bytes.{same_bytes};
ghost use Rattle.ug_audit_rules.specs.Held.{last_held};
ghost use Rattle.ug_audit_rules.specs.GroupLogs.{changes_in};
ghost use Rattle.ug_audit_rules.specs.Merges.{IsTold};
ghost use Rattle.ug_audit_rules.specs.Seats.{IsNew, Rises, IsKeyed, IsSameOrNone, IsLonger, IsTurned, IsSeatedUp, log_at};

use crate::group::Group;
use crate::group_log::GroupChange;
use crate::merging::{Teller, merge};
use crate::progress::Progress;
use crate::same_key::are_same;
use crate::since::Since;
use crate::timeline::Timeline;
use std::alloc::Global;
use std::sync::ledger::Ledger;
use ug_events::Event;
use ug_hearing::{Change, KeyLists, ListMap, Lists};
use ug_outbound::{GroupKey, Peer, key_of};
use ug_types::{Name, NoMemory, PeerEnds, PeerId, Steps};
use ug_world::World;

/// The ends of the link to a peer, its sessions, when it was up, and the place of its group. It isn't shared where it has
/// had another group key while it was up, or a filter of its own.
#[derive(Drop)]
pub struct Seat {
    pub ends: PeerEnds,
    pub sessions: Progress,
    pub ups: Vec<Since<bool>>,
    pub group: Option<usize>,
    pub shared: bool,
}

impl Seat {
    /// Before any event.
    pub fn new(alloc: Global, ends: PeerEnds) -> Seat
        ensures { IsNew ends result }
    {
        Seat {
            ends,
            sessions: Progress::new(alloc),
            ups: Vec::new(alloc),
            group: None,
            shared: true,
        }
    }

    /// From a version on the peer is up, or isn't.
    fn rise(&mut self, version: u32, up: bool) -> Result<(), NoMemory>
        ensures ups { OnOk result (Rises version up self.old.ups.items self.new.ups.items) }
        ensures ends { self.new.ends ≡ self.old.ends }
        ensures sessions { self.new.sessions ≡ self.old.sessions }
        ensures group { self.new.group ≡ self.old.group }
        ensures shared { self.new.shared ≡ self.old.shared }
    {
        if was_up(&self.ups) != up {
            self.ups.push(Since { version, value: up })?;
        }
        Ok(())
    }

    /// What the peer should have, of what goes out to its group, and its sessions.
    pub fn timeline(
        &self,
        alloc: Global,
        logs: &[KeyLists<GroupChange>],
    ) -> Result<Timeline, NoMemory>
        ensures changes { IfOk result (λ timeline. (q : routes.Key) → IsTold self.now.ends self.now.ups.items (changes_in (log_at logs.now self.now.group) q) (changes_of timeline.changes q)) }
        ensures begun { IfOk result (λ timeline. timeline.begun.items ≡ self.now.sessions.begun.items) }
        ensures ended { IfOk result (λ timeline. timeline.ended.items ≡ self.now.sessions.ended.items) }
    {
        let changes = self.changes(alloc, logs)?;
        let begun = copy_all(alloc, &self.sessions.begun)?;
        let ended = copy_all(alloc, &self.sessions.ended)?;
        Ok(Timeline {
            changes,
            begun,
            ended,
        })
    }

    /// What the peer should have, of what goes out to its group.
    fn changes(
        &self,
        alloc: Global,
        logs: &[KeyLists<GroupChange>],
    ) -> Result<KeyLists<Change>, NoMemory>
        ensures { IfOk result (λ changes. (q : routes.Key) → IsTold self.now.ends self.now.ups.items (changes_in (log_at logs.now self.now.group) q) (changes_of changes q)) }
    {
        let Some(place) = self.group else {
            let nothing = no_changes(alloc)?;
            return Ok(nothing);
        };
        if place >= logs.len() {
            let nothing = no_changes(alloc)?;
            return Ok(nothing);
        }
        let changes = self.changes_of(alloc, &logs[place])?;
        Ok(changes)
    }

    /// The same, key by key. The keys are those of the group, in the same memory.
    fn changes_of(
        &self,
        alloc: Global,
        outs: &KeyLists<GroupChange>,
    ) -> Result<KeyLists<Change>, NoMemory>
        ensures { IfOk result (λ changes. (q : routes.Key) → IsTold self.now.ends self.now.ups.items (changes_in outs.now q) (changes_of changes q)) }
    {
        let keys = outs.keys().share()?;
        let count = outs.len();
        let mut lists = Lists::new(alloc, count, outs.item_count())?;
        let mut told = Vec::new(alloc);
        let mut teller = Teller::new(self.ends);
        let ups = self.ups.as_slice();
        for place in 0..count {
            let (_, changes) = outs.at(place);
            merge(alloc, &mut teller, ups, changes, &mut told)?;
            lists.add(&mut told)?;
        }
        Ok(KeyLists::over(keys, lists))
    }
}

/// No changes of any key.
fn no_changes(alloc: Global) -> Result<KeyLists<Change>, NoMemory>
    ensures { IfOk result (λ changes. changes ≡ []) }
{
    KeyLists::of_map(alloc, ListMap::new(alloc))
}

/// Whether the peer was up last.
fn was_up(ups: &[Since<bool>]) -> bool
    ensures { result ≡ last_held false ups.now }
{
    let count = ups.len();
    if count == 0 {
        return false;
    }
    ups[count - 1].value
}

/// The peer at a place is as the world of a new version has it.
pub fn turn<L: Ledger>(
    alloc: Global,
    groups: &mut Vec<Group>,
    seat: &mut Seat,
    world: &World,
    id: PeerId,
    event: &Event,
    steps: &mut Steps<L>,
) -> Result<(), NoMemory>
    requires id { id < length world.now.peers }
    requires version { world.now.version < 4294967296 }
    ensures turned { OnOk result ((s : peers.PeerState) → slice_get world.now.peers id ≡ Some s →
        IsTurned world.now s (is_about (event_of event.now) s) groups.new.items seat.old seat.new) }
    ensures groups { OnOk result (IsLonger world.now groups.old.items groups.new.items) }
{
    seat.sessions.mark(world, id)?;
    let asked = is_about(event, world.peer(id));
    if !asked {
        return Ok(());
    }
    if !seat.shared {
        return Ok(());
    }
    if !world.is_up(id) {
        let version = world.version() as u32;
        seat.rise(version, false)?;
        return Ok(());
    }
    seat_up(alloc, groups, seat, world, id, steps)?;
    Ok(())
}

/// The same of one that is up.
fn seat_up<L: Ledger>(
    alloc: Global,
    groups: &mut Vec<Group>,
    seat: &mut Seat,
    world: &World,
    id: PeerId,
    steps: &mut Steps<L>,
) -> Result<(), NoMemory>
    requires id { id < length world.now.peers }
    requires version { world.now.version < 4294967296 }
    ensures up { OnOk result ((s : peers.PeerState) → slice_get world.now.peers id ≡ Some s → seat.new.shared ≡ true → IsSeatedUp world.now s groups.new.items seat.old seat.new) }
    ensures groups { OnOk result (IsLonger world.now groups.old.items groups.new.items) }
    ensures ends { OnOk result (seat.new.ends ≡ seat.old.ends) }
    ensures sessions { OnOk result (seat.new.sessions ≡ seat.old.sessions) }
    ensures shared { OnOk result (seat.new.shared ≡ true → seat.old.shared ≡ true) }
{
    let key = key_of(
        alloc,
        world.local(),
        world.peer(id),
        world.policy(id),
        world.filter(id),
    )?;
    let found = place_for(alloc, groups, seat.group, key, world, steps)?;
    let Some(place) = found else {
        seat.shared = false;
        return Ok(());
    };
    seat.group = Some(place);
    let version = world.version() as u32;
    seat.rise(version, true)?;
    Ok(())
}

/// The place of the group of that key; None where the peer had another.
fn place_for<L: Ledger>(
    alloc: Global,
    groups: &mut Vec<Group>,
    had: Option<usize>,
    key: GroupKey,
    world: &World,
    steps: &mut Steps<L>,
) -> Result<Option<usize>, NoMemory>
    requires version { world.now.version < 4294967296 }
    ensures keyed { IfOk result (λ place. IfSome place (λ g. IsKeyed key (slice_get groups.new.items g))) }
    ensures same { IfOk result (λ place. IfSome place (IsSameOrNone had)) }
    ensures groups { OnOk result (IsLonger world.now groups.old.items groups.new.items) }
{
    let Some(place) = had else {
        let place = group_of(alloc, groups, key, world, steps)?;
        return Ok(Some(place));
    };
    if place >= groups.len() || !are_same(&groups[place].key, &key) {
        return Ok(None);
    }
    Ok(Some(place))
}

/// The place of the group of that key, which begins where there is none.
fn group_of<L: Ledger>(
    alloc: Global,
    groups: &mut Vec<Group>,
    key: GroupKey,
    world: &World,
    steps: &mut Steps<L>,
) -> Result<usize, NoMemory>
    requires version { world.now.version < 4294967296 }
    ensures keyed { IfOk result (λ place. IsKeyed key (slice_get groups.new.items place)) }
    ensures groups { OnOk result (IsLonger world.now groups.old.items groups.new.items) }
{
    if let Some(place) = place_of(groups, &key) {
        return Ok(place);
    }
    let place = add_group(alloc, groups, key, world, steps)?;
    Ok(place)
}

/// The place of a group of that key, which begins.
fn add_group<L: Ledger>(
    alloc: Global,
    groups: &mut Vec<Group>,
    key: GroupKey,
    world: &World,
    steps: &mut Steps<L>,
) -> Result<usize, NoMemory>
    requires version { world.now.version < 4294967296 }
    ensures keyed { IfOk result (λ place. IsKeyed key (slice_get groups.new.items place)) }
    ensures groups { OnOk result (IsLonger world.now groups.old.items groups.new.items) }
{
    let place = groups.len();
    let group = Group::begin(alloc, key, world, steps)?;
    groups.push(group)?;
    Ok(place)
}

/// The place of a group of that key.
fn place_of(groups: &[Group], key: &GroupKey) -> Option<usize>
    ensures { IfSome result (λ place. IsKeyed key.now (slice_get groups.now place)) }
{
    for place in 0..groups.len() {
        if are_same(&groups[place].key, key) {
            return Some(place);
        }
    }
    None
}

/// Whether the event is of this peer.
fn is_about(event: &Event, peer: &Peer) -> bool
    ensures { (s : peers.PeerState) → s.peer ≡ peer.now → result ≡ is_about (event_of event.now) s }
{
    match event {
        Event::Paths { .. } => false,
        Event::Withdraw { .. } => false,
        Event::List { .. } => false,
        Event::Up { peer: name } => has_name(peer, name),
        Event::Down { peer: name } => has_name(peer, name),
        Event::Policy { peer: name, .. } => has_name(peer, name),
        Event::Refresh { peer: name } => has_name(peer, name),
        Event::Receive { peer: name } => has_name(peer, name),
        Event::Orf { peer: name, .. } => has_name(peer, name),
    }
}

fn has_name(peer: &Peer, name: &Name) -> bool
    ensures { result ≡ same_bytes peer.now.name name.now }
{
    peer.name.text().as_bytes() == name.text().as_bytes()
}

/// Equal versions in memory of their own.
fn copy_all(alloc: Global, versions: &[u32]) -> Result<Vec<u32>, NoMemory>
    ensures { IfOk result (λ copy. copy.items ≡ versions.now) }
{
    let mut copy = Vec::with_capacity(alloc, versions.len())?;
    for version in versions {
        copy.push(*version)?;
    }
    Ok(copy)
}
