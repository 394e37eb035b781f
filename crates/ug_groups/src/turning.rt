//! The turn of the peer that an event is about.

ghost use Rattle.std.specs.Prelude.{◌≡◌, ℕ, ◌+◌, ◌<◌, ◌≤◌, List, Some, None, length, slice_get, IfOk, OnOk};
ghost use Rattle.ug_events.specs.Events.{ComesUp};
ghost use Rattle.ug_events.specs.Views.{event_of};
ghost use Rattle.ug_world.specs.World as worlds;
ghost use Rattle.ug_world.specs.World.{key_in};
ghost use Rattle.ug_world.specs.Good.{IsGoodWorld};
ghost use Rattle.ug_world.specs.declared.peer_state.PeerState as peers;
ghost use Rattle.ug_outbound.specs.declared.key.GroupKey as keys;
ghost use Rattle.ug_group_rules.specs.Machine.{Leaves, Starts, Asks, Rekeys, first_joinable};
ghost use Rattle.ug_groups.specs.Sent.{session_of};
ghost use Rattle.ug_groups.specs.Rows.{Row, HasRow, row_at, subs_of};
ghost use Rattle.ug_groups.specs.Entered.{AreKept, asking};
ghost use Rattle.ug_groups.specs.Members as seats;
ghost use Rattle.ug_groups.specs.Kept.{AreSeated};
ghost use Rattle.ug_groups.specs.Turns.{named_by, turn_at, turn_going, asked_by, opened_rows, opened_at, IsBeside, IsTurned, IsAlone, IsSplit};

use crate::Subgroups;
use crate::fresh::{add_fresh, rekey_to};
use crate::leaving::leave;
use crate::member::Member;
use crate::places::{seat_at, sub_at};
use std::alloc::Global;
use std::sync::ledger::Ledger;
use ug_events::Event;
use ug_outbound::{GroupKey, key_of};
use ug_types::{NoMemory, PeerId, PeerList, Steps};
use ug_world::World;

/// The turn of the peer that an event is about, which led to this world: its session starts, it leaves, or its session goes on.
pub fn turn<L: Ledger>(
    alloc: Global,
    world: &World,
    subgroups: &mut Subgroups,
    members: &mut [Member],
    event: &Event,
    peer: PeerId,
    steps: &mut Steps<L>,
) -> Result<(), NoMemory>
    requires about { (name : List ℕ) × (named_by (event_of event.now) ≡ Some name) }
    requires inside { peer < length world.now.peers }
    requires kept { IsBeside peer world.now subgroups.old members.old }
    requires free { (name : List ℕ) → event_of event.now ≡ ComesUp name → seats.sub_at peer members.old ≡ None }
    requires session { (s : peers.PeerState) (g : ℕ) (r : Row) → slice_get world.now.peers peer ≡ Some s → seats.sub_at peer members.old ≡ Some g → row_at g subgroups.old ≡ Some r → session_of (key_in world.now s) ≡ session_of r.sub.key }
    ensures turned { OnOk result ((s : peers.PeerState) → slice_get world.now.peers peer ≡ Some s →
        IsTurned (turn_at (event_of event.now) peer (key_in world.now s) subgroups.old members.old) peer (key_in world.now s) world.now subgroups.old members.old subgroups.new members.new) }
    ensures steps { OnOk result ((s : peers.PeerState) → slice_get world.now.peers peer ≡ Some s →
        steps.new ≡ steps.old + asked_by (turn_at (event_of event.now) peer (key_in world.now s) subgroups.old members.old) world.now subgroups.old (key_in world.now s)) }
    ensures most { (s : peers.PeerState) → slice_get world.now.peers peer ≡ Some s →
        steps.new ≤ steps.old + asked_by (turn_at (event_of event.now) peer (key_in world.now s) subgroups.old members.old) world.now subgroups.old (key_in world.now s) }
    ensures counted { steps.old ≤ steps.new }
{
    match event {
        Event::Up { .. } => start(alloc, world, subgroups, members, peer, steps),
        Event::Down { .. } => {
            depart(subgroups, members, peer);
            Ok(())
        }
        Event::Policy { .. } => go_on(alloc, world, subgroups, members, false, peer, steps),
        Event::Refresh { .. } | Event::Receive { .. } => {
            go_on(alloc, world, subgroups, members, true, peer, steps)
        }
        Event::Orf { message, .. } => {
            go_on(alloc, world, subgroups, members, message.now, peer, steps)
        }
        Event::Paths { .. } | Event::Withdraw { .. } | Event::List { .. } => unreachable!(),
    }
}

/// The peer leaves its subgroup, if it sits in one.
fn depart(subgroups: &mut Subgroups, members: &mut [Member], peer: PeerId)
    requires { AreSeated subgroups.old members.old }
    ensures { (w : worlds.World) (key : keys.GroupKey) → IsBeside peer w subgroups.old members.old → IsTurned Leaves peer key w subgroups.old members.old subgroups.new members.new }
{
    subgroups.know_rows();
    leave(subgroups, members, peer);
}

/// A session of the peer starts. It joins the first fresh subgroup of its key in which End-of-RIB is due, or a new one.
fn start<L: Ledger>(
    alloc: Global,
    world: &World,
    subgroups: &mut Subgroups,
    members: &mut [Member],
    peer: PeerId,
    steps: &mut Steps<L>,
) -> Result<(), NoMemory>
    requires inside { peer < length world.now.peers }
    requires kept { IsBeside peer world.now subgroups.old members.old }
    requires free { seats.sub_at peer members.old ≡ None }
    ensures turned { OnOk result ((s : peers.PeerState) → slice_get world.now.peers peer ≡ Some s → IsTurned Starts peer (key_in world.now s) world.now subgroups.old members.old subgroups.new members.new) }
    ensures steps { OnOk result ((s : peers.PeerState) → slice_get world.now.peers peer ≡ Some s → steps.new ≡ steps.old + asking world.now subgroups.old (key_in world.now s)) }
    ensures most { (s : peers.PeerState) → slice_get world.now.peers peer ≡ Some s → steps.new ≤ steps.old + asking world.now subgroups.old (key_in world.now s) }
    ensures counted { steps.old ≤ steps.new }
{
    subgroups.know_rows();
    let key = key_at(alloc, world, peer)?;
    let sub = open_for(alloc, world, subgroups, key, steps)?;
    subgroups.join(sub, peer)?;
    seat_at(members, peer as usize, Some(sub));
    Ok(())
}

/// The number of the subgroup that a session of this key joins.
fn open_for<L: Ledger>(
    alloc: Global,
    world: &World,
    subgroups: &mut Subgroups,
    key: GroupKey,
    steps: &mut Steps<L>,
) -> Result<u32, NoMemory>
    requires good { IsGoodWorld world.now }
    requires kept { AreKept world.now subgroups.old }
    ensures number { IfOk result (λ g. g ≡ opened_at (first_joinable key 0 (subs_of subgroups.old)) subgroups.old) }
    ensures rows { OnOk result (subgroups.new ≡ opened_rows key world.now (first_joinable key 0 (subs_of subgroups.old)) subgroups.old) }
    ensures steps { OnOk result (steps.new ≡ steps.old + asking world.now subgroups.old key) }
    ensures most { steps.new ≤ steps.old + asking world.now subgroups.old key }
    ensures counted { steps.old ≤ steps.new }
{
    if let Some(sub) = subgroups.first_joinable(&key) {
        return Ok(sub);
    }
    add_fresh(alloc, world, subgroups, key, steps)
}

/// The session of the peer goes on. If it sits in a subgroup and has another key now, or asks for all routes again, it gets a
/// subgroup of its own.
fn go_on<L: Ledger>(
    alloc: Global,
    world: &World,
    subgroups: &mut Subgroups,
    members: &mut [Member],
    asks: bool,
    peer: PeerId,
    steps: &mut Steps<L>,
) -> Result<(), NoMemory>
    requires inside { peer < length world.now.peers }
    requires kept { IsBeside peer world.now subgroups.old members.old }
    requires session { (s : peers.PeerState) (g : ℕ) (r : Row) → slice_get world.now.peers peer ≡ Some s → seats.sub_at peer members.old ≡ Some g → row_at g subgroups.old ≡ Some r → session_of (key_in world.now s) ≡ session_of r.sub.key }
    ensures turned { OnOk result ((s : peers.PeerState) → slice_get world.now.peers peer ≡ Some s →
        IsTurned (turn_going asks peer (key_in world.now s) subgroups.old members.old) peer (key_in world.now s) world.now subgroups.old members.old subgroups.new members.new) }
    ensures steps { OnOk result ((s : peers.PeerState) → slice_get world.now.peers peer ≡ Some s →
        steps.new ≡ steps.old + asked_by (turn_going asks peer (key_in world.now s) subgroups.old members.old) world.now subgroups.old (key_in world.now s)) }
    ensures most { (s : peers.PeerState) → slice_get world.now.peers peer ≡ Some s →
        steps.new ≤ steps.old + asked_by (turn_going asks peer (key_in world.now s) subgroups.old members.old) world.now subgroups.old (key_in world.now s) }
    ensures counted { steps.old ≤ steps.new }
{
    let Some(sub) = sub_at(members, peer as usize) else {
        return Ok(());
    };
    let key = key_at(alloc, world, peer)?;
    if asks {
        return ask(alloc, world, subgroups, members, peer, sub, key, steps);
    }
    if *subgroups.key(sub) == key {
        return Ok(());
    }
    rekey(alloc, world, subgroups, members, peer, sub, key, steps)?;
    Ok(())
}

/// The peer, which sits in that subgroup, gets one of its own with this key, in which all routes are to be told again.
fn ask<L: Ledger>(
    alloc: Global,
    world: &World,
    subgroups: &mut Subgroups,
    members: &mut [Member],
    peer: PeerId,
    sub: u32,
    key: GroupKey,
    steps: &mut Steps<L>,
) -> Result<(), NoMemory>
    requires kept { IsBeside peer world.now subgroups.old members.old }
    requires sits { seats.sub_at peer members.old ≡ Some sub }
    requires session { HasRow sub subgroups.old (λ r. session_of key ≡ session_of r.sub.key) }
    ensures turned { OnOk result (IsTurned Asks peer key world.now subgroups.old members.old subgroups.new members.new) }
    ensures steps { OnOk result (steps.new ≡ steps.old + asking world.now subgroups.old key) }
    ensures most { steps.new ≤ steps.old + asking world.now subgroups.old key }
    ensures counted { steps.old ≤ steps.new }
{
    let own = rekey(alloc, world, subgroups, members, peer, sub, key, steps)?;
    subgroups.refresh(own)
}

/// The peer, which sits in that subgroup, gets one of its own with this key, whose number is answered.
fn rekey<L: Ledger>(
    alloc: Global,
    world: &World,
    subgroups: &mut Subgroups,
    members: &mut [Member],
    peer: PeerId,
    sub: u32,
    key: GroupKey,
    steps: &mut Steps<L>,
) -> Result<u32, NoMemory>
    requires kept { IsBeside peer world.now subgroups.old members.old }
    requires sits { seats.sub_at peer members.old ≡ Some sub }
    requires session { HasRow sub subgroups.old (λ r. session_of key ≡ session_of r.sub.key) }
    ensures turned { OnOk result (IsTurned Rekeys peer key world.now subgroups.old members.old subgroups.new members.new) }
    ensures own { IfOk result (λ g. IsAlone peer g members.new) }
    ensures steps { OnOk result (steps.new ≡ steps.old + asking world.now subgroups.old key) }
    ensures most { steps.new ≤ steps.old + asking world.now subgroups.old key }
    ensures counted { steps.old ≤ steps.new }
{
    let own = split_off(alloc, subgroups, members, peer, sub)?;
    subgroups.know_rows();
    if *subgroups.key(own) == key {
        return Ok(own);
    }
    rekey_to(alloc, world, subgroups, own, key, steps)?;
    Ok(own)
}

/// A peer that has company in its subgroup leaves it with a copy, and else stays. The number of the subgroup that is its own
/// then is answered.
fn split_off(
    alloc: Global,
    subgroups: &mut Subgroups,
    members: &mut [Member],
    peer: PeerId,
    sub: u32,
) -> Result<u32, NoMemory>
    requires seated { AreSeated subgroups.old members.old }
    requires sits { seats.sub_at peer members.old ≡ Some sub }
    ensures { IfOk result (λ own. (w : worlds.World) → IsBeside peer w subgroups.old members.old → IsSplit peer sub own w subgroups.old members.old subgroups.new members.new) }
{
    subgroups.know_rows();
    if subgroups.member_count(sub) <= 1 {
        return Ok(sub);
    }
    let mut leaving = PeerList::new(alloc);
    let Ok(()) = leaving.push(peer) else {
        return Err(NoMemory);
    };
    let own = subgroups.split(sub, &leaving)?;
    seat_at(members, peer as usize, Some(own));
    Ok(own)
}

/// The group key of the peer at a place.
fn key_at(alloc: Global, world: &World, peer: PeerId) -> Result<GroupKey, NoMemory>
    requires { peer < length world.now.peers }
    ensures { IfOk result (λ key. (s : peers.PeerState) → slice_get world.now.peers peer ≡ Some s → key ≡ key_in world.now s) }
{
    key_of(
        alloc,
        world.local(),
        world.peer(peer),
        world.policy(peer),
        world.filter(peer),
    )
}
