//! Event: what the world takes in, and what comes of it for subgroups and peers.

ghost use Rattle.std.specs.Prelude.{◌≡◌, ℕ, ◌+◌, ◌<◌, ◌≤◌, ◌⊎◌, Bool, false, List, Some, None, length, slice_get, OnOk, OnErr};
ghost use Rattle.std.specs.Option.{option_map};
ghost use Rattle.ug_events.specs.Events.{IsEvent};
ghost use Rattle.ug_events.specs.Views.{event_of};
ghost use Rattle.ug_world.specs.Verdicts.{verdict};
ghost use Rattle.ug_world.specs.After.{after};
ghost use Rattle.ug_world.specs.Kept.{IsPlaceOf};
ghost use Rattle.ug_group_rules.specs.Machine.{take_event};
ghost use Rattle.ug_group_rules.specs.Evaluations.{evaluations};
ghost use Rattle.ug_groups.specs.Members.{system};
ghost use Rattle.ug_groups.specs.Kept.{IsKept};
ghost use Rattle.ug_groups.specs.Turns.{named_by, HasMoreRoom};

use crate::Subgroups;
use crate::entering::enter;
use crate::member::Member;
use crate::turning::turn;
use std::alloc::Global;
use std::sync::ledger::Ledger;
use ug_events::Event;
use ug_types::{Name, NoMemory, PeerId, Steps};
use ug_world::World;

/// Takes an event. For each distinct group key and each path that it touches, and for a key that no subgroup had with all paths,
/// the outbound rules are run once. After running out of memory nothing is said of subgroups and members.
pub(crate) fn take_event<L: Ledger>(
    alloc: Global,
    world: &mut World,
    subgroups: &mut Subgroups,
    members: &mut Vec<Member>,
    event: &Event,
    steps: &mut Steps<L>,
) -> Result<(), NoMemory>
    requires accepted { verdict world.old (event_of event.now) ≡ None }
    requires form { IsEvent (event_of event.now) }
    requires version { world.old.version < 4294967295 }
    requires kept { (closed : Bool) × (made : ℕ) × (closed ≡ false) × IsKept world.old closed made subgroups.old members.old.items }
    ensures state { OnOk result ((closed : Bool) (made : ℕ) → system world.new closed made subgroups.new members.new.items ≡ take_event (event_of event.now) (system world.old closed made subgroups.old members.old.items)) }
    ensures kept { OnOk result ((closed : Bool) (made : ℕ) → IsKept world.old closed made subgroups.old members.old.items → IsKept world.new closed made subgroups.new members.new.items) }
    ensures err { OnErr result ((world.new ≡ world.old) ⊎ (world.new ≡ after world.old (event_of event.now))) }
    ensures steps { OnOk result ((closed : Bool) (made : ℕ) → steps.new ≡ steps.old + evaluations (event_of event.now) (system world.old closed made subgroups.old members.old.items)) }
    ensures most { (closed : Bool) (made : ℕ) → steps.new ≤ steps.old + evaluations (event_of event.now) (system world.old closed made subgroups.old members.old.items) }
    ensures counted { steps.old ≤ steps.new }
{
    let Some(name) = peer_of(event) else {
        return take_routes(alloc, world, subgroups, members, event, steps);
    };
    let Some(peer) = world.peer_named(name) else {
        unreachable!()
    };
    take_turn(alloc, world, subgroups, members, event, peer, steps)
}

/// The name of the peer that an event is about.
pub(crate) fn peer_of(event: &Event) -> Option<&Name>
    ensures { option_map (λ n. n.now) result ≡ named_by (event_of event.now) }
{
    match event {
        Event::Up { peer }
        | Event::Down { peer }
        | Event::Policy { peer, .. }
        | Event::Refresh { peer }
        | Event::Receive { peer }
        | Event::Orf { peer, .. } => Some(peer),
        Event::Paths { .. } | Event::Withdraw { .. } | Event::List { .. } => None,
    }
}

/// Takes an event that is about no peer.
fn take_routes<L: Ledger>(
    alloc: Global,
    world: &mut World,
    subgroups: &mut Subgroups,
    members: &[Member],
    event: &Event,
    steps: &mut Steps<L>,
) -> Result<(), NoMemory>
    requires routes { named_by (event_of event.now) ≡ None }
    requires accepted { verdict world.old (event_of event.now) ≡ None }
    requires form { IsEvent (event_of event.now) }
    requires version { world.old.version < 4294967295 }
    requires kept { (closed : Bool) × (made : ℕ) × (closed ≡ false) × IsKept world.old closed made subgroups.old members.now }
    ensures state { OnOk result ((closed : Bool) (made : ℕ) → system world.new closed made subgroups.new members.now ≡ take_event (event_of event.now) (system world.old closed made subgroups.old members.now)) }
    ensures kept { OnOk result ((closed : Bool) (made : ℕ) → IsKept world.old closed made subgroups.old members.now → IsKept world.new closed made subgroups.new members.now) }
    ensures err { OnErr result ((world.new ≡ world.old) ⊎ (world.new ≡ after world.old (event_of event.now))) }
    ensures steps { OnOk result ((closed : Bool) (made : ℕ) → steps.new ≡ steps.old + evaluations (event_of event.now) (system world.old closed made subgroups.old members.now)) }
    ensures most { (closed : Bool) (made : ℕ) → steps.new ≤ steps.old + evaluations (event_of event.now) (system world.old closed made subgroups.old members.now) }
    ensures counted { steps.old ≤ steps.new }
{
    subgroups.know_rows();
    enter(alloc, world, subgroups, event, steps)?;
    subgroups.know_rows();
    subgroups.count()?;
    Ok(())
}

/// Takes an event that is about the peer at that place.
fn take_turn<L: Ledger>(
    alloc: Global,
    world: &mut World,
    subgroups: &mut Subgroups,
    members: &mut [Member],
    event: &Event,
    peer: PeerId,
    steps: &mut Steps<L>,
) -> Result<(), NoMemory>
    requires named { (name : List ℕ) × (named_by (event_of event.now) ≡ Some name) × IsPlaceOf world.old.peers name peer }
    requires accepted { verdict world.old (event_of event.now) ≡ None }
    requires form { IsEvent (event_of event.now) }
    requires version { world.old.version < 4294967295 }
    requires kept { (closed : Bool) × (made : ℕ) × (closed ≡ false) × IsKept world.old closed made subgroups.old members.old }
    ensures state { OnOk result ((closed : Bool) (made : ℕ) → system world.new closed made subgroups.new members.new ≡ take_event (event_of event.now) (system world.old closed made subgroups.old members.old)) }
    ensures kept { OnOk result ((closed : Bool) (made : ℕ) → IsKept world.old closed made subgroups.old members.old → IsKept world.new closed made subgroups.new members.new) }
    ensures err { OnErr result ((world.new ≡ world.old) ⊎ (world.new ≡ after world.old (event_of event.now))) }
    ensures steps { OnOk result ((closed : Bool) (made : ℕ) → steps.new ≡ steps.old + evaluations (event_of event.now) (system world.old closed made subgroups.old members.old)) }
    ensures most { (closed : Bool) (made : ℕ) → steps.new ≤ steps.old + evaluations (event_of event.now) (system world.old closed made subgroups.old members.old) }
    ensures counted { steps.old ≤ steps.new }
{
    subgroups.know_rows();
    make_room(world, members, peer)?;
    enter(alloc, world, subgroups, event, steps)?;
    turn(alloc, world, subgroups, members, event, peer, steps)?;
    subgroups.know_rows();
    subgroups.count()?;
    Ok(())
}

/// There is room for one more session of the peer.
fn make_room(world: &World, members: &mut [Member], peer: PeerId) -> Result<(), NoMemory>
    requires inside { peer < length world.now.peers }
    requires all { length members.old ≡ length world.now.peers }
    ensures { OnOk result ((n : ℕ) → option_map (λ s. s.sessions) (slice_get world.now.peers peer) ≡ Some n → HasMoreRoom peer (n + 1) members.old members.new) }
{
    let sessions = world.session(peer);
    let member = &mut members[peer as usize];
    make_room_for(member, sessions as usize + 1)
}

/// There is room for so many sessions.
fn make_room_for(member: &mut Member, sessions: usize) -> Result<(), NoMemory>
    ensures begun { member.new.begun ≡ member.old.begun }
    ensures unlost { member.new.unlost.items ≡ member.old.unlost.items }
    ensures handed { member.new.handed ≡ member.old.handed }
    ensures sub { member.new.sub ≡ member.old.sub }
    ensures room { OnOk result (sessions ≤ member.new.begun + member.new.unlost.spare) }
{
    let begun = member.begun as usize;
    member.unlost.reserve(sessions.saturating_sub(begun))
}
