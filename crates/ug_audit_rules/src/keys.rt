//! The keys under which an event can change what a peer should have.

ghost use Rattle.std.specs.Prelude.{◌≡◌, ◌<◌, Some, length, slice_get, IfOk};
ghost use Rattle.std.specs.Option.{option_map};
ghost use Rattle.ug_events.specs.Views.{event_of};
ghost use Rattle.ug_audit_rules.specs.Touched.{keys_at, keys_where};

use std::alloc::Global;
use ug_events::Event;
use ug_outbound::Peer;
use ug_types::{Key, Name, NoMemory, PeerId};
use ug_world::World;

/// The keys that a world has of those under which an event can change what the peer should have: those of its prefix, or
/// all where the event is about the peer, or about a prefix list.
pub fn keys_at(
    alloc: Global,
    world: &World,
    id: PeerId,
    event: &Event,
) -> Result<Vec<Key>, NoMemory>
    requires { id < length world.now.peers }
    ensures { IfOk result (λ keys. option_map (λ s. keys_at (event_of event.now) s.peer world.now) (slice_get world.now.peers id) ≡ Some keys.items) }
{
    let keys = keys_for(alloc, world, world.peer(id), event)?;
    Ok(keys)
}

fn keys_for(alloc: Global, world: &World, peer: &Peer, event: &Event) -> Result<Vec<Key>, NoMemory>
    ensures { IfOk result (λ keys. keys.items ≡ keys_at (event_of event.now) peer.now world.now) }
{
    match event {
        Event::Paths { prefix, .. } => world.keys_to(alloc, peer.add_path, prefix),
        Event::Withdraw { prefix } => world.keys_to(alloc, peer.add_path, prefix),
        Event::List { .. } => world.keys(alloc, peer.add_path),
        Event::Up { peer: name } => keys_where(alloc, world, peer, name),
        Event::Down { peer: name } => keys_where(alloc, world, peer, name),
        Event::Policy { peer: name, .. } => keys_where(alloc, world, peer, name),
        Event::Refresh { peer: name } => keys_where(alloc, world, peer, name),
        Event::Receive { peer: name } => keys_where(alloc, world, peer, name),
        Event::Orf { peer: name, .. } => keys_where(alloc, world, peer, name),
    }
}

/// All keys, where the peer has that name.
fn keys_where(alloc: Global, world: &World, peer: &Peer, name: &Name) -> Result<Vec<Key>, NoMemory>
    ensures { IfOk result (λ keys. keys.items ≡ keys_where name.now peer.now world.now) }
{
    if peer.name.text().as_bytes() != name.text().as_bytes() {
        return Ok(Vec::new(alloc));
    }
    world.keys(alloc, peer.add_path)
}
