//! What a peer should have under keys.

ghost use Rattle.std.specs.Prelude.{◌≡◌, ◌+◌, ◌<◌, ◌≤◌, ◌==◌, length, map, find, slice_get, false, Some, IfOk};
ghost use Rattle.std.specs.Option.{option_map};
ghost use Rattle.ug_types.specs.declared.route.Path as stored;
ghost use Rattle.ug_message.specs.NextHops.{told_to};
ghost use Rattle.ug_world.specs.World.{key_in};
ghost use Rattle.ug_world.specs.Private.{path_at, private_table, wanted};

use std::alloc::Global;
use std::sync::ledger::Ledger;
use ug_message::next_hop;
use ug_outbound::{GroupKey, key_of, outbound};
use ug_types::{AttrParts, Attrs, Key, NoMemory, OutAttrs, Path, PeerEnds, PeerId, Steps};
use ug_world::World;

/// The attributes that the peer at a place should have under each of the keys; None where it should have none. At most
/// one step is counted for each key.
pub fn routes_of<L: Ledger>(
    alloc: Global,
    world: &World,
    id: PeerId,
    keys: &[Key],
    steps: &mut Steps<L>,
) -> Result<Vec<Option<Attrs>>, NoMemory>
    requires { id < length world.now.peers }
    ensures routes { IfOk result (λ routes. routes.items ≡ map (private_table id world.now) keys.now) }
    ensures most { steps.new ≤ steps.old + length keys.now }
    ensures counted { steps.old ≤ steps.new }
{
    let group = key_of(
        alloc,
        world.local(),
        world.peer(id),
        world.policy(id),
        world.filter(id),
    )?;
    let mut routes = Vec::with_capacity(alloc, keys.len())?;
    for key in keys {
        let route = route_of(alloc, world, id, &group, key, steps)?;
        routes.push(route)?;
    }
    Ok(routes)
}

/// The attributes that the peer should have under a key; its group key is given.
fn route_of<L: Ledger>(
    alloc: Global,
    world: &World,
    id: PeerId,
    group: &GroupKey,
    key: &Key,
    steps: &mut Steps<L>,
) -> Result<Option<Attrs>, NoMemory>
    requires id { id < length world.now.peers }
    requires group { option_map (λ s. key_in world.now s) (slice_get world.now.peers id) ≡ Some group.now }
    ensures route { IfOk result (λ route. route ≡ private_table id world.now key.now) }
    ensures most { steps.new ≤ steps.old + 1 }
    ensures counted { steps.old ≤ steps.new }
{
    if !world.is_up(id) {
        return Ok(None);
    }
    let peer = world.peer(id);
    let Some(path) = path_at(peer.add_path, key.id, world.paths(&key.prefix)) else {
        return Ok(None);
    };
    let local = world.local();
    let policies = world.policies();
    let out = outbound(alloc, group, policies, local, &key.prefix, path, steps)?;
    Ok(told_to(out, &peer.ends()))
}

/// What the peers of a group key should have under a key, but for their next hops.
#[tactic(auto, unfolding(ug_world::specs::Private::wanted))]
pub fn wanted<L: Ledger>(
    alloc: Global,
    group: &GroupKey,
    world: &World,
    key: &Key,
    steps: &mut Steps<L>,
) -> Result<Option<OutAttrs>, NoMemory>
    ensures { IfOk result (λ value. value ≡ wanted group.now world.now key.now) }
{
    let Some(path) = path_at(group.add_path, key.id, world.paths(&key.prefix)) else {
        return Ok(None);
    };
    let local = world.local();
    let policies = world.policies();
    let out = outbound(alloc, group, policies, local, &key.prefix, path, steps)?;
    Ok(out)
}

/// The path of a prefix that stands under an identifier.
fn path_at(add_path: bool, id: u32, paths: &[Path]) -> Option<&Path>
    ensures { option_map (λ p. p.now) result ≡ path_at add_path id paths.now }
{
    if !add_path {
        return first_under(id, paths);
    }
    path_of(id, paths)
}

/// The first path, which stands under 0.
fn first_under(id: u32, paths: &[Path]) -> Option<&Path>
    ensures { option_map (λ p. p.now) result ≡ path_at false id paths.now }
{
    if id != 0 || paths.is_empty() {
        return None;
    }
    Some(&paths[0])
}

/// The path of that identifier.
fn path_of(id: u32, paths: &[Path]) -> Option<&Path>
    ensures { option_map (λ p. p.now) result ≡ find (λ (p : stored.Path). p.id == id) paths.now }
{
    for path in paths {
        if path.id == id {
            return Some(path);
        }
    }
    None
}

/// What goes out, with the next hop that the peer is told.
fn told_to(out: Option<OutAttrs>, ends: &PeerEnds) -> Option<Attrs>
    ensures { result ≡ option_map (told_to ends.now) out }
{
    let out = out?;
    Some(told(out, ends))
}

/// The attributes that go out, with the next hop that the peer is told.
pub fn told(out: OutAttrs, ends: &PeerEnds) -> Attrs
    ensures { result ≡ told_to ends.now out }
{
    let next_hop = next_hop(out.nh_kind, out.attrs.parts().next_hop, ends);
    let parts = AttrParts {
        next_hop,
        ..out.attrs.into_parts()
    };
    let Ok(attrs) = Attrs::received(parts) else {
        unreachable!()
    };
    attrs
}
