//! Peers and their group keys.

ghost use Rattle.std.specs.Prelude.{◌≡◌, ◌<◌, Some, length, slice_get, IfOk};
ghost use Rattle.std.specs.List.{list_any, filter};
ghost use Rattle.std.specs.Option.{option_map};
ghost use Rattle.ug_commands.specs.Groups.{member_in, members_of, has_key, names_with};

use crate::member::Member;
use std::alloc::Global;
use ug_outbound::{GroupKey, key_of};
use ug_types::{Name, NoMemory, PeerId};
use ug_world::World;

/// All peers in configured order.
pub fn members_of(alloc: Global, world: &World) -> Result<Vec<Member>, NoMemory>
    ensures { IfOk result (λ members. members.items ≡ members_of world.now) }
{
    let mut members = Vec::new(alloc);
    for id in 0..world.peers() {
        members.push(member_at(alloc, world, id)?)?;
    }
    Ok(members)
}

fn member_at(alloc: Global, world: &World, id: PeerId) -> Result<Member, NoMemory>
    requires { id < length world.now.peers }
    ensures { IfOk result (λ member. option_map (member_in world.now) (slice_get world.now.peers id) ≡ Some member) }
{
    let peer = world.peer(id);
    let key = key_of(
        alloc,
        world.local(),
        peer,
        world.policy(id),
        world.filter(id),
    )?;
    Ok(Member {
        name: peer.name.copy(alloc)?,
        key,
    })
}

/// Whether one of these has that key.
pub fn is_key_among(members: &[Member], key: &GroupKey) -> bool
    ensures { result ≡ list_any (has_key key.now) members.now }
{
    for member in members {
        if member.key == *key {
            return true;
        }
    }
    false
}

/// The names of those of that key.
pub fn names_with(alloc: Global, key: &GroupKey, members: &[Member]) -> Result<Vec<Name>, NoMemory>
    ensures { IfOk result (λ names. names.items ≡ names_with key.now members.now) }
{
    let mut names = Vec::new(alloc);
    for member in members {
        if member.key == *key {
            names.push(member.name.copy(alloc)?)?;
        }
    }
    Ok(names)
}
