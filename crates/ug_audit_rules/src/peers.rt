//! The peers that a report names.

ghost use Rattle.std.specs.Prelude.{◌≡◌, ◌<◌, length, IfSome};
ghost use Rattle.ug_audit_rules.specs.Reports.{peer_names_in, place_from, had_session, where_true};
ghost use Rattle.ug_audit_rules.specs.Kept.{IsAmple};

use ug_types::PeerId;
use ug_world::World;

/// The place of the first peer of that name; None exactly where there is none.
pub fn place_of(world: &World, name: &[u8]) -> Option<PeerId>
    ensures place { result ≡ place_from 0 (peer_names_in world.now) name.now }
    ensures within { IfSome result (λ id. id < length world.now.peers) }
{
    for id in 0..world.peers() {
        if world.peer(id).name.text().as_bytes() == name {
            return Some(id);
        }
    }
    None
}

/// The number of a session that the peer had; None exactly where it had none of that number.
pub fn session_of(world: &World, id: PeerId, number: u64) -> Option<u32>
    requires { id < length world.now.peers }
    ensures { result ≡ where_true (had_session world.now id number) number }
{
    let sessions = world.session(id);
    if number == 0 || number > sessions as u64 {
        return None;
    }
    Some(number as u32)
}

/// How many bytes are more than a line has that tells something: four words of at most 4, 20, 20 and 20 bytes, the name of a
/// peer, and the four spaces between them.
pub fn most_kept(world: &World) -> usize
    ensures { IsAmple world.now result }
{
    let mut longest: usize = 0;
    for id in 0..world.peers() {
        longest = longest.max(world.peer(id).name.text().len());
    }
    longest.saturating_add(69)
}
