//! Where a peer stands at the end.

ghost use Rattle.std.specs.Prelude.{◌≡◌, ℕ, ◌++◌, OnOk, IfOk, Option};
ghost use Rattle.std.specs.String.{string_bytes};
ghost use Rattle.ug_world.specs.declared.peer_state.PeerState as states;
ghost use Rattle.ug_world.specs.World as worlds;
ghost use Rattle.ug_selfrun.specs.Standings.{IsStanding, HoldsTable};
ghost use Rattle.ug_selfrun.specs.Summary.{peer_text};

use std::alloc::Global;
use ug_check::count_rows;
use ug_edge::MemWire;
use ug_outbound::Peer;
use ug_types::{Capabilities, Name, NoMemory};

/// How many rows the last session of a peer that is up leaves; None where it is down. A session of it is there, and its
/// bytes are messages.
pub(crate) fn standing_of(
    alloc: Global,
    peer: &Peer,
    is_up: bool,
    wire: &MemWire,
) -> Result<Option<usize>, NoMemory>
    ensures { IfOk result (λ standing. (w : worlds.World) (p : ℕ) (s : states.PeerState) → s.peer ≡ peer.now → s.up ≡ is_up → HoldsTable w p s wire.now.sessions → IsStanding w p s.up standing) }
{
    if !is_up {
        return Ok(None);
    }
    let count = wire.sessions();
    if count == 0 {
        return Err(NoMemory);
    }
    let session = Capabilities {
        family: peer.family,
        add_path: peer.add_path,
        extended: peer.extended,
    };
    match count_rows(alloc, session, wire.session(count)) {
        Ok(rows) => Ok(Some(rows)),
        Err(_) => Err(NoMemory),
    }
}

/// Adds the line of a peer.
#[tactic(auto, unfolding(crate::specs::Summary::peer_text))]
pub(crate) fn write_peer(
    out: &mut String,
    name: &Name,
    standing: Option<usize>,
) -> Result<(), NoMemory>
    ensures { OnOk result (string_bytes out.new ≡ string_bytes out.old ++ peer_text name.now standing) }
{
    let name = name.text();
    match standing {
        None => write!(out, "peer {name} down\n")?,
        Some(count) => write!(out, "peer {name} rows {count}\n")?,
    }
    Ok(())
}
