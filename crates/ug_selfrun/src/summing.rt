//! The summary of a run.

ghost use Rattle.std.specs.Prelude.{◌≡◌, ℕ, ◌++◌, List, Option, map, OnOk, IfOk};
ghost use Rattle.std.specs.String.{string_bytes};
ghost use Rattle.ug_world.specs.World as worlds;
ghost use Rattle.ug_selfrun.specs.Standings.{HoldTables, AreStandings};
ghost use Rattle.ug_selfrun.specs.Summary.{head_text, peers_text, HasText};

use crate::replaying::Replayed;
use crate::standing::{standing_of, write_peer};
use std::alloc::Global;
use ug_edge::MemWire;
use ug_report::write_counts;
use ug_types::NoMemory;
use ug_world::World;

/// The summary of a run that came to this: the number of its workload, how many events were accepted and refused, and for
/// each peer that it is down, or how many rows the bytes on its wire leave.
pub fn summary(
    alloc: Global,
    number: u64,
    last: &Replayed,
    wires: &[MemWire],
) -> Result<String, NoMemory>
    requires { HoldTables last.now.world 0 last.now.world.peers (map (λ wire. wire.sessions) wires.now) }
    ensures { IfOk result (λ text. HasText number last.now.world last.now.accepted last.now.refused (string_bytes text)) }
{
    let mut text = String::new(alloc);
    write_head(&mut text, number, last)?;
    write_peers(alloc, &mut text, &last.world, wires)?;
    Ok(text)
}

/// Adds the first line.
#[tactic(auto, unfolding(crate::specs::Summary::head_text))]
fn write_head(out: &mut String, number: u64, last: &Replayed) -> Result<(), NoMemory>
    ensures { OnOk result (string_bytes out.new ≡ string_bytes out.old ++ head_text number last.now.accepted last.now.refused) }
{
    write!(out, "selfrun {number} ")?;
    write_counts(out, last.accepted, last.refused)?;
    Ok(())
}

/// Adds a line for each peer.
fn write_peers(
    alloc: Global,
    out: &mut String,
    world: &World,
    wires: &[MemWire],
) -> Result<(), NoMemory>
    requires { HoldTables world.now 0 world.now.peers (map (λ wire. wire.sessions) wires.now) }
    ensures { OnOk result ((standings : List (Option ℕ)) × AreStandings world.now 0 world.now.peers standings × (string_bytes out.new ≡ string_bytes out.old ++ peers_text world.now.peers standings)) }
{
    for place in 0..world.peers() {
        let Some(wire) = wires.get(place as usize) else {
            return Err(NoMemory);
        };
        let peer = world.peer(place);
        let standing = standing_of(alloc, peer, world.is_up(place), wire)?;
        write_peer(out, &peer.name, standing)?;
    }
    Ok(())
}
