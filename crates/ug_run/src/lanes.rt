//! The lanes of a run: made of its wires and of the passes of its board, and parted into them again.

ghost use Rattle.std.specs.Prelude.{◌≡◌, ◌+◌, ◌≤◌, ◌||◌, [], ◌∷◌, ◌++◌, length, map, IfOk};
ghost use Rattle.std.specs.List.{list_any};
ghost use Rattle.ug_run.specs.Wires.{AreNewWires};
ghost use Rattle.ug_run.specs.Lanes.{ArePassesFrom, fresh_lanes, AreKept};

use crate::wires::WireList;
use std::alloc::Global;
use std::marker::Model;
use ug_board::{Board, Machine};
use ug_edge::Wire;
use ug_sender::{Buffer, Lane};
use ug_turnstile::PassList;
use ug_types::{NoMemory, Sequence};

/// The lanes of a run, in configured order.
pub type LaneList<W, M> = Sequence<Lane<W, M>>;

/// The memory of lanes. Contracts see of how many.
#[derive(Drop)]
pub struct Room<W: Wire, M: Machine> {
    buffers: Sequence<Buffer>,
    lanes: LaneList<W, M>,
}

impl<W: Wire, M: Machine> Model for Room<W, M> {
    ghost use Rattle.std.specs.Prelude.{◌≡◌, ◌≤◌, ℕ, [], length};

    ghost Value = { ℕ };

    ghost view = { λ r. length r.buffers.items };

    ghost invariant = { λ r. (r.lanes.items ≡ []) × (length r.buffers.items ≤ r.lanes.spare) };
}

/// The memory of so many lanes.
pub(crate) fn room_for<W: Wire, M: Machine>(
    alloc: Global,
    count: usize,
) -> Result<Room<W, M>, NoMemory>
    ensures { IfOk result (λ room. room ≡ count) }
{
    let mut lanes = Sequence::new(alloc);
    lanes.reserve(count)?;
    let buffers = buffers_for(alloc, count)?;
    Ok(Room { buffers, lanes })
}

/// So many buffers.
fn buffers_for(alloc: Global, count: usize) -> Result<Sequence<Buffer>, NoMemory>
    ensures { IfOk result (λ buffers. length buffers.items ≡ count) }
{
    let mut buffers = Sequence::new(alloc);
    for _ in 0..count {
        let buffer = Buffer::new(alloc)?;
        let Ok(()) = buffers.push(buffer) else {
            return Err(NoMemory);
        };
    }
    Ok(buffers)
}

/// A lane over each of these wires, with the pass of its peer. Takes no memory.
pub fn man<W: Wire, M: Machine>(
    room: Room<W, M>,
    wires: WireList<W>,
    passes: PassList<Board<M>>,
) -> LaneList<W, M>
    requires wires { AreNewWires W.sessions W.begun W.faults wires.items }
    requires passes { ArePassesFrom 1 passes.items }
    requires alike { length passes.items ≡ length wires.items }
    requires room { length wires.items ≤ room }
    ensures { result.items ≡ fresh_lanes W.made_for 0 wires.items passes.items }
{
    let Room { buffers, mut lanes } = room;
    let mut buffers = buffers.into_vec().into_iter();
    let mut passes = passes.into_vec().into_iter();
    for wire in wires.into_vec() {
        let Some(buffer) = buffers.next() else {
            unreachable!()
        };
        let Some(pass) = passes.next() else {
            unreachable!()
        };
        let peer = pass.number() - 1;
        let Ok(()) = lanes.push(Lane::over(buffer, wire, pass, peer)) else {
            unreachable!()
        };
    }
    lanes
}

/// The wires and the passes of lanes, for which there is room, in their order, and whether the loss of a session was not
/// taken. Takes no memory.
pub fn part<W: Wire, M: Machine>(
    lanes: LaneList<W, M>,
    wires: &mut WireList<W>,
    passes: &mut PassList<Board<M>>,
) -> bool
    requires no_wires { wires.old.items ≡ [] }
    requires no_passes { passes.old.items ≡ [] }
    requires wires_room { length lanes.items ≤ wires.old.spare }
    requires passes_room { length lanes.items + 1 ≤ passes.old.spare }
    ensures unnoted { result ≡ list_any (λ lane. lane.unnoted) lanes.items }
    ensures wires { wires.new.items ≡ map (λ lane. lane.wire) lanes.items }
    ensures made_for { map W.made_for wires.new.items ≡ map (λ lane. lane.made_for) lanes.items }
    ensures passes { passes.new.items ≡ map (λ lane. lane.pass) lanes.items }
    ensures room { 1 ≤ passes.new.spare }
    ensures kept { AreKept M.rules W.sessions W.begun W.faults lanes.items }
{
    let mut unnoted = false;
    for lane in lanes.into_vec() {
        unnoted = is_either(unnoted, lane.unnoted());
        let (wire, pass) = lane.into_parts();
        put(wires, wire);
        put(passes, pass);
    }
    unnoted
}

/// Whether one of the two holds.
fn is_either(one: bool, other: bool) -> bool
    ensures { result ≡ (one || other) }
{
    one || other
}

/// Adds an item, for which there is room.
pub(crate) fn put<T: Drop>(list: &mut Sequence<T>, item: T)
    requires { 1 ≤ list.old.spare }
    ensures items { list.new.items ≡ list.old.items ++ item ∷ [] }
    ensures spare { list.old.spare ≤ list.new.spare + 1 }
{
    let Ok(()) = list.push(item) else {
        return;
    };
}
