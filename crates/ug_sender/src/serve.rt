//! What a worker does with its lane.

ghost use Rattle.std.specs.Prelude.{◌≡◌, true, false};
ghost use Rattle.ug_turnstile.specs.Passes.{StartsWith};
ghost use Rattle.ug_sender.specs.Lanes.{IsSamePost, IsAtRest, IsOver, pass_deeds};

use crate::dock::{Dock, Roster};
use crate::lane::Lane;
use crate::pumped::Pumped;
use std::sync::Wait;
use ug_board::{Board, Machine};
use ug_edge::Wire;
use ug_turnstile::Turnstile;

/// Pumps the lane until there is nothing to send, for now or for ever, and answers whether it did anything.
pub(crate) fn pump_out<R: Wait, W: Wire, M: Machine>(
    rt: &R,
    turnstile: &Turnstile<Board<M>>,
    lane: &mut Lane<W, M>,
) -> bool
    requires here { lane.old.pass.turnstile ≡ turnstile.now.id }
    ensures same { IsSamePost lane.old lane.new }
    ensures rests { IsAtRest M.rules lane.new.peer lane.new.pass }
    ensures still { result ≡ false → pass_deeds M.rules lane.new.pass ≡ pass_deeds M.rules lane.old.pass }
    ensures kept { StartsWith (pass_deeds M.rules lane.new.pass) (pass_deeds M.rules lane.old.pass) }
    ensures done { result ≡ true → pass_deeds M.rules lane.new.pass ≡ pass_deeds M.rules lane.old.pass → ⊥ }
{
    let mut has_done = false;
    for _ in rt.forever() {
        let round = lane.pump_round(rt, turnstile);
        match round.end {
            Pumped::Idle | Pumped::Stopped => return has_done || round.packets > 0,
            Pumped::Begun | Pumped::Sent | Pumped::Lost => has_done = true,
        }
    }
    unreachable!()
}

/// Pumps the lane until there is nothing more to send, and naps where there is nothing to send for now.
pub(crate) fn pump_to_end<R: Wait, W: Wire, M: Machine>(
    rt: &R,
    turnstile: &Turnstile<Board<M>>,
    lane: &mut Lane<W, M>,
)
    requires here { lane.old.pass.turnstile ≡ turnstile.now.id }
    ensures same { IsSamePost lane.old lane.new }
    ensures over { IsOver M.rules lane.new.peer lane.new.pass }
{
    for _ in rt.forever() {
        match lane.pump_round(rt, turnstile).end {
            Pumped::Stopped => return,
            Pumped::Idle => turnstile.nap(rt),
            Pumped::Begun | Pumped::Sent | Pumped::Lost => {}
        }
    }
}

/// Pumps the lane until there is nothing to send, for now or for ever, and answers whether it is for ever.
pub(crate) fn pump_for_now<R: Wait, W: Wire, M: Machine>(
    rt: &R,
    turnstile: &Turnstile<Board<M>>,
    lane: &mut Lane<W, M>,
) -> bool
    requires here { lane.old.pass.turnstile ≡ turnstile.now.id }
    ensures same { IsSamePost lane.old lane.new }
    ensures rests { IsAtRest M.rules lane.new.peer lane.new.pass }
    ensures over { result ≡ true → IsOver M.rules lane.new.peer lane.new.pass }
{
    for _ in rt.forever() {
        match lane.pump_round(rt, turnstile).end {
            Pumped::Stopped => return true,
            Pumped::Idle => return false,
            Pumped::Begun | Pumped::Sent | Pumped::Lost => {}
        }
    }
    unreachable!()
}

/// The work of a thread: it serves the lane of this dock until there is nothing more to send. Where there is nothing for now it rings
/// for the builder, and waits until it is woken.
pub fn labour<R: Wait, N: Roster<M::Opening>, W: Wire, M: Machine>(
    rt: &R,
    turnstile: &Turnstile<Board<M>>,
    dock: &Dock<N, W, M>,
)
    requires here { N.turnstile ≡ turnstile.now.id }
{
    for _ in rt.forever() {
        if dock.serve(rt, turnstile) {
            return;
        }
        turnstile.back().ring();
        dock.wait(rt);
    }
}
