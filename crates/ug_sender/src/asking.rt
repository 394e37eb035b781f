//! Steps of a lane on the board, each in a turn of its own.

ghost use Rattle.std.specs.Prelude.{◌≡◌, ◌≤◌, ◌⊎◌, length, true, false, Some};
ghost use Rattle.ug_board.specs.declared.steps.LaneSaid.TheVariants.{Idle, Stop};
ghost use Rattle.ug_board.specs.Rules.{buffer_size};
ghost use Rattle.ug_board.specs.History.{state_of};
ghost use Rattle.ug_turnstile.specs.Passes.{Adds, IsSamePass, StartsWith};
ghost use Rattle.ug_sender.specs.Lanes.{AreOfPeer, IsOfPeer, IdlesAt, StopsAt, IsOver, MayNotLoseAt, IsPassedOver, deeds_at, pass_deeds};
ghost use Rattle.ug_sender.specs.Tellings.{TellsNext, TellsLoss};

use std::sync::Wait;
use ug_board::{Board, LaneSaid, LaneStep, Machine};
use ug_turnstile::{Pass, Turnstile};
use ug_types::PeerId;

/// What is next for the peer.
pub(crate) fn next_on<M: Machine>(
    board: &mut Board<M>,
    number: u32,
    peer: PeerId,
    buf: &mut [u8],
) -> LaneSaid
    requires own { AreOfPeer peer number board.old.history }
    requires room { buffer_size ≤ length buf.old }
    ensures opening { board.new.opening ≡ board.old.opening }
    ensures adds { Adds (λ entry. entry.pass) number board.old.history board.new.history }
    ensures own { AreOfPeer peer number board.new.history }
    ensures told { TellsNext result buf.new (deeds_at M.rules (Some board.old.opening) number board.old.history) (deeds_at M.rules (Some board.new.opening) number board.new.history) }
    ensures idle { result ≡ Idle → IdlesAt M.rules (Some board.new.opening) peer board.new.history }
    ensures over { result ≡ Stop → (board.new.spent ≡ true) ⊎ StopsAt M.rules (Some board.new.opening) peer board.new.history }
    ensures unspent { result ≡ Idle → board.new.spent ≡ false }
    ensures spent { board.new.spent ≡ board.old.spent }
{
    board.lane(number, LaneStep::Next { peer }, buf)
}

/// Whether the loss of a session to the peer is going to be noted.
fn may_lose_on<M: Machine>(board: &Board<M>, peer: PeerId, session: u32) -> bool
    ensures spent { board.now.spent ≡ true → result ≡ false }
    ensures may { board.now.spent ≡ false → result ≡ M.rules.may_lose peer session (state_of M.rules board.now) }
{
    if board.is_spent() {
        return false;
    }
    board.machine().may_lose(peer, session)
}

/// The loss of a session to the peer, and whether it is noted.
fn lose_on<M: Machine>(
    board: &mut Board<M>,
    number: u32,
    peer: PeerId,
    session: u32,
    buf: &mut [u8],
) -> bool
    requires own { AreOfPeer peer number board.old.history }
    requires room { buffer_size ≤ length buf.old }
    ensures opening { board.new.opening ≡ board.old.opening }
    ensures adds { Adds (λ entry. entry.pass) number board.old.history board.new.history }
    ensures own { AreOfPeer peer number board.new.history }
    ensures spent { board.new.spent ≡ board.old.spent }
    ensures told { TellsLoss result session (deeds_at M.rules (Some board.old.opening) number board.old.history) (deeds_at M.rules (Some board.new.opening) number board.new.history) }
    ensures passed { result ≡ false → (board.new.spent ≡ true) ⊎ MayNotLoseAt M.rules (Some board.new.opening) peer session board.new.history }
{
    let is_noted = may_lose_on(board, peer, session);
    let _said = board.lane(number, LaneStep::Lost { peer, session }, buf);
    is_noted
}

/// Asks what is next for the peer.
pub(crate) fn ask_next<M: Machine, R: Wait>(
    rt: &R,
    turnstile: &Turnstile<Board<M>>,
    pass: &mut Pass<Board<M>>,
    peer: PeerId,
    buf: &mut [u8],
) -> LaneSaid
    requires here { pass.old.turnstile ≡ turnstile.now.id }
    requires free { pass.old.holds ≡ false }
    requires own { IsOfPeer peer pass.old }
    requires room { buffer_size ≤ length buf.old }
    ensures same { IsSamePass pass.old pass.new }
    ensures free { pass.new.holds ≡ false }
    ensures own { IsOfPeer peer pass.new }
    ensures seen { StartsWith pass.new.seen pass.old.seen }
    ensures told { TellsNext result buf.new (pass_deeds M.rules pass.old) (pass_deeds M.rules pass.new) }
    ensures idle { result ≡ Idle → IdlesAt M.rules pass.new.root peer pass.new.seen }
    ensures over { result ≡ Stop → IsOver M.rules peer pass.new }
    ensures unspent { result ≡ Idle → pass.new.spent ≡ false }
{
    let number = pass.number();
    let mut turn = turnstile.take(rt, pass);
    let said = next_on(turn.state(), number, peer, buf);
    turnstile.give(pass, turn);
    said
}

/// Asks that the loss of a session to the peer be noted, and answers whether it was.
pub(crate) fn ask_loss<M: Machine, R: Wait>(
    rt: &R,
    turnstile: &Turnstile<Board<M>>,
    pass: &mut Pass<Board<M>>,
    peer: PeerId,
    session: u32,
    buf: &mut [u8],
) -> bool
    requires here { pass.old.turnstile ≡ turnstile.now.id }
    requires free { pass.old.holds ≡ false }
    requires own { IsOfPeer peer pass.old }
    requires room { buffer_size ≤ length buf.old }
    ensures same { IsSamePass pass.old pass.new }
    ensures free { pass.new.holds ≡ false }
    ensures own { IsOfPeer peer pass.new }
    ensures seen { StartsWith pass.new.seen pass.old.seen }
    ensures told { TellsLoss result session (pass_deeds M.rules pass.old) (pass_deeds M.rules pass.new) }
    ensures passed { result ≡ false → IsPassedOver M.rules peer session pass.new }
{
    let number = pass.number();
    let mut turn = turnstile.take(rt, pass);
    let is_noted = lose_on(turn.state(), number, peer, session, buf);
    turnstile.give(pass, turn);
    is_noted
}
