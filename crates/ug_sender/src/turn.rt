//! What a lane takes in one turn: packets, as long as there are some and there is room for them.

ghost use Rattle.std.specs.Prelude.{◌≡◌, ◌+◌, ◌<◌, ◌≤◌, ◌⊎◌, length, true, false, Some, None, IsSome};
ghost use Rattle.ug_board.specs.Rules.{buffer_size};
ghost use Rattle.ug_turnstile.specs.Passes.{Adds, IsSamePass, StartsWith};
ghost use Rattle.ug_sender.specs.declared.turn.Ending.TheVariants.{Idle, Stop, More};
ghost use Rattle.ug_sender.specs.declared.turn.Next.TheVariants.{Last};
ghost use Rattle.ug_sender.specs.Lanes.{AreOfPeer, IsOfPeer, IdlesAt, StopsAt, IsOver, deeds_at, pass_deeds};
ghost use Rattle.ug_sender.specs.Rounds.{TellsStep, TellsTurn, begun_by};

use crate::asking::next_on;
use crate::open::is_open;
use std::sync::Wait;
use ug_board::{Board, LaneSaid, Machine};
use ug_turnstile::{Pass, Turnstile};
use ug_types::PeerId;

/// How many packets a lane takes in one turn at most, so that the other lanes get theirs.
const PACKETS_OF_A_TURN: usize = 8192;

/// The bytes of the longest message: a turn goes on as long as there is room for one.
pub(crate) const LONGEST_MESSAGE: usize = 65535;

/// What ended a turn of a lane.
#[derive(Clone, Copy, PartialEq, Eq)]
pub(crate) enum Ending {
    /// This session begins.
    Begun { session: u32 },
    /// There is nothing more to send for now.
    Idle,
    /// There is nothing more to send.
    Stop,
    /// The buffer is full, or it was the other lanes' turn: there may be more.
    More,
}

impl Ending {
    /// Whether a session begins.
    pub(crate) fn is_begun(self) -> bool
        ensures yes { result ≡ true → IsSome (begun_by self) }
        ensures no { result ≡ false → begun_by self ≡ None }
    {
        match self {
            Ending::Begun { .. } => true,
            Ending::Idle | Ending::Stop | Ending::More => false,
        }
    }
}

/// What a turn of a lane came to.
#[derive(Clone, Copy, PartialEq, Eq)]
pub(crate) struct Taken {
    /// How many packets were handed out.
    pub packets: usize,
    /// How many bytes of them the open session gets. They stand at the front of the buffer.
    pub filled: usize,
    pub ending: Ending,
}

/// What is next within a turn.
#[derive(Clone, Copy, PartialEq, Eq)]
pub(crate) enum Next {
    /// A packet, of which the open session gets so many bytes: none where it is of another session.
    Packet { len: usize },
    /// What ends the turn.
    Last(Ending),
}

/// What is next for the peer. What the open session gets of a packet stands behind the bytes that fill the buffer.
fn step_on<M: Machine>(
    board: &mut Board<M>,
    number: u32,
    peer: PeerId,
    latest: Option<u32>,
    buf: &mut [u8],
    filled: usize,
) -> Next
    requires own { AreOfPeer peer number board.old.history }
    requires room { filled + buffer_size ≤ length buf.old }
    ensures opening { board.new.opening ≡ board.old.opening }
    ensures adds { Adds (λ entry. entry.pass) number board.old.history board.new.history }
    ensures own { AreOfPeer peer number board.new.history }
    ensures told { TellsStep latest filled result buf.old buf.new (deeds_at M.rules (Some board.old.opening) number board.old.history) (deeds_at M.rules (Some board.new.opening) number board.new.history) }
    ensures idle { result ≡ Last Idle → IdlesAt M.rules (Some board.new.opening) peer board.new.history }
    ensures over { result ≡ Last Stop → (board.new.spent ≡ true) ⊎ StopsAt M.rules (Some board.new.opening) peer board.new.history }
    ensures unspent { result ≡ Last Idle → board.new.spent ≡ false }
    ensures ended { result ≡ Last More → ⊥ }
    ensures spent { board.new.spent ≡ board.old.spent }
{
    let (_, room) = buf.split_at_mut(filled);
    match next_on(board, number, peer, room) {
        LaneSaid::Hand { session, len, .. } => {
            if is_open(latest, session) {
                Next::Packet { len }
            } else {
                Next::Packet { len: 0 }
            }
        }
        LaneSaid::Begun { session } => Next::Last(Ending::Begun { session }),
        LaneSaid::Idle => Next::Last(Ending::Idle),
        LaneSaid::Stop => Next::Last(Ending::Stop),
        LaneSaid::Noted => unreachable!(),
    }
}

/// What there is for the peer, as long as there is room for a further packet.
fn turn_on<M: Machine>(
    board: &mut Board<M>,
    number: u32,
    peer: PeerId,
    latest: Option<u32>,
    buf: &mut [u8],
) -> Taken
    requires own { AreOfPeer peer number board.old.history }
    ensures opening { board.new.opening ≡ board.old.opening }
    ensures adds { Adds (λ entry. entry.pass) number board.old.history board.new.history }
    ensures own { AreOfPeer peer number board.new.history }
    ensures told { TellsTurn latest result buf.new (deeds_at M.rules (Some board.old.opening) number board.old.history) (deeds_at M.rules (Some board.new.opening) number board.new.history) }
    ensures idle { result.ending ≡ Idle → IdlesAt M.rules (Some board.new.opening) peer board.new.history }
    ensures over { result.ending ≡ Stop → (board.new.spent ≡ true) ⊎ StopsAt M.rules (Some board.new.opening) peer board.new.history }
    ensures unspent { result.ending ≡ Idle → board.new.spent ≡ false }
    ensures more { result.ending ≡ More → buffer_size ≤ length buf.old → 0 < result.packets }
    ensures spent { board.new.spent ≡ board.old.spent }
{
    let mut filled = 0;
    for packets in 0..PACKETS_OF_A_TURN {
        if buf.len() - filled < LONGEST_MESSAGE {
            return Taken {
                packets,
                filled,
                ending: Ending::More,
            };
        }
        match step_on(board, number, peer, latest, buf, filled) {
            Next::Packet { len } => filled += len,
            Next::Last(ending) => {
                return Taken {
                    packets,
                    filled,
                    ending,
                };
            }
        }
    }
    Taken {
        packets: PACKETS_OF_A_TURN,
        filled,
        ending: Ending::More,
    }
}

/// Takes what there is for the peer in one turn.
pub(crate) fn take_turn<M: Machine, R: Wait>(
    rt: &R,
    turnstile: &Turnstile<Board<M>>,
    pass: &mut Pass<Board<M>>,
    peer: PeerId,
    latest: Option<u32>,
    buf: &mut [u8],
) -> Taken
    requires here { pass.old.turnstile ≡ turnstile.now.id }
    requires free { pass.old.holds ≡ false }
    requires own { IsOfPeer peer pass.old }
    ensures same { IsSamePass pass.old pass.new }
    ensures free { pass.new.holds ≡ false }
    ensures own { IsOfPeer peer pass.new }
    ensures seen { StartsWith pass.new.seen pass.old.seen }
    ensures told { TellsTurn latest result buf.new (pass_deeds M.rules pass.old) (pass_deeds M.rules pass.new) }
    ensures idle { result.ending ≡ Idle → IdlesAt M.rules pass.new.root peer pass.new.seen }
    ensures over { result.ending ≡ Stop → IsOver M.rules peer pass.new }
    ensures unspent { result.ending ≡ Idle → pass.new.spent ≡ false }
    ensures more { result.ending ≡ More → buffer_size ≤ length buf.old → 0 < result.packets }
{
    let number = pass.number();
    let mut turn = turnstile.take(rt, pass);
    let taken = turn_on(turn.state(), number, peer, latest, buf);
    turnstile.give(pass, turn);
    taken
}
