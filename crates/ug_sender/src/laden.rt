//! A lane that took packets which its wire has not got yet.

ghost use Rattle.std.specs.Prelude.{◌≡◌, ◌+◌, ◌<◌, ◌≤◌, ◌⊎◌, length, take, drop, true, false, None, IsSome};
ghost use Rattle.ug_edge.specs.Told.{Rose};
ghost use Rattle.ug_board.specs.Rules.{buffer_size};
ghost use Rattle.ug_turnstile.specs.Passes.{IsSamePass, StartsWith};
ghost use Rattle.ug_sender.specs.declared.turn.Ending.TheVariants.{Idle, Stop, More};
ghost use Rattle.ug_sender.specs.Lanes.{IdlesAt, IsAtRest, IsOfPeer, IsOver, IsSamePost, pass_deeds};
ghost use Rattle.ug_sender.specs.Loads.{MayLoad, MissesLossOf, TellsFill, TellsLoad, TellsSend, unladen};
ghost use Rattle.ug_sender.specs.Rounds.{TellsTurn, begun_by};

use crate::lane::{Lane, open_after, with_calls};
use crate::sending::{begin_taken, send_taken};
use crate::turn::{Ending, LONGEST_MESSAGE, Taken, take_turn};
use std::marker::Model;
use std::sync::Wait;
use ug_board::{Board, Machine};
use ug_edge::Wire;
use ug_turnstile::{Pass, Turnstile};
use ug_types::PeerId;

/// A quarter of the bytes of a lane's buffer, and half of them.
const QUARTER_OF_BUFFER: usize = 65536;

const HALF_OF_BUFFER: usize = 131072;

/// A lane that took packets which its wire has not got yet: they stand at the front of its buffer, and behind them the
/// session that began, if one did. Contracts see what they see of a lane, how many bytes fill its buffer, and the session that
/// is to be begun.
#[derive(Drop)]
pub struct Laden<W: Wire, M: Machine> {
    wire: W,
    pass: Pass<Board<M>>,
    peer: PeerId,
    latest: Option<u32>,
    unnoted: bool,
    buf: Vec<u8>,
    filled: usize,
    ending: Ending,
}

/// How much a lane has to send.
#[derive(Clone, Copy, PartialEq, Eq)]
pub enum Fill {
    /// No session is to be begun, and less than a quarter of the buffer is filled.
    Little,
    /// No session is to be begun, and a quarter of the buffer is filled, but not half of it.
    Much,
    /// A session is to be begun, or half of the buffer is filled.
    Full,
}

/// What a load came to.
#[derive(Clone, Copy, PartialEq, Eq)]
pub struct Load {
    /// Whether a packet or a session came.
    pub has_come: bool,
    /// How much there is to send then.
    pub fill: Fill,
    /// Whether all that there was is taken.
    pub rests: bool,
}

impl<W: Wire, M: Machine> Model for Laden<W, M> {
    ghost use Rattle.std.specs.Prelude.{◌≡◌};
    ghost use Rattle.std.specs.Vec.{vec_items, vec_len};
    ghost use Rattle.ug_sender.specs.Loads.{KeepsLoad, LadenView};
    ghost use Rattle.ug_sender.specs.Rounds.{begun_by};

    ghost Value = { LadenView W M.Opening M.Job M.Said };

    ghost view = { λ l. record { lane = record { wire = l.wire; made_for = W.made_for l.wire; pass = l.pass; peer = l.peer; latest = l.latest; unnoted = l.unnoted }; filled = l.filled; waiting = begun_by l.ending } };

    ghost invariant = { λ l. KeepsLoad M.rules l.pass l.peer (W.sessions l.wire) (W.begun l.wire) (W.faults l.wire) l.latest l.unnoted (vec_items l.buf) l.filled l.ending × (vec_len l.buf ≡ 262144) };
}

impl<W: Wire, M: Machine> Laden<W, M> {
    /// A lane with nothing in its buffer.
    pub fn of(lane: Lane<W, M>) -> Self
        ensures { result ≡ unladen lane }
    {
        let Lane {
            wire,
            pass,
            peer,
            latest,
            unnoted,
            buf,
        } = lane;
        Laden {
            wire,
            pass,
            peer,
            latest,
            unnoted,
            buf,
            filled: 0,
            ending: Ending::Idle,
        }
    }

    /// Takes in one turn what there is for the peer, behind what stands in the buffer already. Nothing is sent. Where a
    /// session is to be begun first, or where there is no room for a longest message, it takes nothing. Else something comes, or
    /// all that there was is taken.
    pub fn load<R: Wait>(&mut self, rt: &R, turnstile: &Turnstile<Board<M>>) -> Load
        requires here { self.old.lane.pass.turnstile ≡ turnstile.now.id }
        ensures same { IsSamePost self.old.lane self.new.lane }
        ensures seen { StartsWith self.new.lane.pass.seen self.old.lane.pass.seen }
        ensures wire { self.new.lane.wire ≡ self.old.lane.wire }
        ensures latest { self.new.lane.latest ≡ self.old.lane.latest }
        ensures unnoted { self.new.lane.unnoted ≡ self.old.lane.unnoted }
        ensures told { TellsLoad M.rules self.old self.new }
        ensures still { result.has_come ≡ false → pass_deeds M.rules self.new.lane.pass ≡ pass_deeds M.rules self.old.lane.pass }
        ensures come { result.has_come ≡ true → pass_deeds M.rules self.new.lane.pass ≡ pass_deeds M.rules self.old.lane.pass → ⊥ }
        ensures rests { result.rests ≡ true → IsAtRest M.rules self.new.lane.peer self.new.lane.pass }
        ensures goes_on { MayLoad self.old → result.rests ≡ false → result.has_come ≡ true }
        ensures fill { TellsFill result.fill self.new.waiting self.new.filled }
    {
        if self.ending.is_begun() || self.buf.len() - self.filled < LONGEST_MESSAGE {
            return Load {
                has_come: false,
                fill: Fill::Full,
                rests: false,
            };
        }
        let taken = take_behind(
            rt,
            turnstile,
            &mut self.pass,
            self.peer,
            self.latest,
            self.buf.as_mut_slice(),
            self.filled,
        );
        self.filled += taken.filled;
        self.ending = taken.ending;
        load_of(taken, self.filled)
    }

    /// Sends what stands in the buffer with one call, and then begins the session behind it, if there is one. Where a call
    /// of the wire fails the loss of its session is asked of the board.
    pub fn send<R: Wait>(self, rt: &R, turnstile: &Turnstile<Board<M>>) -> Lane<W, M>
        requires here { self.lane.pass.turnstile ≡ turnstile.now.id }
        ensures same { IsSamePost self.lane result }
        ensures seen { StartsWith result.pass.seen self.lane.pass.seen }
        ensures told { TellsSend (pass_deeds M.rules self.lane.pass) (pass_deeds M.rules result.pass) }
        ensures faults { W.faults self.lane.wire ≤ W.faults result.wire }
        ensures unnoted { result.unnoted ≡ true → (self.lane.unnoted ≡ true) ⊎ MissesLossOf M.rules self result.pass }
        ensures unnoted_before { self.lane.unnoted ≡ true → result.unnoted ≡ true }
        ensures harmed { (result.unnoted ≡ self.lane.unnoted) ⊎ Rose (W.faults self.lane.wire) (W.faults result.wire) }
    {
        let Laden {
            mut wire,
            mut pass,
            peer,
            latest,
            unnoted,
            mut buf,
            filled,
            ending,
        } = self;
        let bytes = buf.as_mut_slice();
        let sent = send_taken(
            rt, turnstile, &mut wire, &mut pass, peer, latest, bytes, filled,
        );
        let begun = begin_taken(rt, turnstile, &mut wire, &mut pass, peer, ending, bytes);
        Lane {
            wire,
            pass,
            peer,
            latest: open_after(latest, ending, sent, begun),
            unnoted: with_calls(unnoted, sent, begun),
            buf,
        }
    }
}

/// Takes what there is for the peer in one turn, behind the bytes that fill the buffer.
fn take_behind<M: Machine, R: Wait>(
    rt: &R,
    turnstile: &Turnstile<Board<M>>,
    pass: &mut Pass<Board<M>>,
    peer: PeerId,
    latest: Option<u32>,
    buf: &mut [u8],
    filled: usize,
) -> Taken
    requires here { pass.old.turnstile ≡ turnstile.now.id }
    requires free { pass.old.holds ≡ false }
    requires own { IsOfPeer peer pass.old }
    requires filled { filled ≤ length buf.old }
    ensures same { IsSamePass pass.old pass.new }
    ensures free { pass.new.holds ≡ false }
    ensures own { IsOfPeer peer pass.new }
    ensures seen { StartsWith pass.new.seen pass.old.seen }
    ensures front { take filled buf.new ≡ take filled buf.old }
    ensures told { TellsTurn latest result (drop filled buf.new) (pass_deeds M.rules pass.old) (pass_deeds M.rules pass.new) }
    ensures idle { result.ending ≡ Idle → IdlesAt M.rules pass.new.root peer pass.new.seen }
    ensures over { result.ending ≡ Stop → IsOver M.rules peer pass.new }
    ensures unspent { result.ending ≡ Idle → pass.new.spent ≡ false }
    ensures more { result.ending ≡ More → filled + buffer_size ≤ length buf.old → 0 < result.packets }
{
    let (_, room) = buf.split_at_mut(filled);
    take_turn(rt, turnstile, pass, peer, latest, room)
}

/// What a load came to, by its turn, and by how many bytes fill the buffer then.
fn load_of(taken: Taken, filled: usize) -> Load
    ensures still { result.has_come ≡ false → (taken.packets ≡ 0) × (begun_by taken.ending ≡ None) }
    ensures come { result.has_come ≡ true → (0 < taken.packets) ⊎ IsSome (begun_by taken.ending) }
    ensures rests { result.rests ≡ true → (taken.ending ≡ Idle) ⊎ (taken.ending ≡ Stop) }
    ensures goes_on { result.rests ≡ false → (result.has_come ≡ true) ⊎ (taken.ending ≡ More) }
    ensures fill { TellsFill result.fill (begun_by taken.ending) filled }
{
    let has_come = taken.packets > 0;
    let fill = fill_of(filled);
    match taken.ending {
        Ending::Begun { .. } => Load {
            has_come: true,
            fill: Fill::Full,
            rests: false,
        },
        Ending::Idle | Ending::Stop => Load {
            has_come,
            fill,
            rests: true,
        },
        Ending::More => Load {
            has_come,
            fill,
            rests: false,
        },
    }
}

/// How much there is to send where so many bytes fill the buffer, and no session is to be begun.
fn fill_of(filled: usize) -> Fill
    ensures { TellsFill result None filled }
{
    if filled >= HALF_OF_BUFFER {
        Fill::Full
    } else if filled >= QUARTER_OF_BUFFER {
        Fill::Much
    } else {
        Fill::Little
    }
}
