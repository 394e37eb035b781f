//! Bytes into the session of a wire that was begun last.

ghost use Rattle.std.specs.Prelude.{◌≡◌, ◌+◌, ◌<◌, ◌≤◌, OnOk, OnErr, true, false, Some, None, IsSome, length, take};
ghost use Rattle.ug_edge.specs.Told.{Rose, BeginsSession, SendsPiece};
ghost use Rattle.ug_board.specs.Rules.{buffer_size};
ghost use Rattle.ug_turnstile.specs.Passes.{IsSamePass, StartsWith};
ghost use Rattle.ug_sender.specs.declared.sending.Went.TheVariants.{Well};
ghost use Rattle.ug_sender.specs.Lanes.{IsOfPeer, pass_deeds};
ghost use Rattle.ug_sender.specs.Courses.{is_unnoted};
ghost use Rattle.ug_sender.specs.Pieces.{SendsFront};
ghost use Rattle.ug_sender.specs.Rounds.{SendsBy, BeginsBy, TellsWent, PassesOver, CountsFault, IsBelow, begun_by, fate_after};

use crate::asking::ask_loss;
use crate::turn::Ending;
use std::sync::Wait;
use ug_board::{Board, Machine};
use ug_edge::{Failed, Wire};
use ug_turnstile::{Pass, Turnstile};
use ug_types::PeerId;

/// How a call of the wire went.
#[derive(Clone, Copy, PartialEq, Eq)]
pub(crate) enum Went {
    Well,
    /// It failed, and the loss of its session was asked of the board, which noted it or not.
    Ill { is_noted: bool },
}

impl Went {
    /// Whether a call failed, and the loss was not noted.
    pub(crate) fn is_unnoted(self) -> bool
        ensures { result ≡ is_unnoted (fate_after self) }
    {
        match self {
            Went::Well => false,
            Went::Ill { is_noted } => !is_noted,
        }
    }
}

/// Begins a session with this number, where fewer are begun on the wire.
pub(crate) fn begin_session<W: Wire>(wire: &mut W, session: u32) -> Result<(), Failed>
    requires fewer { W.begun wire.old < session }
    ensures sessions { BeginsSession (W.sessions wire.old) (W.sessions wire.new) }
    ensures begun { W.begun wire.new ≡ W.begun wire.old + 1 }
    ensures made_for { W.made_for wire.new ≡ W.made_for wire.old }
    ensures numbered { W.begun wire.new ≤ 4294967295 }
    ensures failed { OnErr result (Rose (W.faults wire.old) (W.faults wire.new)) }
    ensures unharmed { OnOk result (W.faults wire.new ≡ W.faults wire.old) }
    ensures faults { W.faults wire.old ≤ W.faults wire.new }
{
    let _number = session;
    wire.begin()
}

/// Sends all bytes of a message; where a call fails, a front of them is sent.
pub(crate) fn send_all<W: Wire>(wire: &mut W, message: &[u8]) -> Result<(), Failed>
    requires { 0 < W.begun wire.old }
    ensures ok { OnOk result (SendsPiece (W.sessions wire.old) (W.sessions wire.new) message.now) }
    ensures err { OnErr result (SendsFront (W.sessions wire.old) (W.sessions wire.new) message.now) }
    ensures failed { OnErr result (Rose (W.faults wire.old) (W.faults wire.new)) }
    ensures unharmed { OnOk result (W.faults wire.new ≡ W.faults wire.old) }
    ensures faults { W.faults wire.old ≤ W.faults wire.new }
    ensures begun { W.begun wire.new ≡ W.begun wire.old }
    ensures made_for { W.made_for wire.new ≡ W.made_for wire.old }
{
    let mut at = 0;
    while at < message.len() {
        let (_, rest) = message.split_at(at);
        let n = wire.send(rest)?;
        at += n;
    }
    Ok(())
}

/// Sends what stands at the front of the buffer into the open session. Where a call fails a front of it is sent, and the
/// loss of the session is asked of the board.
pub(crate) fn send_taken<W: Wire, M: Machine, R: Wait>(
    rt: &R,
    turnstile: &Turnstile<Board<M>>,
    wire: &mut W,
    pass: &mut Pass<Board<M>>,
    peer: PeerId,
    latest: Option<u32>,
    buf: &mut [u8],
    filled: usize,
) -> Went
    requires here { pass.old.turnstile ≡ turnstile.now.id }
    requires free { pass.old.holds ≡ false }
    requires own { IsOfPeer peer pass.old }
    requires room { buffer_size ≤ length buf.old }
    requires filled { filled ≤ length buf.old }
    requires latest { latest ≡ None → filled ≡ 0 }
    requires begun { IsSome latest → 0 < W.begun wire.old }
    ensures same { IsSamePass pass.old pass.new }
    ensures free { pass.new.holds ≡ false }
    ensures own { IsOfPeer peer pass.new }
    ensures seen { StartsWith pass.new.seen pass.old.seen }
    ensures sent { SendsBy result (W.sessions wire.old) (W.sessions wire.new) (take filled buf.old) }
    ensures begun { W.begun wire.new ≡ W.begun wire.old }
    ensures made_for { W.made_for wire.new ≡ W.made_for wire.old }
    ensures faults { CountsFault result (W.faults wire.old) (W.faults wire.new) }
    ensures told { TellsWent result latest (pass_deeds M.rules pass.old) (pass_deeds M.rules pass.new) }
    ensures passed { PassesOver M.rules result peer latest pass.new }
    ensures none { filled ≡ 0 → result ≡ Well }
    ensures unchanged { result ≡ Well → pass.new ≡ pass.old }
{
    let Some(session) = latest else {
        return Went::Well;
    };
    if filled == 0 {
        return Went::Well;
    }
    let (message, _) = buf.split_at(filled);
    match send_all(wire, message) {
        Ok(()) => Went::Well,
        Err(_) => Went::Ill {
            is_noted: ask_loss(rt, turnstile, pass, peer, session, buf),
        },
    }
}

/// Begins the session that ended a turn, if one did. Where the call fails its loss is asked of the board.
pub(crate) fn begin_taken<W: Wire, M: Machine, R: Wait>(
    rt: &R,
    turnstile: &Turnstile<Board<M>>,
    wire: &mut W,
    pass: &mut Pass<Board<M>>,
    peer: PeerId,
    ending: Ending,
    buf: &mut [u8],
) -> Went
    requires here { pass.old.turnstile ≡ turnstile.now.id }
    requires free { pass.old.holds ≡ false }
    requires own { IsOfPeer peer pass.old }
    requires room { buffer_size ≤ length buf.old }
    requires further { IsBelow (W.begun wire.old) ending }
    ensures same { IsSamePass pass.old pass.new }
    ensures free { pass.new.holds ≡ false }
    ensures own { IsOfPeer peer pass.new }
    ensures seen { StartsWith pass.new.seen pass.old.seen }
    ensures begun { BeginsBy ending (W.sessions wire.old) (W.begun wire.old) (W.sessions wire.new) (W.begun wire.new) }
    ensures made_for { W.made_for wire.new ≡ W.made_for wire.old }
    ensures faults { CountsFault result (W.faults wire.old) (W.faults wire.new) }
    ensures told { TellsWent result (begun_by ending) (pass_deeds M.rules pass.old) (pass_deeds M.rules pass.new) }
    ensures passed { PassesOver M.rules result peer (begun_by ending) pass.new }
    ensures unchanged { result ≡ Well → pass.new ≡ pass.old }
{
    let Ending::Begun { session } = ending else {
        return Went::Well;
    };
    match begin_session(wire, session) {
        Ok(()) => Went::Well,
        Err(_) => Went::Ill {
            is_noted: ask_loss(rt, turnstile, pass, peer, session, buf),
        },
    }
}
