//! A lane: a wire, and the pass by which it is told what to send.

ghost use Rattle.std.specs.Prelude.{◌≡◌, ◌<◌, ◌≤◌, ◌||◌, ◌⊎◌, [], true, false, Some, None, IfOk, IfErr};
ghost use Rattle.std.specs.Vec.{vec_len};
ghost use Rattle.ug_edge.specs.Told.{Rose, IsFresh};
ghost use Rattle.ug_turnstile.specs.Passes.{StartsWith, mine};
ghost use Rattle.ug_sender.specs.declared.pumped.Pumped.TheVariants.{Sent as DidSend, Idle as WasIdle, Lost as WasLost, Stopped as WasStopped};
ghost use Rattle.ug_sender.specs.Courses.{fate_of, is_unnoted};
ghost use Rattle.ug_sender.specs.Lanes.{fresh_lane, IdlesAt, IsOver, IsSamePost, KeepsLane, MissesLoss, pass_deeds, shown};
ghost use Rattle.ug_sender.specs.Rounds.{TellsRound, fate_after, open_after, outcome};
ghost use Rattle.ug_sender.specs.Tellings.{TellsPump, IsSameWire};

use crate::asking::{ask_loss, ask_next};
use crate::open::is_open;
use crate::pumped::{Pumped, Round};
use crate::sending::{Went, begin_session, begin_taken, send_all, send_taken};
use crate::turn::{Ending, take_turn};
use std::alloc::{AllocError, Global};
use std::marker::Model;
use std::sync::Wait;
use ug_board::{Board, LaneSaid, Machine};
use ug_edge::Wire;
use ug_turnstile::{Pass, Turnstile};
use ug_types::{NoMemory, PeerId};

/// The bytes of the buffer. The longest message has 65535, and a message is taken only where there is room for that: so at least
/// three times as many bytes are sent with one call, where there are so many.
const BUFFER_SIZE: usize = 262144;

/// A wire to a peer, and the pass by which it is told what to send. Contracts see these, the session that is open and
/// whether the loss of one was not taken. The wire holds what the pass was handed: each session that its entries begin,
/// with a front of what was handed out in it, and all of it where no call failed.
#[derive(Drop)]
pub struct Lane<W: Wire, M: Machine> {
    pub(crate) wire: W,
    pub(crate) pass: Pass<Board<M>>,
    pub(crate) peer: PeerId,
    pub(crate) latest: Option<u32>,
    pub(crate) unnoted: bool,
    pub(crate) buf: Vec<u8>,
}

/// The memory that a lane works in: room for the packets of a turn.
#[derive(Drop)]
pub struct Buffer {
    bytes: Vec<u8>,
    ghost size: { vec_len bytes ≡ 262144 },
}

impl Buffer {
    /// The memory of one lane.
    pub fn new(alloc: Global) -> Result<Buffer, NoMemory> {
        Ok(Buffer {
            bytes: room_of(alloc, BUFFER_SIZE)?,
        })
    }
}

/// A wire and a pass that are given back.
#[derive(Drop)]
pub struct Returned<W, M: Machine> {
    pub wire: W,
    pub pass: Pass<Board<M>>,
}

impl<W: Wire, M: Machine> Model for Lane<W, M> {
    ghost use Rattle.std.specs.Prelude.{◌≡◌};
    ghost use Rattle.std.specs.Vec.{vec_len};
    ghost use Rattle.ug_sender.specs.Lanes.{LaneView, KeepsLane};

    ghost Value = { LaneView W M.Opening M.Job M.Said };

    ghost view = { λ l. record { wire = l.wire; made_for = W.made_for l.wire; pass = l.pass; peer = l.peer; latest = l.latest; unnoted = l.unnoted } };

    ghost invariant = { λ l. KeepsLane M.rules l.pass l.peer (W.sessions l.wire) (W.begun l.wire) (W.faults l.wire) l.latest l.unnoted × (vec_len l.buf ≡ 262144) };
}

impl<W: Wire, M: Machine> Lane<W, M> {
    /// A lane over a wire without sessions, with a pass without entries. Running out of memory hands both back.
    pub fn new(
        alloc: Global,
        wire: W,
        pass: Pass<Board<M>>,
        peer: PeerId,
    ) -> Result<Lane<W, M>, Returned<W, M>>
        requires free { pass.holds ≡ false }
        requires none { mine (λ entry. entry.pass) pass ≡ [] }
        requires sessions { IsFresh (W.sessions wire) }
        requires begun { W.begun wire ≡ 0 }
        requires faults { W.faults wire ≡ 0 }
        ensures ok { IfOk result (λ lane. lane ≡ fresh_lane wire (W.made_for wire) pass peer) }
        ensures returned { IfErr result (λ back. (back.wire ≡ wire) × (back.pass ≡ pass)) }
    {
        let Ok(buffer) = Buffer::new(alloc) else {
            return Err(Returned { wire, pass });
        };
        Ok(Lane::over(buffer, wire, pass, peer))
    }

    /// The same with memory that is there already.
    pub fn over(buffer: Buffer, wire: W, pass: Pass<Board<M>>, peer: PeerId) -> Lane<W, M>
        requires free { pass.holds ≡ false }
        requires none { mine (λ entry. entry.pass) pass ≡ [] }
        requires sessions { IsFresh (W.sessions wire) }
        requires begun { W.begun wire ≡ 0 }
        requires faults { W.faults wire ≡ 0 }
        ensures { result ≡ fresh_lane wire (W.made_for wire) pass peer }
    {
        let Buffer { bytes } = buffer;
        Lane {
            wire,
            pass,
            peer,
            latest: None,
            unnoted: false,
            buf: bytes,
        }
    }

    /// Asks what is next, and does it on the wire. Where a call of the wire fails the loss of the session is asked of
    /// the board, and nothing is sent until a further session begins.
    pub fn pump<R: Wait>(&mut self, rt: &R, turnstile: &Turnstile<Board<M>>) -> Pumped
        requires here { self.old.pass.turnstile ≡ turnstile.now.id }
        ensures same { IsSamePost self.old self.new }
        ensures seen { StartsWith self.new.pass.seen self.old.pass.seen }
        ensures told { TellsPump result (shown M.rules self.old) (shown M.rules self.new) }
        ensures lost { result ≡ WasLost → Rose (W.faults self.old.wire) (W.faults self.new.wire) }
        ensures unharmed { (result ≡ WasLost → ⊥) → W.faults self.new.wire ≡ W.faults self.old.wire }
        ensures faults { W.faults self.old.wire ≤ W.faults self.new.wire }
        ensures idle { result ≡ WasIdle → IdlesAt M.rules self.new.pass.root self.new.peer self.new.pass.seen }
        ensures over { result ≡ WasStopped → IsOver M.rules self.new.peer self.new.pass }
        ensures unspent { result ≡ WasIdle → self.new.pass.spent ≡ false }
        ensures still { (result ≡ WasIdle) ⊎ (result ≡ WasStopped) → IsSameWire (W.sessions self.old.wire) (W.begun self.old.wire) (W.sessions self.new.wire) (W.begun self.new.wire) }
        ensures unnoted { self.new.unnoted ≡ true → (self.old.unnoted ≡ true) ⊎ MissesLoss M.rules self.old.peer self.old.latest self.old.pass self.new.pass }
        ensures closed { result ≡ DidSend → self.old.latest ≡ None → IsSameWire (W.sessions self.old.wire) (W.begun self.old.wire) (W.sessions self.new.wire) (W.begun self.new.wire) }
    {
        let said = ask_next(
            rt,
            turnstile,
            &mut self.pass,
            self.peer,
            self.buf.as_mut_slice(),
        );
        match said {
            LaneSaid::Begun { session } => {
                let Ok(()) = begin_session(&mut self.wire, session) else {
                    let is_noted = ask_loss(
                        rt,
                        turnstile,
                        &mut self.pass,
                        self.peer,
                        session,
                        self.buf.as_mut_slice(),
                    );
                    self.unnoted = with_loss(self.unnoted, is_noted);
                    self.latest = None;
                    return Pumped::Lost;
                };
                self.latest = Some(session);
                Pumped::Begun
            }
            LaneSaid::Hand { session, len, .. } => {
                if !is_open(self.latest, session) {
                    return Pumped::Sent;
                }
                let (message, _) = self.buf.as_slice().split_at(len);
                let Ok(()) = send_all(&mut self.wire, message) else {
                    let is_noted = ask_loss(
                        rt,
                        turnstile,
                        &mut self.pass,
                        self.peer,
                        session,
                        self.buf.as_mut_slice(),
                    );
                    self.unnoted = with_loss(self.unnoted, is_noted);
                    self.latest = None;
                    return Pumped::Lost;
                };
                Pumped::Sent
            }
            LaneSaid::Idle => Pumped::Idle,
            LaneSaid::Stop => Pumped::Stopped,
            LaneSaid::Noted => unreachable!(),
        }
    }

    /// Takes in one turn what there is for the peer, and gives the turn back; sends the packets of the open session with
    /// one call, and then begins the session that ended the turn, if one did. Where a call of the wire fails the loss of
    /// its session is asked of the board, and nothing is sent until a further session begins.
    pub fn pump_round<R: Wait>(&mut self, rt: &R, turnstile: &Turnstile<Board<M>>) -> Round
        requires here { self.old.pass.turnstile ≡ turnstile.now.id }
        ensures same { IsSamePost self.old self.new }
        ensures seen { StartsWith self.new.pass.seen self.old.pass.seen }
        ensures told { TellsRound result (shown M.rules self.old) (shown M.rules self.new) }
        ensures lost { result.end ≡ WasLost → Rose (W.faults self.old.wire) (W.faults self.new.wire) }
        ensures unharmed { (result.end ≡ WasLost → ⊥) → W.faults self.new.wire ≡ W.faults self.old.wire }
        ensures faults { W.faults self.old.wire ≤ W.faults self.new.wire }
        ensures idle { result.end ≡ WasIdle → IdlesAt M.rules self.new.pass.root self.new.peer self.new.pass.seen }
        ensures over { result.end ≡ WasStopped → IsOver M.rules self.new.peer self.new.pass }
        ensures unspent { result.end ≡ WasIdle → self.new.pass.spent ≡ false }
        ensures sent { result.end ≡ DidSend → 0 < result.packets }
        ensures done { pass_deeds M.rules self.new.pass ≡ pass_deeds M.rules self.old.pass → (result.end ≡ WasIdle) ⊎ (result.end ≡ WasStopped) }
        ensures unnoted { self.new.unnoted ≡ true → (self.old.unnoted ≡ true) ⊎ MissesLoss M.rules self.old.peer self.old.latest self.old.pass self.new.pass }
        ensures still { result.packets ≡ 0 → (result.end ≡ WasIdle) ⊎ (result.end ≡ WasStopped) → IsSameWire (W.sessions self.old.wire) (W.begun self.old.wire) (W.sessions self.new.wire) (W.begun self.new.wire) }
    {
        let buf = self.buf.as_mut_slice();
        let taken = take_turn(rt, turnstile, &mut self.pass, self.peer, self.latest, buf);
        let sent = send_taken(
            rt,
            turnstile,
            &mut self.wire,
            &mut self.pass,
            self.peer,
            self.latest,
            buf,
            taken.filled,
        );
        let begun = begin_taken(
            rt,
            turnstile,
            &mut self.wire,
            &mut self.pass,
            self.peer,
            taken.ending,
            buf,
        );
        self.latest = open_after(self.latest, taken.ending, sent, begun);
        self.unnoted = with_calls(self.unnoted, sent, begun);
        Round {
            packets: taken.packets,
            end: outcome(taken.ending, sent, begun),
        }
    }

    /// Pumps until there is nothing more to send, and naps where there is nothing to send for now.
    #[tactic(auto, using(crate::proofs::Turns::starts_with_more))]
    pub fn work<R: Wait>(self, rt: &R, turnstile: &Turnstile<Board<M>>) -> Lane<W, M>
        requires here { self.pass.turnstile ≡ turnstile.now.id }
        ensures same { IsSamePost self result }
        ensures seen { StartsWith result.pass.seen self.pass.seen }
        ensures over { IsOver M.rules result.peer result.pass }
        ensures faults { W.faults self.wire ≤ W.faults result.wire }
    {
        let mut lane = self;
        for _ in rt.forever() {
            match lane.pump_round(rt, turnstile).end {
                Pumped::Stopped => return lane,
                Pumped::Idle => turnstile.nap(rt),
                Pumped::Begun | Pumped::Sent | Pumped::Lost => {}
            }
        }
        unreachable!()
    }

    /// Whether the loss of a session that this lane asked added no entry.
    pub fn unnoted(&self) -> bool
        ensures { result ≡ self.now.unnoted }
    {
        self.unnoted
    }

    /// The wire and the pass. The wire holds what the pass was handed.
    pub fn into_parts(self) -> (W, Pass<Board<M>>)
        ensures wire { result.0 ≡ self.wire }
        ensures made_for { W.made_for result.0 ≡ self.made_for }
        ensures pass { result.1 ≡ self.pass }
        ensures kept { KeepsLane M.rules self.pass self.peer (W.sessions self.wire) (W.begun self.wire) (W.faults self.wire) self.latest self.unnoted }
    {
        let Lane {
            wire,
            pass,
            peer: _,
            latest: _,
            unnoted: _,
            buf: _,
        } = self;
        (wire, pass)
    }
}

/// A buffer of that many bytes.
fn room_of(alloc: Global, size: usize) -> Result<Vec<u8>, AllocError>
    ensures { IfOk result (λ buf. vec_len buf ≡ size) }
{
    Ok(vec![in alloc; 0u8; size]?)
}

/// Whether a loss was not taken, after one more that was noted or not.
fn with_loss(unnoted: bool, is_noted: bool) -> bool
    ensures { result ≡ (unnoted || is_unnoted (fate_of is_noted)) }
{
    unnoted || !is_noted
}

/// The open session, after a turn and after the calls of the wire for it.
pub(crate) fn open_after(
    latest: Option<u32>,
    ending: Ending,
    sent: Went,
    begun: Went,
) -> Option<u32>
    ensures { result ≡ open_after latest ending sent begun }
{
    match (ending, sent, begun) {
        (Ending::Begun { session }, _, Went::Well) => Some(session),
        (Ending::Begun { .. }, _, Went::Ill { .. }) => None,
        (_, Went::Well, _) => latest,
        (_, Went::Ill { .. }, _) => None,
    }
}

/// Whether a loss was not taken, after these calls of the wire.
pub(crate) fn with_calls(unnoted: bool, sent: Went, begun: Went) -> bool
    ensures { result ≡ ((unnoted || is_unnoted (fate_after sent)) || is_unnoted (fate_after begun)) }
{
    unnoted || sent.is_unnoted() || begun.is_unnoted()
}

/// What a turn came to, once the calls of the wire are made.
fn outcome(ending: Ending, sent: Went, begun: Went) -> Pumped
    ensures { result ≡ outcome ending sent begun }
{
    match (sent, begun) {
        (Went::Well, Went::Well) => match ending {
            Ending::Begun { .. } => Pumped::Begun,
            Ending::Idle => Pumped::Idle,
            Ending::Stop => Pumped::Stopped,
            Ending::More => Pumped::Sent,
        },
        _ => Pumped::Lost,
    }
}
