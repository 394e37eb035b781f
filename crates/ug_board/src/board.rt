//! A machine beside the history of its steps.

ghost use Rattle.std.specs.Prelude.{◌≡◌, ◌+◌, ◌<◌, ◌≤◌, ◌∷◌, [], ◌++◌, length, true, false, OnOk, OnErr, IfOk, IfErr, IfSome};
ghost use Rattle.ug_board.specs.declared.steps.LaneStep.TheVariants.{Next, Lost};
ghost use Rattle.ug_board.specs.declared.steps.LaneSaid.TheVariants.{Stop, Noted};
ghost use Rattle.ug_board.specs.Rules.{buffer_size, lane_said, LeavesHanded};
ghost use Rattle.ug_board.specs.History.{IsLegal, MayGoOn, fresh_board, state_of, job_entry, lane_entries, spent_said};

use crate::behind::{due_behind, due_rise_behind, job_behind, lane_behind, may_lose_behind};
use crate::entry::BoardEntry;
use crate::history::{History, HistoryList};
use crate::kept::Done;
use crate::machine::Machine;
use crate::steps::{LaneSaid, LaneStep};
use std::alloc::Global;
use std::marker::Model;
use std::sync::ledger::Ledger;
use ug_turnstile::Logged;
use ug_types::{NoMemory, PeerId, Steps};

/// A machine and the history of its steps. Contracts see the opening, the history and whether the board is spent.
/// The history is legal. A board is spent only where its history leaves a job that may be done; else its machine stands
/// where the history leads and there is room for all entries that lanes can add before the next job. The machine stands behind a pointer, so that a board is
/// moved at the cost of a few words, however large its machine is: each turn moves it.
#[derive(Drop)]
pub struct Board<M: Machine> {
    machine: Box<M>,
    history: HistoryList<M>,
    spent: bool,
    alloc: Global,
}

impl<M: Machine> Model for Board<M> {
    ghost use Rattle.std.specs.Prelude.{◌≡◌, ◌≤◌, false, true, length};
    ghost use Rattle.ug_board.specs.History.{BoardState, IsLegal, IsInStep, MayGoOn};

    ghost Value = { BoardState M.Opening M.Job M.Said };

    ghost view = { λ b. record { opening = M.opening b.machine.value; history = b.history.items; spent = b.spent } };

    ghost invariant = { λ b. IsLegal M.rules (M.opening b.machine.value) b.history.items × (b.spent ≡ false → IsInStep M.rules (M.opening b.machine.value) b.history.items b.history.spare (M.state b.machine.value) (M.jobs b.machine.value)) × (b.spent ≡ true → MayGoOn M.rules (M.opening b.machine.value) b.history.items) };
}

impl<M: Machine> Board<M> {
    /// A board with an empty history. Running out of memory hands the machine back.
    pub fn new(alloc: Global, machine: M) -> Result<Board<M>, M>
        requires state { M.state machine ≡ M.rules.start (M.opening machine) }
        requires jobs { M.jobs machine ≡ 0 }
        ensures ok { IfOk result (λ board. board ≡ fresh_board (M.opening machine)) }
        ensures returned { IfErr result (λ back. back ≡ machine) }
    {
        let mut history: HistoryList<M> = History::new(alloc);
        let Ok(()) = history.reserve(machine.due() as usize) else {
            return Err(machine);
        };
        match Box::new(alloc, machine) {
            Ok(machine) => Ok(Board {
                machine,
                history,
                spent: false,
                alloc,
            }),
            Err(refused) => Err(refused.value),
        }
    }

    /// Does a job, which is an entry of the history. After `NoMemory` the board is spent, and has its entries.
    pub fn job<L: Ledger>(
        &mut self,
        pass: u32,
        job: M::Job,
        steps: &mut Steps<L>,
    ) -> Result<M::Said, NoMemory>
        requires legal { M.rules.legal job (state_of M.rules self.old) ≡ true }
        requires unspent { self.old.spent ≡ false }
        ensures said { IfOk result (λ said. said ≡ M.rules.reply job (state_of M.rules self.old)) }
        ensures history { OnOk result (self.new.history ≡ self.old.history ++ job_entry M.rules pass job (state_of M.rules self.old) ∷ []) }
        ensures unchanged { OnErr result (self.new.history ≡ self.old.history) }
        ensures unspent { OnOk result (self.new.spent ≡ false) }
        ensures spent { OnErr result (self.new.spent ≡ true) }
        ensures opening { self.new.opening ≡ self.old.opening }
        ensures legal { IsLegal M.rules self.new.opening self.new.history }
        ensures least { OnOk result (steps.old + M.rules.least job (state_of M.rules self.old) ≤ steps.new) }
        ensures most { steps.new ≤ steps.old + M.rules.most job (state_of M.rules self.old) }
        ensures counted { steps.old ≤ steps.new }
    {
        self.spent = true;
        if self.history.len() == usize::MAX {
            return Err(NoMemory);
        }
        let rise = due_rise_behind(&self.machine, &job);
        let said = job_behind(&mut self.machine, &job, steps)?;
        let kept = M::copy_said(&said)?;
        let done = enclose(self.alloc, job, kept)?;
        let due = room_for_lanes(&self.machine, &self.history, rise);
        make_room(&mut self.history, due)?;
        self.history.add_job(pass, done);
        self.spent = false;
        Ok(said)
    }

    /// Takes the step of a lane. What is handed out stands at the front of `buf`. Begun, Hand and Noted are an entry
    /// of the history, but a loss that may not be noted is passed over. A spent board says Stop to Next and Noted to
    /// Lost, without an entry. It takes no memory.
    pub fn lane(&mut self, pass: u32, step: LaneStep, buf: &mut [u8]) -> LaneSaid
        requires { buffer_size ≤ length buf.old }
        ensures said { self.old.spent ≡ false → result ≡ lane_said M.rules step (state_of M.rules self.old) }
        ensures history { self.old.spent ≡ false → self.new.history ≡ self.old.history ++ lane_entries M.rules pass step (state_of M.rules self.old) }
        ensures handed { self.old.spent ≡ false → LeavesHanded M.rules step result (state_of M.rules self.old) buf.new }
        ensures spent_said { self.old.spent ≡ true → result ≡ spent_said step }
        ensures spent_history { self.old.spent ≡ true → self.new.history ≡ self.old.history }
        ensures spent { self.new.spent ≡ self.old.spent }
        ensures opening { self.new.opening ≡ self.old.opening }
        ensures legal { IsLegal M.rules self.new.opening self.new.history }
    {
        match step {
            LaneStep::Next { peer } => self.next(pass, peer, buf),
            LaneStep::Lost { peer, session } => self.lost(pass, peer, session, buf),
        }
    }

    /// What is next for a peer.
    fn next(&mut self, pass: u32, peer: PeerId, buf: &mut [u8]) -> LaneSaid
        requires { buffer_size ≤ length buf.old }
        ensures said { self.old.spent ≡ false → result ≡ M.rules.lane_reply (Next peer) (state_of M.rules self.old) }
        ensures history { self.old.spent ≡ false → self.new.history ≡ self.old.history ++ lane_entries M.rules pass (Next peer) (state_of M.rules self.old) }
        ensures handed { self.old.spent ≡ false → LeavesHanded M.rules (Next peer) result (state_of M.rules self.old) buf.new }
        ensures spent_said { self.old.spent ≡ true → result ≡ Stop }
        ensures spent_history { self.old.spent ≡ true → self.new.history ≡ self.old.history }
        ensures spent { self.new.spent ≡ self.old.spent }
        ensures opening { self.new.opening ≡ self.old.opening }
        ensures legal { IsLegal M.rules self.new.opening self.new.history }
    {
        if self.spent {
            return LaneSaid::Stop;
        }
        let said = lane_behind(&mut self.machine, LaneStep::Next { peer }, buf);
        match said {
            LaneSaid::Begun { session } => self.history.add_begun(pass, peer, session),
            LaneSaid::Hand { session, made, len } => {
                self.history.add_hand(pass, peer, session, made, len)
            }
            LaneSaid::Idle | LaneSaid::Stop | LaneSaid::Noted => {}
        }
        said
    }

    /// The loss of a session to a peer.
    fn lost(&mut self, pass: u32, peer: PeerId, session: u32, buf: &mut [u8]) -> LaneSaid
        requires { buffer_size ≤ length buf.old }
        ensures said { result ≡ Noted }
        ensures history { self.old.spent ≡ false → self.new.history ≡ self.old.history ++ lane_entries M.rules pass (Lost peer session) (state_of M.rules self.old) }
        ensures spent_history { self.old.spent ≡ true → self.new.history ≡ self.old.history }
        ensures spent { self.new.spent ≡ self.old.spent }
        ensures opening { self.new.opening ≡ self.old.opening }
        ensures legal { IsLegal M.rules self.new.opening self.new.history }
    {
        if !self.spent && may_lose_behind(&self.machine, peer, session) {
            let _said = lane_behind(&mut self.machine, LaneStep::Lost { peer, session }, buf);
            self.history.add_lost(pass, peer, session);
        }
        LaneSaid::Noted
    }

    /// The machine. Unless the board is spent it stands where the history leads.
    pub fn machine(&self) -> &M
        ensures opening { M.opening result.now ≡ self.now.opening }
        ensures state { self.now.spent ≡ false → M.state result.now ≡ state_of M.rules self.now }
    {
        &self.machine
    }

    /// Whether a job of this board has answered `NoMemory`.
    pub fn is_spent(&self) -> bool
        ensures spent { result ≡ self.now.spent }
        ensures legal { IsLegal M.rules self.now.opening self.now.history }
        ensures open { result ≡ true → MayGoOn M.rules self.now.opening self.now.history }
    {
        self.spent
    }

    /// The machine and the history. It takes no memory.
    pub fn into_parts(self) -> (Box<M>, HistoryList<M>)
        ensures history { result.1.items ≡ self.history }
        ensures legal { IsLegal M.rules self.opening self.history }
    {
        let Board {
            machine,
            history,
            ..
        } = self;
        (machine, history)
    }
}

/// The history of a board is kept under its turnstile: its root is the opening, and an entry is of the pass that made it. A
/// spent board is a spent state.
impl<M: Machine> Logged for Board<M> {
    type Entry = BoardEntry<M::Job, M::Said>;

    type Root = M::Opening;

    ghost root = { λ board. board.opening };

    ghost entries = { λ board. board.history };

    ghost spent = { λ board. board.spent };

    ghost owner = { λ entry. entry.pass };

    fn owner(entry: &BoardEntry<M::Job, M::Said>) -> u32 {
        entry.pass()
    }
}

/// Puts a job and what was said to it behind a pointer.
fn enclose<J: Drop, R: Drop>(alloc: Global, job: J, said: R) -> Result<Box<Done<J, R>>, NoMemory>
    ensures { IfOk result (λ done. done.value ≡ record { job = job; said = said }) }
{
    match Box::new(alloc, Done { job, said }) {
        Ok(done) => Ok(done),
        Err(_refused) => Err(NoMemory),
    }
}

/// Room that is enough for the entries that lanes can add before the next job: behind a job that raised what is due by so much
/// at most, as much more than there was.
fn room_for_lanes<M: Machine>(machine: &Box<M>, history: &HistoryList<M>, rise: Option<u64>) -> u64
    requires { IfSome rise (λ rise. M.rules.due (M.state machine.now.value) ≤ history.now.spare + rise) }
    ensures { M.rules.due (M.state machine.now.value) ≤ result }
{
    let room = history.room() as u64;
    match rise.and_then(|rise| room.checked_add(rise)) {
        Some(room) => room,
        None => due_behind(machine),
    }
}

/// Makes room for one entry and for those that are due after it. Running out of memory changes no entry.
fn make_room<J, R>(history: &mut History<J, R>, due: u64) -> Result<(), NoMemory>
    ensures items { history.new.items ≡ history.old.items }
    ensures room { OnOk result (due + 1 ≤ history.new.spare) }
{
    let Some(room) = due.checked_add(1) else {
        return Err(NoMemory);
    };
    history.reserve(room as usize)
}
