//! A wire that keeps in memory what was sent.

ghost use Rattle.std.specs.Prelude.{◌≡◌, ◌+◌, ◌-◌, ◌<◌, ◌≤◌, ◌⊎◌, [], ◌∷◌, ◌++◌, length, take, true, false, Some, OnOk, OnErr, IfOk, IsErr, slice_get};
ghost use Rattle.ug_edge.specs.WireState.{WireState, fresh_wire, next_begin_fails, wire_begun, wire_failed, wire_starved, room_before_cut, meets_cut, wire_cut, wire_with};
ghost use Rattle.ug_edge.specs.Told.{Rose};

use crate::counts::raise;
use crate::cuts::{room_before, spend};
use crate::lists::Made;
use crate::outside::{Failed, Wire};
use crate::sessions::Sessions;
use std::alloc::Global;
use std::marker::Model;
use ug_types::{NumberList, Sequence};

/// A wire that tells its sessions. Its calls fail where that is listed, or where memory runs out. A session that
/// found no memory is there, but takes no bytes, and so are those after it.
#[derive(Drop)]
pub struct MemWire {
    made: Made,
    sessions: Sessions,
    sent: u64,
    cuts: Sequence<u64>,
    failing: NumberList,
    faults: u64,
    starved: u64,
}

impl Model for MemWire {
    ghost use Rattle.std.specs.Prelude.{◌≤◌};
    ghost use Rattle.ug_edge.specs.WireState.{WireState};

    ghost Value = { WireState };

    ghost view = { λ w. record { made_for = record { dir = w.made.dir.items; peer = w.made.peer.items }; sessions = w.sessions.bytes; unkept = w.sessions.unkept; sent = w.sent; cuts = w.cuts.items; failing = w.failing.items; faults = w.faults; starved = w.starved } };

    ghost invariant = { λ w. w.starved ≤ w.faults };
}

impl MemWire {
    /// A wire that is made for a peer, with no sessions, the totals at which a send fails, and the numbers of the sessions
    /// whose begin fails.
    pub(crate) fn new(
        alloc: Global,
        made: Made,
        cuts: Sequence<u64>,
        failing: NumberList,
    ) -> MemWire
        ensures { result ≡ fresh_wire (record { dir = made.dir.items; peer = made.peer.items }) cuts.items failing.items }
    {
        MemWire {
            made,
            sessions: Sessions::new(alloc),
            sent: 0,
            cuts,
            failing,
            faults: 0,
            starved: 0,
        }
    }

    /// How many sessions there are.
    pub fn sessions(&self) -> u32
        ensures { result ≡ length self.now.sessions }
    {
        self.sessions.count()
    }

    /// The bytes of a session, which are numbered from 1.
    pub fn session(&self, n: u32) -> &[u8]
        requires from { 1 ≤ n }
        requires to { n ≤ length self.now.sessions }
        ensures { slice_get self.now.sessions (n - 1) ≡ Some result.now }
    {
        self.sessions.at(n)
    }

    /// How many calls failed since memory ran out. They are among the faults.
    pub fn starved(&self) -> u64
        ensures count { result ≡ self.now.starved }
        ensures within { result ≤ self.now.faults }
    {
        self.starved
    }
}

impl Wire for MemWire {
    ghost sessions = { λ wire. Some wire.sessions };

    ghost begun = { λ wire. length wire.sessions };

    ghost faults = { λ wire. wire.faults };

    ghost made_for = { λ wire. wire.made_for };

    fn begin(&mut self) -> Result<(), Failed>
        requires { length self.old.sessions < 4294967295 }
        ensures begun { OnOk result ((self.old.unkept ≡ 0) × (self.new ≡ wire_begun 0 self.old)) }
        ensures listed { next_begin_fails self.old ≡ true → IsErr result × (self.new ≡ wire_failed (wire_begun self.new.unkept self.old)) }
        ensures starved { OnErr result (next_begin_fails self.old ≡ false → self.new ≡ wire_starved (wire_begun (self.old.unkept + 1) self.old)) }
        ensures sessions { self.new.sessions ≡ self.old.sessions ++ [] ∷ [] }
        ensures count { length self.new.sessions ≡ length self.old.sessions + 1 }
        ensures unkept { ((self.old.unkept ≡ 0) × (self.new.unkept ≡ 0)) ⊎ (self.new.unkept ≡ self.old.unkept + 1) }
        ensures failed { OnErr result (Rose self.old.faults self.new.faults) }
        ensures faults { self.old.faults ≤ self.new.faults }
    {
        let is_listed = self.sessions.lists_next(&self.failing);
        let is_kept = self.sessions.begin();
        if is_listed {
            self.faults = raise(self.faults);
            return Err(Failed);
        }
        if is_kept {
            return Ok(());
        }
        self.starved = raise(self.starved);
        self.faults = raise(self.faults);
        Err(Failed)
    }

    fn send(&mut self, piece: &[u8]) -> Result<usize, Failed>
        requires { 0 < length self.old.sessions }
        ensures count { IfOk result (λ n. n ≤ length piece.now) }
        ensures some { IfOk result (λ n. 0 < length piece.now → 1 ≤ n) }
        ensures room { IfOk result (λ n. n ≡ room_before_cut self.old.sent self.old.cuts (length piece.now)) }
        ensures sent { IfOk result (λ n. self.new ≡ wire_with (take n piece.now) self.old) }
        ensures kept { OnOk result (self.old.unkept ≡ 0) }
        ensures begun { length self.new.sessions ≡ length self.old.sessions }
        ensures cut { meets_cut piece.now self.old ≡ true → IsErr result × (self.new ≡ wire_cut self.old) }
        ensures starved { OnErr result (meets_cut piece.now self.old ≡ false → self.new ≡ wire_starved self.old) }
        ensures failed { OnErr result (Rose self.old.faults self.new.faults) }
        ensures faults { self.old.faults ≤ self.new.faults }
    {
        let room = room_before(&self.cuts, self.sent, piece.len());
        if room == 0 && !piece.is_empty() && !self.sessions.is_unkept() {
            spend(&mut self.cuts, self.sent);
            self.faults = raise(self.faults);
            return Err(Failed);
        }
        match self.sessions.extend(&piece[..room]) {
            Ok(()) => {
                self.sent = self.sent.saturating_add(room as u64);
                Ok(room)
            }
            Err(_) => {
                self.starved = raise(self.starved);
                self.faults = raise(self.faults);
                Err(Failed)
            }
        }
    }
}
