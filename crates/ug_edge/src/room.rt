//! A wire that takes all its memory when it is made.

ghost use Rattle.std.specs.Prelude.{◌≡◌, ◌+◌, ◌-◌, ◌<◌, ◌≤◌, [], ◌∷◌, ◌++◌, length, take, min, true, false, Some, OnOk, OnErr, IfOk, slice_get};
ghost use Rattle.ug_edge.specs.Told.{Rose};
ghost use Rattle.ug_edge.specs.RoomState.{RoomState, for_nobody, fresh_room, room_begun, room_unkept, room_with, room_failed, room_refuses};

use crate::counts::raise;
use crate::outside::{Failed, Wire};
use crate::spans::Spans;
use std::alloc::Global;
use std::marker::Model;
use ug_types::NoMemory;

/// A wire that no site made. It tells its sessions, and has room for so many of them and for so many bytes over all of them together.
/// A session for which there was no room is there, but takes no bytes, and so are those after it.
#[derive(Drop)]
pub struct RoomWire {
    spans: Spans,
    unkept: u32,
    faults: u64,
}

impl Model for RoomWire {
    ghost use Rattle.std.specs.Prelude.{◌≡◌, ◌+◌, ◌<◌, ◌≤◌, ◌++◌, [], length, replicate};
    ghost use Rattle.ug_edge.specs.RoomState.{RoomState};

    ghost Value = { RoomState };

    ghost view = { λ w. record {
      sessions = w.spans.sessions ++ replicate w.unkept [];
      unkept = w.unkept;
      sessions_left = w.spans.sessions_left;
      room = w.spans.room;
      faults = w.faults;
    } };

    ghost invariant = { λ w. (length w.spans.sessions + w.unkept ≤ 4294967295) × (0 < w.unkept → w.spans.sessions_left ≡ 0) };
}

impl RoomWire {
    /// A wire with no sessions, and room for so many of them and so many bytes.
    pub fn new(alloc: Global, sessions: usize, bytes: usize) -> Result<RoomWire, NoMemory>
        ensures { IfOk result (λ wire. wire ≡ fresh_room sessions bytes) }
    {
        Ok(RoomWire {
            spans: Spans::new(alloc, sessions, bytes)?,
            unkept: 0,
            faults: 0,
        })
    }

    /// How many sessions there are.
    pub fn sessions(&self) -> u32
        ensures { result ≡ length self.now.sessions }
    {
        self.spans.len() as u32 + self.unkept
    }

    /// The bytes of a session, which are numbered from 1.
    pub fn session(&self, n: u32) -> &[u8]
        requires from { 1 ≤ n }
        requires to { n ≤ length self.now.sessions }
        ensures { slice_get self.now.sessions (n - 1) ≡ Some result.now }
    {
        let place = (n - 1) as usize;
        if place < self.spans.len() {
            self.spans.at(place)
        } else {
            &[]
        }
    }
}

impl Wire for RoomWire {
    ghost sessions = { λ wire. Some wire.sessions };

    ghost begun = { λ wire. length wire.sessions };

    ghost faults = { λ wire. wire.faults };

    ghost made_for = { λ _. for_nobody };

    fn begin(&mut self) -> Result<(), Failed>
        requires { length self.old.sessions < 4294967295 }
        ensures ok { OnOk result ((0 < self.old.sessions_left) × (self.new ≡ room_begun self.old)) }
        ensures err { OnErr result ((self.old.sessions_left ≡ 0) × (self.new ≡ room_unkept self.old)) }
        ensures failed { OnErr result (Rose self.old.faults self.new.faults) }
        ensures faults { self.old.faults ≤ self.new.faults }
        ensures sessions { self.new.sessions ≡ self.old.sessions ++ [] ∷ [] }
        ensures count { length self.new.sessions ≡ length self.old.sessions + 1 }
    {
        if self.unkept == 0 && self.spans.begin() {
            return Ok(());
        }
        self.unkept += 1;
        self.faults = raise(self.faults);
        Err(Failed)
    }

    fn send(&mut self, piece: &[u8]) -> Result<usize, Failed>
        requires { 0 < length self.old.sessions }
        ensures count { IfOk result (λ n. n ≡ min self.old.room (length piece.now)) }
        ensures some { IfOk result (λ n. 0 < length piece.now → 1 ≤ n) }
        ensures sent { IfOk result (λ n. self.new ≡ room_with (take n piece.now) self.old) }
        ensures taken { OnOk result (room_refuses piece.now self.old ≡ false) }
        ensures err { OnErr result ((room_refuses piece.now self.old ≡ true) × (self.new ≡ room_failed self.old)) }
        ensures failed { OnErr result (Rose self.old.faults self.new.faults) }
        ensures faults { self.old.faults ≤ self.new.faults }
        ensures begun { length self.new.sessions ≡ length self.old.sessions }
    {
        let count = self.spans.room().min(piece.len());
        if self.unkept > 0 || (count == 0 && !piece.is_empty()) {
            self.faults = raise(self.faults);
            return Err(Failed);
        }
        self.spans.extend(&piece[..count]);
        Ok(count)
    }
}
