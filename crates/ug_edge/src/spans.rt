//! Sessions that lie one behind the other in memory that was taken before.

ghost use Rattle.std.specs.Prelude.{◌≡◌, ℕ, ◌+◌, ◌-◌, ◌<◌, ◌≤◌, [], ◌∷◌, ◌++◌, List, length, true, false, Some, IfOk, slice_get, slice_range};
ghost use Rattle.ug_edge.specs.Told.{onto_last};
ghost use Rattle.ug_edge.specs.RoomState.{SpansState, parts_from, AreStarts};

use std::alloc::Global;
use std::marker::Model;
use ug_types::{ByteList, NoMemory, Sequence};

/// The bytes of sessions, and where each session begins, with room for more of both.
#[derive(Drop)]
pub(crate) struct Spans {
    bytes: ByteList,
    starts: Sequence<usize>,
    room: usize,
    sessions_left: usize,
}

impl Model for Spans {
    ghost use Rattle.std.specs.Prelude.{length, ◌≤◌};
    ghost use Rattle.ug_edge.specs.RoomState.{SpansState, parts_from, AreStarts};

    ghost Value = { SpansState };

    ghost view = { λ s. record { sessions = parts_from s.starts.items s.bytes.items; sessions_left = s.sessions_left; room = s.room } };

    ghost invariant = { λ s. AreStarts s.starts.items (length s.bytes.items) × (s.room ≤ s.bytes.spare) × (s.sessions_left ≤ s.starts.spare) };
}

impl Spans {
    /// No sessions, and memory for so many of them and so many bytes.
    pub fn new(alloc: Global, sessions: usize, bytes: usize) -> Result<Spans, NoMemory>
        ensures { IfOk result (λ made. made ≡ record { sessions = []; sessions_left = sessions; room = bytes }) }
    {
        let mut starts = Sequence::new(alloc);
        starts.reserve(sessions)?;
        let mut kept = Sequence::new(alloc);
        kept.reserve(bytes)?;
        Ok(Spans {
            bytes: kept,
            starts,
            room: bytes,
            sessions_left: sessions,
        })
    }

    /// How many sessions there are.
    #[tactic(auto, using(crate::proofs::RoomLemmas::parts_from_length))]
    pub fn len(&self) -> usize
        ensures { result ≡ length self.now.sessions }
    {
        self.starts.len()
    }

    /// How many bytes there is room for.
    pub fn room(&self) -> usize
        ensures { result ≡ self.now.room }
    {
        self.room
    }

    /// The bytes of a session, counted from 0.
    #[tactic(auto, using(crate::proofs::RoomLemmas::parts_from_length))]
    pub fn at(&self, place: usize) -> &[u8]
        requires { place < length self.now.sessions }
        ensures { slice_get self.now.sessions place ≡ Some result.now }
    {
        let bytes = self.bytes.as_slice();
        let (from, to) = bounds(self.starts.as_slice(), bytes.len(), place);
        &bytes[from..to]
    }

    /// Adds an empty session, where there is room for one, and answers whether there was.
    #[tactic(auto, using(crate::proofs::RoomLemmas::parts_from_begun, crate::proofs::RoomLemmas::starts_begun))]
    pub fn begin(&mut self) -> bool
        ensures begun { result ≡ true → (0 < self.old.sessions_left) × (self.new ≡ record { sessions = self.old.sessions ++ [] ∷ []; sessions_left = self.old.sessions_left - 1; room = self.old.room }) }
        ensures full { result ≡ false → (self.old.sessions_left ≡ 0) × (self.new ≡ self.old) }
    {
        if self.sessions_left == 0 {
            return false;
        }
        match self.starts.push(self.bytes.len()) {
            Ok(()) => {}
            Err(_) => unreachable!(),
        }
        self.sessions_left -= 1;
        true
    }

    /// Adds bytes to the last session.
    #[tactic(auto, using(crate::proofs::RoomLemmas::parts_from_extended, crate::proofs::RoomLemmas::onto_last_length))]
    pub fn extend(&mut self, piece: &[u8])
        requires some { 0 < length self.old.sessions }
        requires room { length piece.now ≤ self.old.room }
        ensures extended { self.new ≡ record { sessions = onto_last piece.now self.old.sessions; sessions_left = self.old.sessions_left; room = self.old.room - length piece.now } }
        ensures count { length self.new.sessions ≡ length self.old.sessions }
    {
        self.room -= piece.len();
        match self.bytes.extend_from_slice(piece) {
            Ok(()) => {}
            Err(NoMemory) => unreachable!(),
        }
    }
}

/// Where the session at that place begins and ends.
fn bounds(starts: &[usize], end: usize, place: usize) -> (usize, usize)
    requires laid { AreStarts starts.now end }
    requires inside { place < length starts.now }
    ensures ordered { result.0 ≤ result.1 }
    ensures within { result.1 ≤ end }
    ensures part { (bytes : List ℕ) → length bytes ≡ end → slice_get (parts_from starts.now bytes) place ≡ Some (slice_range bytes result.0 result.1) }
{
    let next = place + 1;
    if next < starts.len() {
        (starts[place], starts[next])
    } else {
        (starts[place], end)
    }
}
