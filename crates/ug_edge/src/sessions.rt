//! The sessions of a wire in memory.

ghost use Rattle.std.specs.Prelude.{◌≡◌, ◌+◌, ◌-◌, ◌<◌, ◌≤◌, ◌↔◌, [], ◌∷◌, ◌++◌, ◌==◌, length, true, false, Some, IsTrue, OnOk, OnErr, slice_get};
ghost use Rattle.std.specs.List.{list_any};
ghost use Rattle.ug_edge.specs.SessionsState.{SessionsState, session_bytes};
ghost use Rattle.ug_edge.specs.Told.{onto_last};

use std::alloc::Global;
use std::marker::Model;
use ug_types::{ByteList, NoMemory, NumberList, Sequence};

/// The bytes of each session. Once a session found no memory it is only counted, and so are those after it.
#[derive(Drop)]
pub(crate) struct Sessions {
    alloc: Global,
    kept: Sequence<ByteList>,
    unkept: u32,
}

impl Model for Sessions {
    ghost use Rattle.std.specs.Prelude.{◌+◌, ◌≤◌, length};
    ghost use Rattle.ug_edge.specs.SessionsState.{SessionsState, session_bytes};

    ghost Value = { SessionsState };

    ghost view = { λ s. record { bytes = session_bytes s.kept.items s.unkept; unkept = s.unkept } };

    ghost invariant = { λ s. length s.kept.items + s.unkept ≤ 4294967295 };
}

impl Sessions {
    /// No sessions.
    pub fn new(alloc: Global) -> Sessions
        ensures { result ≡ record { bytes = []; unkept = 0 } }
    {
        Sessions {
            alloc,
            kept: Sequence::new(alloc),
            unkept: 0,
        }
    }

    /// How many sessions there are.
    pub fn count(&self) -> u32
        ensures { result ≡ length self.now.bytes }
    {
        self.kept.len() as u32 + self.unkept
    }

    /// Whether the number of the session that would be next is listed.
    pub fn lists_next(&self, numbers: &NumberList) -> bool
        ensures { result ≡ list_any (λ number. number == length self.now.bytes + 1) numbers.now.items }
    {
        let next = u64::from(self.count()) + 1;
        numbers
            .as_slice()
            .iter()
            .any(|number| u64::from(*number) == next)
    }

    /// Whether the last session found no memory.
    pub fn is_unkept(&self) -> bool
        ensures { IsTrue result ↔ (0 < self.now.unkept) }
    {
        self.unkept > 0
    }

    /// The bytes of a session, which are numbered from 1.
    pub fn at(&self, number: u32) -> &[u8]
        requires from { 1 ≤ number }
        requires to { number ≤ length self.now.bytes }
        ensures { slice_get self.now.bytes (number - 1) ≡ Some result.now }
    {
        let place = (number - 1) as usize;
        if place < self.kept.len() {
            self.kept.at(place).as_slice()
        } else {
            &[]
        }
    }

    /// Adds an empty session, and answers whether there was memory for it.
    pub fn begin(&mut self) -> bool
        requires { length self.old.bytes < 4294967295 }
        ensures bytes { self.new.bytes ≡ self.old.bytes ++ [] ∷ [] }
        ensures kept { result ≡ true → (self.old.unkept ≡ 0) × (self.new.unkept ≡ 0) }
        ensures unkept { result ≡ false → self.new.unkept ≡ self.old.unkept + 1 }
    {
        if self.unkept == 0 && keep(&mut self.kept, self.alloc) {
            true
        } else {
            self.unkept += 1;
            false
        }
    }

    /// Adds bytes to the last session. This fails, and changes nothing, where memory runs out.
    pub fn extend(&mut self, piece: &[u8]) -> Result<(), NoMemory>
        requires { 0 < length self.old.bytes }
        ensures ok { OnOk result (self.new.bytes ≡ onto_last piece.now self.old.bytes) }
        ensures kept { OnOk result (self.old.unkept ≡ 0) }
        ensures err { OnErr result (self.new.bytes ≡ self.old.bytes) }
        ensures unkept { self.new.unkept ≡ self.old.unkept }
        ensures count { length self.new.bytes ≡ length self.old.bytes }
    {
        if self.unkept > 0 {
            return Err(NoMemory);
        }
        extend_last(&mut self.kept, piece)
    }
}

/// Adds an empty list at the end, and answers whether there was memory for it.
fn keep(kept: &mut Sequence<ByteList>, alloc: Global) -> bool
    ensures kept { result ≡ true → session_bytes kept.new.items 0 ≡ session_bytes kept.old.items 0 ++ [] ∷ [] }
    ensures grown { result ≡ true → length kept.new.items ≡ length kept.old.items + 1 }
    ensures unkept { result ≡ false → kept.new.items ≡ kept.old.items }
{
    match kept.push(Sequence::new(alloc)) {
        Ok(()) => true,
        Err(_) => false,
    }
}

/// Adds bytes to the last list. Running out of memory leaves the bytes of each as they were.
fn extend_last(kept: &mut Sequence<ByteList>, piece: &[u8]) -> Result<(), NoMemory>
    requires { 0 < length kept.old.items }
    ensures ok { OnOk result (session_bytes kept.new.items 0 ≡ onto_last piece.now (session_bytes kept.old.items 0)) }
    ensures err { OnErr result (session_bytes kept.new.items 0 ≡ session_bytes kept.old.items 0) }
    ensures count { length kept.new.items ≡ length kept.old.items }
{
    let last = kept.len() - 1;
    kept.at_mut(last).extend_from_slice(piece)
}
