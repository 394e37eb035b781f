//! The bytes of a stream that have come and aren't taken yet.

ghost use Rattle.std.specs.Prelude.{◌≡◌, ◌+◌, ◌<◌, ◌≤◌, [], ◌++◌, length, drop, OnOk, OnErr};

use std::alloc::Global;
use std::marker::Model;
use ug_types::NoMemory;

/// Bytes of which some at the front are taken. Those that are left move to the front only where they are no more
/// than the taken ones, so that each byte moves once for each byte that was taken, however the pieces come.
#[derive(Drop)]
pub struct Window {
    bytes: Vec<u8>,
    start: usize,
}

impl Model for Window {
    ghost use Rattle.std.specs.Prelude.{List, ℕ, ◌≤◌, length, drop};

    ghost Value = { List ℕ };

    ghost view = { λ w. drop w.start w.bytes.items };

    ghost invariant = { λ w. w.start ≤ length w.bytes.items };
}

impl Window {
    pub fn new(alloc: Global) -> Window
        ensures { result ≡ [] }
    {
        Window {
            bytes: Vec::new(alloc),
            start: 0,
        }
    }

    pub fn len(&self) -> usize
        ensures { result ≡ length self.now }
    {
        self.bytes.len() - self.start
    }

    pub fn as_slice(&self) -> &[u8]
        ensures { result.now ≡ self.now }
    {
        let (_, left) = self.bytes.as_slice().split_at(self.start);
        left
    }

    /// Adds a piece at the end. Running out of memory leaves the bytes as they were.
    pub fn push(&mut self, piece: &[u8]) -> Result<(), NoMemory>
        ensures ok { OnOk result (self.new ≡ self.old ++ piece.now) }
        ensures err { OnErr result (self.new ≡ self.old) }
    {
        if self.len() <= self.start {
            self.move_to_front();
        }
        self.bytes.extend_from_slice(piece)?;
        Ok(())
    }

    /// Takes so many bytes from the front.
    pub fn take(&mut self, count: usize)
        requires { count ≤ length self.old }
        ensures { self.new ≡ drop count self.old }
    {
        self.start += count;
    }

    fn move_to_front(&mut self)
        ensures { self.new ≡ self.old }
    {
        let left = self.bytes.len() - self.start;
        self.bytes.copy_within(self.start.., 0);
        self.bytes.truncate(left);
        self.start = 0;
    }
}
