//! A history as it is stored.

ghost use Rattle.std.specs.Prelude.{◌≡◌, ◌+◌, ◌<◌, ◌≤◌, ◌^◌, ◌∷◌, [], ◌++◌, length, slice_get, Some, OnOk, OnErr, IsOk};
ghost use Rattle.ug_board.specs.declared.steps.BoardStep.TheVariants.{Job as DoJob, Lane as LaneTakes};
ghost use Rattle.ug_board.specs.declared.steps.BoardSaid.TheVariants.{Job as JobSaid, Lane as LaneGot};
ghost use Rattle.ug_board.specs.declared.steps.LaneStep.TheVariants.{Next, Lost};
ghost use Rattle.ug_board.specs.declared.steps.LaneSaid.TheVariants.{Begun, Noted};
ghost use Rattle.ug_board.specs.Kept.{entry_of, hand_entry, beside_entry, IsWhole};
ghost use Rattle.ug_board.specs.Seen.{seen_entry};

use crate::entry::BoardEntry;
use crate::kept::{Done, Kept, Packet, look};
use crate::machine::Machine;
use std::alloc::Global;
use std::marker::Model;
use ug_segchain::SegChain;
use ug_types::{NoMemory, PeerId};

/// Entries in order. Contracts see them, and beside them `spare`: the number of further entries that it takes in
/// without memory. They stand in segments that stay where they are, 16 bytes each: what is larger stands behind a
/// pointer, or in the list of packets beside, which has room for as many.
#[derive(Drop)]
pub struct History<J, R> {
    kept: SegChain<Kept<J, R>>,
    packets: SegChain<Packet>,
    room: usize,
}

impl<J, R> Model for History<J, R> {
    ghost use Rattle.std.specs.Prelude.{◌≤◌, length};
    ghost use Rattle.ug_types.specs.Listed.{Listed};
    ghost use Rattle.ug_board.specs.Entry.{Entry};

    ghost Value = { Listed (Entry J R) };

    ghost use Rattle.ug_board.specs.Kept.{entries_of, AreWithin};

    ghost view = { λ h. record { items = entries_of h.packets.items h.kept.items; spare = h.room } };

    ghost invariant = { λ h. AreWithin (length h.packets.items) h.kept.items × (h.room ≤ h.kept.spare) × (h.room ≤ h.packets.spare) };
}

/// The history of a machine's steps.
pub type HistoryList<M> = History<<M as Machine>::Job, <M as Machine>::Said>;

impl<J, R> History<J, R> {
    /// The empty history. It takes no memory.
    pub fn new(alloc: Global) -> History<J, R>
        ensures { result.items ≡ [] }
    {
        History {
            kept: SegChain::new(alloc),
            packets: SegChain::new(alloc),
            room: 0,
        }
    }

    /// The number of entries.
    pub fn len(&self) -> usize
        ensures { result ≡ length self.now.items }
    {
        self.kept.len()
    }

    /// For how many further entries there is room.
    pub(crate) fn room(&self) -> usize
        ensures { result ≡ self.now.spare }
    {
        self.room
    }

    /// Entry `i`, counted from 0.
    pub fn at(&self, i: usize) -> BoardEntry<&J, &R>
        requires { i < length self.now.items }
        ensures { slice_get self.now.items i ≡ Some (seen_entry result) }
    {
        look(&self.packets, self.kept.at(i))
    }

    /// Makes room for `n` further entries, and from then on counts on no more of it. Running out of memory leaves it as it was.
    pub(crate) fn reserve(&mut self, n: usize) -> Result<(), NoMemory>
        ensures items { self.new.items ≡ self.old.items }
        ensures room { OnOk result (self.new.spare ≡ n) }
        ensures spare { OnErr result (self.new.spare ≡ self.old.spare) }
    {
        self.kept.reserve(n)?;
        self.packets.reserve(n)?;
        self.room = n;
        Ok(())
    }

    /// Adds a job that was done.
    pub(crate) fn add_job(&mut self, pass: u32, done: Box<Done<J, R>>)
        requires { 1 ≤ self.old.spare }
        ensures items { self.new.items ≡ self.old.items ++ record { pass = pass; step = DoJob done.value.job; said = JobSaid done.value.said } ∷ [] }
        ensures spare { self.old.spare ≤ self.new.spare + 1 }
    {
        self.add(Kept::Job { pass, done });
    }

    /// Adds a session that was begun.
    pub(crate) fn add_begun(&mut self, pass: u32, peer: PeerId, session: u32)
        requires { 1 ≤ self.old.spare }
        ensures items { self.new.items ≡ self.old.items ++ record { pass = pass; step = LaneTakes (Next peer); said = LaneGot (Begun session) } ∷ [] }
        ensures spare { self.old.spare ≤ self.new.spare + 1 }
    {
        self.add(Kept::Begun {
            pass,
            peer,
            session,
        });
    }

    /// Adds a packet that was handed out.
    pub(crate) fn add_hand(&mut self, pass: u32, peer: PeerId, session: u32, made: u64, len: usize)
        requires room { 1 ≤ self.old.spare }
        requires len { len < 2 ^ 32 }
        ensures items { self.new.items ≡ self.old.items ++ hand_entry pass peer session made len ∷ [] }
        ensures spare { self.old.spare ≤ self.new.spare + 1 }
    {
        if session < 256 && len < 65536 && made < 4294967296 {
            self.add(Kept::Hand {
                session: session as u8,
                len: len as u16,
                pass,
                peer,
                made: made as u32,
            });
            return;
        }
        self.add_beside(
            pass,
            Packet {
                peer,
                session,
                len: len as u32,
                made,
            },
        );
    }

    /// Adds a loss that was noted.
    pub(crate) fn add_lost(&mut self, pass: u32, peer: PeerId, session: u32)
        requires { 1 ≤ self.old.spare }
        ensures items { self.new.items ≡ self.old.items ++ record { pass = pass; step = LaneTakes (Lost peer session); said = LaneGot Noted } ∷ [] }
        ensures spare { self.old.spare ≤ self.new.spare + 1 }
    {
        self.add(Kept::Lost {
            pass,
            peer,
            session,
        });
    }

    fn add(&mut self, kept: Kept<J, R>)
        requires room { 1 ≤ self.old.spare }
        requires whole { IsWhole kept }
        ensures items { self.new.items ≡ self.old.items ++ entry_of [] kept ∷ [] }
        ensures spare { self.new.spare + 1 ≡ self.old.spare }
    {
        self.kept.push(kept);
        self.room -= 1;
    }

    fn add_beside(&mut self, pass: u32, packet: Packet)
        requires { 1 ≤ self.old.spare }
        ensures items { self.new.items ≡ self.old.items ++ beside_entry pass (Some packet) ∷ [] }
        ensures spare { self.new.spare + 1 ≡ self.old.spare }
    {
        let place = self.packets.len();
        self.packets.push(packet);
        self.kept.push(Kept::Beside { pass, place });
        self.room -= 1;
    }
}
