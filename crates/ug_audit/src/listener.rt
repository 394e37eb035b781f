//! A session heard as far as its bytes have come.

ghost use Rattle.std.specs.Prelude.{◌≡◌, ◌<◌, ◌≤◌, ◌+◌, ◌++◌, ◌^◌, ℕ, List, [], length, true, false, OnOk, IfOk};
ghost use Rattle.ug_hearing.specs.Breaches.{IsReadAs};
ghost use Rattle.ug_audit.specs.Heard.{HasHeard, IsSettled, bytes_in};

use std::alloc::Global;
use ug_hearing::{Ending, Judge, Session};
use ug_types::{Capabilities, Next, NoMemory};
use ug_update::Reader;

/// A reader of the bytes, a judge of the messages that they say, and whether a fault was found, behind which nothing is
/// heard.
#[derive(Drop)]
pub struct Listener {
    pub alloc: Global,
    pub reader: Reader,
    pub judge: Judge,
    pub faulty: bool,
}

impl Listener {
    /// A listener before any byte.
    pub fn new(
        alloc: Global,
        capabilities: Capabilities,
        session: &Session,
    ) -> Result<Listener, NoMemory>
        ensures heard { IfOk result (λ listener. HasHeard capabilities session.now listener []) }
        ensures none { IfOk result (λ listener. bytes_in listener ≡ 0) }
    {
        let judge = Judge::new(alloc, session)?;
        Ok(Listener {
            alloc,
            reader: Reader::of(alloc, capabilities),
            judge,
            faulty: false,
        })
    }

    /// Hears the messages that the bytes have with this piece.
    pub fn take_piece(&mut self, session: &Session, piece: &[u8]) -> Result<(), NoMemory>
        requires { bytes_in self.old + length piece.now < 2 ^ 64 }
        ensures heard { OnOk result ((c : _) (stream : List ℕ) → HasHeard c session.now self.old stream → HasHeard c session.now self.new (stream ++ piece.now)) }
        ensures size { OnOk result (bytes_in self.new ≤ bytes_in self.old + length piece.now) }
    {
        self.feed(session, piece)?;
        self.settle(session)
    }

    /// The bytes go on with this piece.
    fn feed(&mut self, session: &Session, piece: &[u8]) -> Result<(), NoMemory>
        requires { bytes_in self.old + length piece.now < 2 ^ 64 }
        ensures heard { OnOk result ((c : _) (stream : List ℕ) → HasHeard c session.now self.old stream → HasHeard c session.now self.new (stream ++ piece.now)) }
        ensures size { bytes_in self.new ≤ bytes_in self.old + length piece.now }
    {
        if self.faulty {
            return Ok(());
        }
        self.reader.feed(piece)?;
        Ok(())
    }

    /// Hears all messages that are there.
    pub fn settle(&mut self, session: &Session) -> Result<(), NoMemory>
        ensures heard { OnOk result ((c : _) (stream : List ℕ) → HasHeard c session.now self.old stream → IsSettled c session.now self.new stream) }
        ensures size { bytes_in self.new ≤ bytes_in self.old }
    {
        loop {
            let more = self.step(session)?;
            if !more {
                return Ok(());
            }
        }
    }

    /// Hears the next message, where there is one, and answers whether there was.
    fn step(&mut self, session: &Session) -> Result<bool, NoMemory>
        ensures heard { OnOk result ((c : _) (stream : List ℕ) → HasHeard c session.now self.old stream → HasHeard c session.now self.new stream) }
        ensures last { IfOk result (λ more. more ≡ false → (c : _) (stream : List ℕ) → HasHeard c session.now self.old stream → IsSettled c session.now self.new stream) }
        ensures more { IfOk result (λ more. more ≡ true → length self.new.reader.left < length self.old.reader.left) }
        ensures size { bytes_in self.new ≤ bytes_in self.old }
    {
        if self.faulty {
            return Ok(false);
        }
        match self.reader.next()? {
            Next::NeedMore => Ok(false),
            Next::Bad { .. } => {
                self.faulty = true;
                Ok(false)
            }
            Next::Message(item) => {
                self.judge.message(self.alloc, session, &item)?;
                Ok(true)
            }
        }
    }

    /// What stands behind the messages.
    pub fn ending(&self) -> Ending
        ensures { (c : _) (session : _) (stream : List ℕ) → (h : IsSettled c session self.now stream) → IsReadAs c stream h.heard.messages result }
    {
        if self.faulty {
            return Ending::Malformed;
        }
        if self.reader.rest() > 0 {
            return Ending::Cut;
        }
        Ending::Whole
    }
}
