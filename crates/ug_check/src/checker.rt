//! A stream that is read piece by piece into a table.

ghost use Rattle.std.specs.Prelude.{◌≡◌, ◌+◌, ◌<◌, ◌≤◌, ◌^◌, [], ◌++◌, List, ℕ, length, OnOk, IfOk, IfErr, IfSome, IfNone, true, false, if◌then◌else◌};
ghost use Rattle.ug_types.specs.Messages.{Message, message_of};
ghost use Rattle.ug_types.specs.declared.key.Key as route_keys;
ghost use Rattle.ug_message.specs.Tables.{applied};
ghost use Rattle.ug_message.specs.Reading.{message_size};
ghost use Rattle.ug_message.specs.Received.{IsUnfinished, Says, Awaited};
ghost use Rattle.ug_update.specs.Readers.{new_reader, front, behind_message, HasRead};
ghost use Rattle.ug_check.specs.Rows.{no_rows, reading_of};
ghost use Rattle.ug_check.specs.Waiting.{with_waiting, AreWaiting, AreWaiting-prop};
ghost use Rattle.ug_check.specs.Checkers.{HasChecked, IsSettled, IsPieceCause};

use crate::stop::Stop;
use crate::table::Table;
use crate::waiting::Change;
use std::alloc::Global;
use ug_types::{Capabilities, Item, Next, NoMemory};
use ug_update::Reader;

/// For each row of the table, the announcements of so many bytes may wait: with their attributes they take memory as the
/// bytes do.
const BYTES_A_ROW: usize = 16;

/// A reader of the stream, the table that its messages left so far, where some announcements still wait, in how many
/// bytes those came, at most, and how many messages and End-of-RIBs there were.
#[derive(Drop)]
pub struct Checker {
    pub reader: Reader,
    pub table: Table,
    pub waiting: Vec<Change>,
    bytes: usize,
    pub messages: u64,
    pub eors: u64,
    ghost awaited: { AreWaiting table.refreshes waiting.items } by { AreWaiting-prop table.refreshes waiting.items },
    ghost counted: { messages ≤ reader.taken },
    ghost marked: { eors ≤ messages },
}

impl Checker {
    /// A checker before any byte.
    pub fn new(alloc: Global, session: Capabilities) -> Checker
        ensures reader { result.reader ≡ new_reader session }
        ensures table { with_waiting result.table result.waiting.items ≡ no_rows }
        ensures messages { result.messages ≡ 0 }
        ensures eors { result.eors ≡ 0 }
    {
        Checker {
            reader: Reader::of(alloc, session),
            table: Table::new(alloc),
            waiting: Vec::new(alloc),
            bytes: 0,
            messages: 0,
            eors: 0,
        }
    }

    /// Takes the messages that the stream has with this piece.
    pub fn take_piece(&mut self, piece: &[u8]) -> Result<(), Stop>
        requires live { self.old.reader.stopped ≡ false }
        requires fits { self.old.reader.taken + length self.old.reader.left + length piece.now < 2 ^ 64 }
        ensures ok { OnOk result ((stream : List ℕ) → HasChecked self.old.reader (with_waiting self.old.table self.old.waiting.items) self.old.messages self.old.eors stream →
            IsSettled self.new.reader (with_waiting self.new.table self.new.waiting.items) self.new.messages self.new.eors (stream ++ piece.now)) }
        ensures stopped { IfErr result (λ stop. (stream : List ℕ) → HasChecked self.old.reader (with_waiting self.old.table self.old.waiting.items) self.old.messages self.old.eors stream →
            IsPieceCause stop self.old.reader.session (stream ++ piece.now)) }
        ensures live { OnOk result (self.new.reader.stopped ≡ false) }
        ensures size { OnOk result (self.new.reader.taken + length self.new.reader.left ≡ self.old.reader.taken + length self.old.reader.left + length piece.now) }
        ensures session { OnOk result (self.new.reader.session ≡ self.old.reader.session) }
    {
        match self.reader.feed(piece) {
            Ok(()) => {}
            Err(NoMemory) => return Err(Stop::NoMemory),
        }
        loop {
            match self.step() {
                Ok(true) => {}
                Ok(false) => return self.relieve(piece.len()),
                Err(stop) => return Err(stop),
            }
        }
    }

    /// Takes the next message, where there is one, and answers whether there was.
    fn step(&mut self) -> Result<bool, Stop>
        requires { self.old.reader.stopped ≡ false }
        ensures ok { OnOk result ((stream : List ℕ) → HasChecked self.old.reader (with_waiting self.old.table self.old.waiting.items) self.old.messages self.old.eors stream →
            HasChecked self.new.reader (with_waiting self.new.table self.new.waiting.items) self.new.messages self.new.eors stream) }
        ensures more { IfOk result (λ more. more ≡ true → length self.new.reader.left < length self.old.reader.left) }
        ensures last { IfOk result (λ more. more ≡ false → IsUnfinished self.new.reader.session self.new.reader.left) }
        ensures stopped { IfErr result (λ stop. (stream : List ℕ) → HasChecked self.old.reader (with_waiting self.old.table self.old.waiting.items) self.old.messages self.old.eors stream →
            IsPieceCause stop self.old.reader.session stream) }
        ensures live { OnOk result (self.new.reader.stopped ≡ false) }
        ensures size { OnOk result (self.new.reader.taken + length self.new.reader.left ≡ self.old.reader.taken + length self.old.reader.left) }
        ensures session { OnOk result (self.new.reader.session ≡ self.old.reader.session) }
    {
        match next_item(&mut self.reader) {
            Ok(None) => Ok(false),
            Ok(Some(item)) => match self.take_item(&item) {
                Ok(()) => Ok(true),
                Err(stop) => Err(stop),
            },
            Err(stop) => Err(stop),
        }
    }

    /// Brings the table up to date where announcements of many bytes wait, with those of a piece of this length.
    fn relieve(&mut self, len: usize) -> Result<(), Stop>
        ensures ok { OnOk result ((stream : List ℕ) → IsSettled self.old.reader (with_waiting self.old.table self.old.waiting.items) self.old.messages self.old.eors stream →
            IsSettled self.new.reader (with_waiting self.new.table self.new.waiting.items) self.new.messages self.new.eors stream) }
        ensures reader { self.new.reader ≡ self.old.reader }
        ensures cause { IfErr result (λ stop. stop ≡ Stop.NoMemory) }
    {
        self.bytes = self.bytes.saturating_add(len);
        if self.bytes / BYTES_A_ROW < self.table.len() {
            return Ok(());
        }
        self.finish()
    }

    /// Brings the table up to date: no announcement waits then.
    pub fn finish(&mut self) -> Result<(), Stop>
        ensures ok { OnOk result ((stream : List ℕ) → IsSettled self.old.reader (with_waiting self.old.table self.old.waiting.items) self.old.messages self.old.eors stream →
            IsSettled self.new.reader self.new.table self.new.messages self.new.eors stream) }
        ensures none { self.new.waiting.items ≡ [] }
        ensures reader { self.new.reader ≡ self.old.reader }
        ensures cause { IfErr result (λ stop. stop ≡ Stop.NoMemory) }
    {
        self.bytes = 0;
        self.table.take_in(&mut self.waiting)?;
        Ok(())
    }

    /// Takes the message that the reader gave last.
    fn take_item(&mut self, item: &Item) -> Result<(), Stop>
        requires { self.old.messages < self.old.reader.taken }
        ensures reader { self.new.reader ≡ self.old.reader }
        ensures table { OnOk result ((key : route_keys.Key) →
            (reading_of (with_waiting self.new.table self.new.waiting.items)).table key ≡ (applied (reading_of (with_waiting self.old.table self.old.waiting.items)) (message_of item.now)).table key) }
        ensures stale { OnOk result ((key : route_keys.Key) →
            (reading_of (with_waiting self.new.table self.new.waiting.items)).stale key ≡ (applied (reading_of (with_waiting self.old.table self.old.waiting.items)) (message_of item.now)).stale key) }
        ensures messages { OnOk result (self.new.messages ≡ self.old.messages + 1) }
        ensures eors { OnOk result (self.new.eors ≡ self.old.eors + (if self.old.reader.ended then 1 else 0)) }
        ensures cause { IfErr result (λ stop. stop ≡ Stop.NoMemory) }
    {
        self.table.follow(item, &mut self.waiting)?;
        let is_end_of_rib = self.reader.was_eor();
        self.messages += 1;
        if is_end_of_rib {
            self.eors += 1;
        }
        Ok(())
    }
}

/// The next message, where a whole one is there.
fn next_item(reader: &mut Reader) -> Result<Option<Item>, Stop>
    requires { reader.old.stopped ≡ false }
    ensures some { IfOk result (λ next. IfSome next (λ item. front reader.old ≡ Says (message_of item))) }
    ensures size { IfOk result (λ next. IfSome next (λ _. (1 ≤ message_size reader.old.left) × (message_size reader.old.left ≤ length reader.old.left))) }
    ensures behind { IfOk result (λ next. IfSome next (λ _. reader.new ≡ behind_message reader.old)) }
    ensures grows { reader.old.taken ≤ reader.new.taken }
    ensures none { IfOk result (λ next. IfNone next ((reader.new ≡ reader.old) × (front reader.old ≡ Awaited))) }
    ensures stopped { IfErr result (λ stop. (stream : List ℕ) → (given : List Message) → HasRead reader.old stream given →
        IsPieceCause stop reader.old.session stream) }
{
    match reader.next() {
        Ok(Next::NeedMore) => Ok(None),
        Ok(Next::Bad { cause, offset }) => Err(Stop::Malformed { cause, offset }),
        Ok(Next::Message(item)) => Ok(Some(item)),
        Err(NoMemory) => Err(Stop::NoMemory),
    }
}
