ghost use Rattle.std.specs.Prelude.{◌≡◌, ◌+◌, ◌<◌, ◌≤◌, ◌^◌, [], ◌++◌, List, ℕ, true, false, length, OnOk, OnErr, IfOk, IsOk};
ghost use Rattle.ug_types.specs.declared.family.Family.TheVariants.{V4};
ghost use Rattle.ug_types.specs.Messages as messages;
ghost use Rattle.ug_message.specs.Received.{front_of};
ghost use Rattle.ug_update.specs.Readers.{ReaderState, new_reader, fed, front, answer_of, answer_at, state_after, given_by, HasRead, IsRight, ahead_of, IsSized};

use crate::ahead::Ahead;
use crate::fault::{Fault, MessageFault};
use crate::reading::{header_fault, read_body, size_at};
use crate::window::Window;
use std::alloc::Global;
use std::marker::Model;
use ug_types::{Capabilities, Family, Next, NoMemory};

/// Reads a stream of messages that comes in pieces, wherever these are cut.
///
/// A header is judged when its 19 bytes are there, and a body when the whole message is. The causes of a `Bad`, the
/// first of which decides, and their offsets, counted from the start of the stream: 1 a byte of the marker isn't ff
/// (the message); 2 the length is below 19, above the limit (4,096 bytes, or 65,535 where extended messages are in
/// use), below 23 in an UPDATE, or not 23 in a ROUTE-REFRESH (the length field); 3 the type is neither of these two
/// (the type); 4 the withdrawn routes and the next length don't fit in the message (the first length field); 5 the
/// attributes don't (the second one); 6 a prefix has over 32 bits, or over
/// 128 in a session of IPv6 routes (its length byte); 7 a route is cut short (the route); 9, in such a session, routes
/// stand outside of the attributes (the message); 11 to 19 a fault of the attributes, ten more than its number in
/// `AttrFault` (the attribute, and for 17 the second length field).
#[derive(Drop)]
pub struct Reader {
    alloc: Global,
    session: Capabilities,
    taken: u64,
    left: Window,
    fault: Option<Fault>,
    ended: bool,
}

impl Model for Reader {
    ghost use Rattle.std.specs.Prelude.{is_some};
    ghost use Rattle.ug_message.specs.Received.{front_of};
    ghost use Rattle.ug_update.specs.Readers.{ReaderState, IsReader};

    ghost Value = { ReaderState };

    ghost view = { λ r. record { session = r.session; taken = r.taken; left = r.left; stopped = is_some r.fault; ended = r.ended } };

    ghost invariant = { λ r. IsReader r.taken r.left r.fault (front_of r.session r.left) };
}

impl Reader {
    /// A reader of a session of IPv4 routes, before any byte has come. It takes no memory.
    pub fn new(alloc: Global, add_path: bool, extended: bool) -> Reader
        ensures is { result ≡ new_reader (record { family = V4; add_path = add_path; extended = extended }) }
        ensures stream { HasRead result [] [] }
    {
        let family = Family::V4;
        let session = Capabilities {
            family,
            add_path,
            extended,
        };
        Reader::of(alloc, session)
    }

    /// A reader of a session of either family, before any byte has come. It takes no memory.
    pub fn of(alloc: Global, session: Capabilities) -> Reader
        ensures is { result ≡ new_reader session }
        ensures stream { HasRead result [] [] }
    {
        Reader {
            alloc,
            session,
            taken: 0,
            left: Window::new(alloc),
            fault: None,
            ended: false,
        }
    }

    /// Adds the next piece of the stream. Behind a fault it adds nothing. Running out of memory changes nothing.
    pub fn feed(&mut self, piece: &[u8]) -> Result<(), NoMemory>
        requires { self.old.stopped ≡ false → self.old.taken + length self.old.left + length piece.now < 2 ^ 64 }
        ensures ok { OnOk result (self.new ≡ fed self.old piece.now) }
        ensures size { self.new.taken + length self.new.left ≤ self.old.taken + length self.old.left + length piece.now }
        ensures err { OnErr result (self.new ≡ self.old) }
        // The stream goes on with the piece.
        ensures stream { OnOk result (self.old.stopped ≡ false →
            ((stream : List ℕ) → (given : List messages.Message) → HasRead self.old stream given → HasRead self.new (stream ++ piece.now) given)) }
        ensures settled { self.old.stopped ≡ true → IsOk result }
    {
        if self.fault.is_some() {
            return Ok(());
        }
        self.left.push(piece)
    }

    /// What comes next: a message, nothing before more bytes come, or a fault, which is answered ever after. Running
    /// out of memory changes nothing.
    pub fn next(&mut self) -> Result<Next, NoMemory>
        ensures answer { IfOk result (λ next. answer_of next ≡ answer_at self.old.taken (front self.old)) }
        ensures state { OnOk result (self.new ≡ state_after self.old (front self.old)) }
        // No byte is lost: what is taken is no longer left.
        ensures size { self.new.taken + length self.new.left ≡ self.old.taken + length self.old.left }
        ensures err { OnErr result (self.new ≡ self.old) }
        // Of the whole stream that was fed, in whatever pieces, these are the messages, and the answer is right.
        ensures given { IfOk result (λ next. (stream : List ℕ) → (given : List messages.Message) →
            HasRead self.old stream given → HasRead self.new stream (given ++ given_by next)) }
        ensures right { IfOk result (λ next. (stream : List ℕ) → (given : List messages.Message) →
            HasRead self.old stream given → IsRight self.new stream given next) }
        ensures settled { self.old.stopped ≡ true → IsOk result }
    {
        self.step()
    }

    fn step(&mut self) -> Result<Next, NoMemory>
        ensures answer { IfOk result (λ next. answer_of next ≡ answer_at self.old.taken (front self.old)) }
        ensures state { OnOk result (self.new ≡ state_after self.old (front self.old)) }
        ensures size { self.new.taken + length self.new.left ≡ self.old.taken + length self.old.left }
        ensures err { OnErr result (self.new ≡ self.old) }
        ensures settled { self.old.stopped ≡ true → IsOk result }
    {
        if let Some(fault) = self.fault {
            return Ok(bad(self.taken, fault));
        }
        match ahead(self.alloc, self.session, self.left.as_slice())? {
            Ahead::Awaited => Ok(Next::NeedMore),
            Ahead::Faulty(fault) => {
                self.fault = Some(fault);
                Ok(bad(self.taken, fault))
            }
            Ahead::Message(item, size, ended) => {
                self.ended = ended;
                self.left.take(size);
                self.taken += size as u64;
                Ok(Next::Message(item))
            }
        }
    }

    /// How many bytes have come and aren't taken.
    pub fn rest(&self) -> usize
        ensures rest { result ≡ length self.now.left }
        ensures fits { self.now.taken + length self.now.left < 2 ^ 64 }
    {
        self.left.len()
    }

    /// Whether a message was given and the last one that was given is End-of-RIB.
    pub fn was_eor(&self) -> bool
        ensures ended { result ≡ self.now.ended }
        ensures fits { self.now.taken + length self.now.left < 2 ^ 64 }
    {
        self.ended
    }
}

fn bad(taken: u64, fault: Fault) -> Next
    requires { taken + fault.place < 2 ^ 64 }
    ensures { answer_of result ≡ answer_at taken (ahead_of (Ahead.Faulty fault)) }
{
    Next::Bad {
        cause: fault.cause,
        offset: taken + fault.place as u64,
    }
}

/// What the bytes begin with.
#[tactic(auto, using(ug_message::proofs::Headers::body_size), unfolding(ug_message::specs::Received::front_of))]
pub fn ahead(alloc: Global, session: Capabilities, bytes: &[u8]) -> Result<Ahead, NoMemory>
    ensures exact { IfOk result (λ a. ahead_of a ≡ front_of session bytes.now) }
    ensures size { IfOk result (IsSized session.family bytes.now) }
{
    if bytes.len() < 19 {
        return Ok(Ahead::Awaited);
    }
    if let Some(fault) = header_fault(session, bytes) {
        return Ok(Ahead::Faulty(fault));
    }
    let size = size_at(16, bytes);
    if bytes.len() < size {
        return Ok(Ahead::Awaited);
    }
    let (message, _) = bytes.split_at(size);
    match read_body(alloc, session, message) {
        Ok((item, ended)) => Ok(Ahead::Message(item, size, ended)),
        Err(MessageFault::Refused(fault)) => Ok(Ahead::Faulty(fault)),
        Err(MessageFault::NoMemory) => Err(NoMemory),
    }
}
