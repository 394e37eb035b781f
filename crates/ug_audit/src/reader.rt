//! A session heard to its end.

ghost use Rattle.std.specs.Prelude.{◌≡◌, ◌≤◌, ℕ, List, IfOk, IfErr, IsErrOf};
ghost use Rattle.std.proofs.Common.{◌∙◌};
ghost use Rattle.ug_edge.specs.Told.{Rose};
ghost use Rattle.ug_pieces.specs.Pieces.{HasRead};
ghost use Rattle.ug_audit.specs.Heard.{HasHeard, HasGone, room_in};
ghost use Rattle.ug_audit.specs.HeardLaws.{goes_nowhere, goes_further};
ghost use Rattle.ug_audit.specs.Verdicts.{IsVerdictOn, IsVerdict, IsStop};

use crate::listener::Listener;
use crate::verdict::Verdict;
use std::alloc::Global;
use ug_edge::Source;
use ug_hearing::Session;
use ug_pieces::{Halt, Taker, read_pieces};
use ug_types::{Capabilities, NoMemory};

/// The most bytes of a session.
const MOST_BYTES: usize = 1 << 30;

impl Taker<Session> for Listener {
    type Stop = NoMemory;

    ghost has_taken = { HasGone };

    ghost has_stopped = { λ t s u s' bytes _. s' ≡ s };

    ghost bound = { room_in };

    fn take(&mut self, piece: &[u8], session: &mut Session) -> Result<(), NoMemory> {
        self.take_piece(session, piece)
    }

    ghost takes_none = { λ t s. goes_nowhere t s };

    ghost takes_more = { λ t u v s s' s'' front more. goes_further t u v s s' s'' front more };

    ghost stops_later = { λ t u v s s' s'' front more stop first later. later ∙ first.0 };
}

/// Reads the bytes of a session from the source to their end, whatever is found in them, and judges them. It never holds
/// more of them than a piece and a message. A byte past the 1,073,741,824th ends it. What the session was opened with the
/// bytes don't say.
pub fn hear<E: Source>(
    alloc: Global,
    capabilities: Capabilities,
    session: &mut Session,
    source: &mut E,
) -> Result<Verdict, Halt<NoMemory>>
    ensures ok { IfOk result (λ verdict. HasRead (E.left source.old) (E.left source.new) (IsVerdict capabilities session.old (E.left source.new) verdict)) }
    ensures stopped { IfErr result (λ halt. HasRead (E.left source.old) (E.left source.new) (IsStop halt)) }
    ensures same { session.new ≡ session.old }
    ensures unread { IsErrOf result Halt.Read → Rose (E.faults source.old) (E.faults source.new) }
    ensures unharmed { (IsErrOf result Halt.Read → ⊥) → E.faults source.new ≡ E.faults source.old }
    ensures faults { E.faults source.old ≤ E.faults source.new }
    ensures files { E.files source.new ≡ E.files source.old }
    ensures picks { E.picks source.new ≡ E.picks source.old }
    ensures made { E.made source.new ≡ E.made source.old }
    ensures wire_faults { E.wire_faults source.new ≡ E.wire_faults source.old }
{
    let mut listener = match Listener::new(alloc, capabilities, session) {
        Ok(listener) => listener,
        Err(NoMemory) => return Err(Halt::Stopped(NoMemory)),
    };
    match read_pieces(alloc, MOST_BYTES, source, &mut listener, session) {
        Ok(()) => {}
        Err(halt) => return Err(halt),
    }
    match verdict_of(listener, session) {
        Ok(verdict) => Ok(verdict),
        Err(NoMemory) => Err(Halt::Stopped(NoMemory)),
    }
}

/// What is found of a session all of whose bytes came.
fn verdict_of(listener: Listener, session: &Session) -> Result<Verdict, NoMemory>
    ensures { IfOk result (λ verdict. (c : _) (stream : List ℕ) → HasHeard c session.now listener stream → IsVerdictOn c session.now stream verdict) }
{
    let mut listener = listener;
    listener.settle(session)?;
    match listener.judge.end(session, listener.ending()) {
        Some(breach) => Ok(Verdict::Broken(breach)),
        None => Ok(Verdict::Right(listener.judge)),
    }
}
