//! Lines that are cut from pieces: what is kept of one, and why one was not taken.

ghost use Rattle.std.specs.Prelude.{◌≡◌, ◌≤◌, ◌++◌, take, OnOk, OnErr};
ghost use Rattle.std.specs.Vec.{vec_len};
ghost use Rattle.ug_pieces.specs.LineSteps.{halt_of_stop, halt_of_pieces};

use crate::halt::Halt;
use crate::line_halt::LineHalt;
use ug_types::NoMemory;

/// Why a line was not taken. `S` is why what takes them may stop.
#[derive(Clone, Copy, PartialEq, Eq, Drop)]
pub enum LineStop<S> {
    /// Memory ran out.
    NoMemory,
    /// There are more lines than the limit.
    TooMany,
    /// What takes the lines stopped.
    Stopped(S),
}

/// Adds bytes to the front of a line that is kept, of which `kept` bytes are kept at most.
pub fn keep_front(rest: &mut Vec<u8>, kept: usize, bytes: &[u8]) -> Result<(), NoMemory>
    requires { vec_len rest.old ≤ kept }
    ensures ok { OnOk result (rest.new.items ≡ take kept (rest.old.items ++ bytes.now)) }
    ensures err { OnErr result (rest.new.items ≡ rest.old.items) }
{
    let room = kept - rest.len();
    let (front, _) = bytes.split_at(room.min(bytes.len()));
    rest.extend_from_slice(front)?;
    Ok(())
}

/// Why not all lines were taken, where a line was not.
pub fn halt_of_stop<S>(stop: LineStop<S>) -> LineHalt<S>
    ensures { result ≡ halt_of_stop stop }
{
    match stop {
        LineStop::NoMemory => LineHalt::NoMemory,
        LineStop::TooMany => LineHalt::TooMany,
        LineStop::Stopped(stop) => LineHalt::Stopped(stop),
    }
}

/// Why not all lines were taken, where not all pieces were.
pub fn halt_of_pieces<S>(halt: Halt<LineStop<S>>) -> LineHalt<S>
    ensures { result ≡ halt_of_pieces halt }
{
    match halt {
        Halt::Read => LineHalt::Read,
        Halt::NoMemory => LineHalt::NoMemory,
        Halt::TooLong => LineHalt::TooLong,
        Halt::Stopped(stop) => halt_of_stop(stop),
    }
}
