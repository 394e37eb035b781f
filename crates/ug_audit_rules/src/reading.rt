//! A report as far as its bytes have come.

ghost use Rattle.std.specs.Prelude.{◌≡◌, ◌++◌, [], ℕ, List, OnOk, IfErr};
ghost use Rattle.ug_audit_rules.specs.Reports.{entries_of};
ghost use Rattle.ug_world.specs.World as worlds;
ghost use Rattle.ug_audit_rules.specs.Told.{IsStop};
ghost use Rattle.ug_audit_rules.specs.Kept.{IsAmple, KeepsOn};
ghost use Rattle.ug_audit_rules.specs.Reading.{HasReadTo, HasTold, whole_entries};

use crate::lines::Told;
use crate::stop::Stop;
use std::alloc::Global;
use ug_text::cut_at;
use ug_types::NoMemory;
use ug_world::World;

/// What the whole lines told, and the front of the bytes behind the last newline: no more than so many, which are more than a
/// line has that tells something.
#[derive(Drop)]
pub struct Reading {
    pub told: Told,
    pub rest: Vec<u8>,
    pub most: usize,
}

impl Reading {
    /// Before any byte.
    pub fn new(alloc: Global, most: usize) -> Reading
        ensures { (last : worlds.World) → IsAmple last most → HasReadTo last result [] }
    {
        Reading {
            told: Told::new(alloc),
            rest: Vec::new(alloc),
            most,
        }
    }

    /// The bytes go on with this piece.
    pub fn take_piece(&mut self, last: &World, piece: &[u8]) -> Result<(), Stop>
        ensures read { OnOk result ((stream : List ℕ) → HasReadTo last.now self.old stream → HasReadTo last.now self.new (stream ++ piece.now)) }
        ensures stopped { IfErr result (λ stop. (stream : List ℕ) → HasReadTo last.now self.old stream → IsStop stop (whole_entries last.now (stream ++ piece.now))) }
    {
        let mut left = piece;
        while let Some((front, behind)) = cut_at(b'\n', left) {
            match keep(&mut self.rest, self.most, front) {
                Ok(()) => {}
                Err(NoMemory) => return Err(Stop::NoMemory),
            }
            match self.told.take_line(last, &self.rest) {
                Ok(()) => {}
                Err(stop) => return Err(stop),
            }
            self.rest.clear();
            left = behind;
        }
        match keep(&mut self.rest, self.most, left) {
            Ok(()) => Ok(()),
            Err(NoMemory) => Err(Stop::NoMemory),
        }
    }

    /// The bytes are over: what stands behind the last newline is a line, where there is something.
    pub fn end(&mut self, last: &World) -> Result<(), Stop>
        ensures read { OnOk result ((stream : List ℕ) → HasReadTo last.now self.old stream → HasTold self.new.told (entries_of last.now stream)) }
        ensures stopped { IfErr result (λ stop. (stream : List ℕ) → HasReadTo last.now self.old stream → IsStop stop (entries_of last.now stream)) }
    {
        if self.rest.is_empty() {
            return Ok(());
        }
        match self.told.take_line(last, &self.rest) {
            Ok(()) => Ok(()),
            Err(stop) => Err(stop),
        }
    }
}

/// Adds bytes to what is kept of a line, as far as that has fewer than so many.
fn keep(rest: &mut Vec<u8>, most: usize, bytes: &[u8]) -> Result<(), NoMemory>
    ensures { OnOk result (KeepsOn most rest.old.items rest.new.items bytes.now) }
{
    let room = most.saturating_sub(rest.len());
    let (front, _) = bytes.split_at(room.min(bytes.len()));
    rest.extend_from_slice(front)?;
    Ok(())
}
