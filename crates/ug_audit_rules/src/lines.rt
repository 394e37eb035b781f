//! The lines of a report, one after another.

ghost use Rattle.std.specs.Prelude.{◌≡◌, ◌++◌, ◌∷◌, [], List, OnOk, IfErr, true, false};
ghost use Rattle.ug_audit_rules.specs.declared.entry.Entry as entries;
ghost use Rattle.ug_audit_rules.specs.Reports.{entry_of, IsClear};
ghost use Rattle.ug_audit_rules.specs.Told.{Keeps, IsStop};
ghost use Rattle.ug_audit_rules.specs.Reading.{HasTold};

use crate::entry::Entry;
use crate::line::read_entry;
use crate::stop::Stop;
use std::alloc::Global;
use ug_types::NoMemory;
use ug_world::World;

/// The most lines of a report, blank ones included.
const MOST_LINES: usize = 2_000_000;

/// What the lines of a report told so far, which are clear, and how many they were.
#[derive(Drop)]
pub struct Told {
    pub entries: Vec<Entry>,
    pub lines: usize,
}

impl Told {
    /// Before the first line.
    pub fn new(alloc: Global) -> Told
        ensures { HasTold result [] }
    {
        Told {
            entries: Vec::new(alloc),
            lines: 0,
        }
    }

    /// Takes the next line, by the world to which all lines of events lead.
    pub fn take_line(&mut self, last: &World, line: &[u8]) -> Result<(), Stop>
        ensures told { OnOk result ((all : List entries.Entry) → HasTold self.old all → HasTold self.new (all ++ entry_of last.now line.now ∷ [])) }
        ensures stopped { IfErr result (λ stop. (all : List entries.Entry) → HasTold self.old all → IsStop stop (all ++ entry_of last.now line.now ∷ [])) }
    {
        if self.lines >= MOST_LINES {
            return Err(Stop::TooMany);
        }
        let entry = read_entry(last, line);
        if is_unclear(entry) {
            return Err(Stop::Unclear {
                line: self.lines as u64 + 1,
            });
        }
        match keep(&mut self.entries, entry) {
            Ok(()) => {}
            Err(NoMemory) => return Err(Stop::NoMemory),
        }
        self.lines += 1;
        Ok(())
    }
}

fn is_unclear(entry: Entry) -> bool
    ensures clear { result ≡ false → IsClear entry }
    ensures unclear { result ≡ true → entry ≡ Entry.Unclear }
{
    match entry {
        Entry::Unclear => true,
        Entry::Passes | Entry::Sync(_) | Entry::Lost { .. } => false,
    }
}

/// Adds what a line tells, where it tells something.
fn keep(entries: &mut Vec<Entry>, entry: Entry) -> Result<(), NoMemory>
    ensures { OnOk result (Keeps entries.old.items entries.new.items entry) }
{
    match entry {
        Entry::Passes | Entry::Unclear => {}
        Entry::Sync(_) | Entry::Lost { .. } => entries.push(entry)?,
    }
    Ok(())
}
