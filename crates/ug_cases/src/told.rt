//! What came of a case, as lines, and what is said to come.

use crate::bytes::closed_up;
use crate::repeats::written_out;
use crate::wrong::Wrong;
use std::alloc::Global;

/// A line of what came. In one that spells bytes, spaces are for reading.
#[derive(Drop)]
pub struct Told {
    pub text: String,
    pub is_spelled: bool,
}

impl Told {
    /// Whether the line is the one that is wanted, with its repetitions written out.
    pub fn is(&self, alloc: Global, wanted: &str) -> Result<bool, Wrong> {
        let wanted = written_out(alloc, wanted)?;
        if !self.is_spelled {
            return Ok(self.text.as_str() == wanted.as_str());
        }
        let came = closed_up(alloc, self.text.as_str())?;
        Ok(came.as_str() == closed_up(alloc, wanted.as_str())?.as_str())
    }
}

/// Lines of what came, of which the first were looked at.
#[derive(Drop)]
pub struct Came {
    lines: Vec<Told>,
    seen: usize,
}

impl Came {
    pub fn new(lines: Vec<Told>) -> Came {
        Came { lines, seen: 0 }
    }

    /// Prints the next line as it is wanted where it came so, and else as it came. Where there is none, nothing is printed.
    pub fn print_wanted<R: Print>(
        &mut self,
        rt: &R,
        alloc: Global,
        wanted: &str,
    ) -> Result<(), Wrong> {
        let Some(told) = self.lines.get(self.seen) else {
            return Ok(());
        };
        self.seen = self.seen.saturating_add(1);
        if told.is(alloc, wanted)? {
            println!(rt; "> {wanted}")?;
        } else {
            println!(rt; "> {}", told.text)?;
        }
        Ok(())
    }

    /// Prints the lines that weren't looked at.
    pub fn print_rest<R: Print>(&self, rt: &R) -> Result<(), Wrong> {
        for told in self.lines.iter().skip(self.seen) {
            println!(rt; "> {}", told.text)?;
        }
        Ok(())
    }
}

/// Adds a line.
pub fn add_told(lines: &mut Vec<Told>, text: String, is_spelled: bool) -> Result<(), Wrong> {
    lines.push(Told { text, is_spelled })?;
    Ok(())
}
