//! Row after row.

ghost use Rattle.std.specs.Prelude.{◌≡◌, ◌++◌, OnOk, IsTrue, Some, option_copied};
ghost use Rattle.std.specs.String.{string_bytes};
ghost use Rattle.ug_types.specs.Attributes.{Attributes};
ghost use Rattle.ug_text.specs.Rows.{ending_text, row_text};

use crate::row::{write_ending, write_route};
use std::alloc::Global;
use ug_types::{Attrs, Key, NoMemory, value_laws};

/// Writes row after row, and keeps the text of the last one's attributes: rows that have the same are written by a
/// copy of it.
#[derive(Drop)]
pub struct RowWriter<'a> {
    last: Option<&'a Attrs>,
    ending: String,
    ghost kept: { (a : Attributes) → option_copied last ≡ Some a → string_bytes ending ≡ ending_text a },
}

impl<'a> RowWriter<'a> {
    /// A writer before any row. It takes no memory.
    pub fn new(alloc: Global) -> RowWriter<'a> {
        RowWriter {
            last: None,
            ending: String::new(alloc),
        }
    }

    /// Adds the row of a route, with its newline. After running out of memory a part of it may be there.
    pub fn write_row(
        &mut self,
        out: &mut String,
        key: &Key,
        attrs: &'a Attrs,
    ) -> Result<(), NoMemory>
        ensures { OnOk result (string_bytes out.new ≡ string_bytes out.old ++ row_text key.now attrs.now) }
    {
        write_route(out, key)?;
        self.spell(attrs)?;
        out.push_str(self.ending.as_str())?;
        Ok(())
    }

    /// Has the text of these attributes.
    fn spell(&mut self, attrs: &'a Attrs) -> Result<(), NoMemory>
        ensures { OnOk result (string_bytes self.new.ending ≡ ending_text attrs.now) }
    {
        if self.has(attrs) {
            return Ok(());
        }
        self.last = None;
        self.ending.clear();
        write_ending(&mut self.ending, attrs)?;
        self.last = Some(attrs);
        Ok(())
    }

    /// Whether the text is that of these attributes.
    fn has(&self, attrs: &Attrs) -> bool
        ensures { IsTrue result → string_bytes self.now.ending ≡ ending_text attrs.now }
    {
        value_laws();
        match self.last {
            Some(last) => last == attrs,
            None => false,
        }
    }
}
