//! Texts with a name: pieces of files, and files.

use crate::bytes::add_bytes;
use crate::repeats::{add_repeated, written_out};
use crate::wrong::Wrong;
use std::alloc::Global;

/// A text, and the name of the piece or file that it is.
#[derive(Drop)]
pub struct Text {
    pub name: String,
    pub bytes: Vec<u8>,
}

impl Text {
    /// A text without a name.
    pub fn empty(alloc: Global) -> Text {
        Text {
            name: String::new(alloc),
            bytes: Vec::new(alloc),
        }
    }

    /// The text that words name: its own name, and the pieces that it begins with.
    pub fn of_words(alloc: Global, pieces: &[Text], words: &str) -> Result<Text, Wrong> {
        let mut words = words.split_whitespace();
        let Some(name) = words.next() else {
            return Err(Wrong::Line("no name"));
        };
        let mut bytes = Vec::new(alloc);
        for word in words {
            let Some(piece) = named(pieces, word) else {
                return Err(Wrong::Line("no such piece"));
            };
            bytes.extend_from_slice(piece.bytes.as_slice())?;
        }
        let name = String::from_str(alloc, name)?;
        Ok(Text { name, bytes })
    }

    /// Adds what a line says: a line of text, several, or bytes.
    pub fn add(&mut self, alloc: Global, kind: &str, rest: &str) -> Result<(), Wrong> {
        match kind {
            "|" => self.add_line(alloc, rest),
            "lines" => self.add_lines(alloc, rest),
            "bytes" => add_bytes(alloc, &mut self.bytes, written_out(alloc, rest)?.as_str()),
            _ => Err(Wrong::Line("no such line")),
        }
    }

    fn add_line(&mut self, alloc: Global, line: &str) -> Result<(), Wrong> {
        let line = written_out(alloc, line)?;
        self.bytes.extend_from_slice(line.as_bytes())?;
        self.bytes.push(b'\n')?;
        Ok(())
    }

    fn add_lines(&mut self, alloc: Global, text: &str) -> Result<(), Wrong> {
        let mut lines = String::new(alloc);
        add_repeated(&mut lines, text, "\n")?;
        self.bytes.extend_from_slice(lines.as_bytes())?;
        Ok(())
    }
}

/// The text with this name.
pub fn named<'a>(texts: &'a [Text], name: &str) -> Option<&'a Text> {
    for text in texts {
        if text.name.as_str() == name {
            return Some(text);
        }
    }
    None
}
