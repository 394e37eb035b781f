//! Cases, by their lines.

use crate::repeats::written_out;
use crate::text::Text;
use crate::wrong::Wrong;
use std::alloc::Global;
use ug_edge::{CallKind, Cut, FailAt};
use ug_types::{ByteList, Sequence};

/// Which sessions of a case are shown: all, the last of each wire, or none.
#[derive(Clone, Copy, Drop)]
pub enum Shown {
    All,
    Last,
    None,
}

/// The table that the last session of a wire leaves at its receiver, as `check` prints it with these options. Wires are
/// counted from 1.
#[derive(Drop)]
pub struct Table {
    pub wire: u32,
    pub options: Vec<String>,
}

/// What is run, and what of the outside fails. It is run by each of the commands, with each of these numbers of bytes that
/// a read gives at most, and so many times.
#[derive(Drop)]
pub struct Case {
    pub commands: Vec<Vec<String>>,
    pub files: Vec<Text>,
    pub fails: Vec<FailAt>,
    pub cuts: Vec<Cut>,
    pub begins: Vec<(String, u32)>,
    pub reads: Vec<usize>,
    pub times: u32,
    pub shown: Shown,
    pub tables: Vec<Table>,
    pub without_marks: bool,
    pub numbered: bool,
}

impl Case {
    /// A case without a command, of which nothing fails.
    pub fn new(alloc: Global) -> Case {
        Case {
            commands: Vec::new(alloc),
            files: Vec::new(alloc),
            fails: Vec::new(alloc),
            cuts: Vec::new(alloc),
            begins: Vec::new(alloc),
            reads: Vec::new(alloc),
            times: 1,
            shown: Shown::All,
            tables: Vec::new(alloc),
            without_marks: false,
            numbered: false,
        }
    }

    /// Where nothing else is said, a case is a run in which all lanes work here, and a read fills its buffer.
    pub fn fill(&mut self, alloc: Global) -> Result<(), Wrong> {
        if self.commands.is_empty() {
            self.commands
                .push(words_of(alloc, "run c e d --workers 0")?)?;
        }
        if self.reads.is_empty() {
            self.reads.push(65536)?;
        }
        Ok(())
    }

    /// Adds what a line says.
    pub fn add(
        &mut self,
        alloc: Global,
        pieces: &[Text],
        kind: &str,
        rest: &str,
    ) -> Result<(), Wrong> {
        match kind {
            "words" => self.commands.push(words_of(alloc, rest)?)?,
            "file" => self.files.push(Text::of_words(alloc, pieces, rest)?)?,
            "fail" => self.add_failing(alloc, rest)?,
            "cut" => self.add_cut(alloc, rest)?,
            "reads" => self.reads.push(number_of(rest)? as usize)?,
            "times" => self.times = number_of(rest)?,
            "last" => self.shown = Shown::Last,
            "report" => self.shown = Shown::None,
            "table" => self.add_table(alloc, rest)?,
            "unmarked" => self.without_marks = true,
            "made" => self.numbered = true,
            _ => self.add_text(alloc, kind, rest)?,
        }
        Ok(())
    }

    /// Adds to the last file.
    fn add_text(&mut self, alloc: Global, kind: &str, rest: &str) -> Result<(), Wrong> {
        match self.files.last_mut() {
            Some(file) => file.add(alloc, kind, rest),
            None => Err(Wrong::Line("no such line in front of the first file")),
        }
    }

    fn add_failing(&mut self, alloc: Global, text: &str) -> Result<(), Wrong> {
        let (kind, rest) = text.split_once(' ').unwrap_or((text, ""));
        let call = match kind {
            "pick" => CallKind::Pick,
            "read" => CallKind::Read,
            "wire" => CallKind::Wire,
            "write" => CallKind::Write,
            "begin" => return self.add_begin(alloc, rest),
            _ => return Err(Wrong::Line("no such call")),
        };
        let number = number_of(rest)?;
        self.fails.push(FailAt { call, number })?;
        Ok(())
    }

    fn add_begin(&mut self, alloc: Global, text: &str) -> Result<(), Wrong> {
        let (peer, session) = of_peer(text)?;
        self.begins.push((String::from_str(alloc, peer)?, session))?;
        Ok(())
    }

    /// Has a table shown in place of the sessions.
    fn add_table(&mut self, alloc: Global, text: &str) -> Result<(), Wrong> {
        let (wire, options) = text.split_once(' ').unwrap_or((text, ""));
        let wire = number_of(wire)?;
        let options = words_of(alloc, options)?;
        self.tables.push(Table { wire, options })?;
        self.shown = Shown::None;
        Ok(())
    }

    fn add_cut(&mut self, alloc: Global, text: &str) -> Result<(), Wrong> {
        let (peer, total) = of_peer(text)?;
        let peer: ByteList = Sequence::from_vec(Vec::from_slice(alloc, peer.as_bytes())?);
        self.cuts.push(Cut {
            peer,
            total: total as u64,
        })?;
        Ok(())
    }
}

/// The words of a text, with its repetitions written out.
pub fn words_of(alloc: Global, text: &str) -> Result<Vec<String>, Wrong> {
    let mut words = Vec::new(alloc);
    for word in text.split_whitespace() {
        words.push(written_out(alloc, word)?)?;
    }
    Ok(words)
}

fn number_of(text: &str) -> Result<u32, Wrong> {
    text.parse::<u32>().map_err(|_| Wrong::Line("no number"))
}

/// A peer, and a number.
fn of_peer(text: &str) -> Result<(&str, u32), Wrong> {
    match text.split_once(' ') {
        Some((peer, number)) => Ok((peer, number_of(number)?)),
        None => Err(Wrong::Line("no peer and number")),
    }
}
