//! A file of cases, line by line: each is printed as it stands, but for those that say what comes of a case, which are
//! printed as it came.

use crate::case::Case;
use crate::repeats::written_out;
use crate::running::play;
use crate::stage::Stage;
use crate::text::{Text, named};
use crate::told::{Came, Told};
use crate::wrong::Wrong;
use std::alloc::Global;
use std::sync::Wait;
use std::sync::ledger::Ledger;
use std::thread::Threads;
use ug_types::Steps;

/// What the line before stood in: nothing, a piece, a case that isn't run yet, one that was, the configuration of a board,
/// or the turns on it.
#[derive(Drop)]
enum Open {
    Nothing,
    Piece,
    Case(Case),
    Came(Came),
    Board(Text),
    Turns(Stage),
}

/// The pieces that were told, and where the file stands.
#[derive(Drop)]
pub struct Book {
    pieces: Vec<Text>,
    open: Open,
}

impl Book {
    /// Before the first line.
    pub fn new(alloc: Global) -> Book {
        Book {
            pieces: Vec::new(alloc),
            open: Open::Nothing,
        }
    }

    /// Takes a line, and prints it.
    pub fn take<L: Ledger, R: Threads + Wait + Sync + Print>(
        &mut self,
        rt: &R,
        alloc: Global,
        line: &str,
        steps: &mut Steps<L>,
    ) -> Result<(), Wrong> {
        let open = std::mem::replace(&mut self.open, Open::Nothing);
        if line.is_empty() {
            end(rt, alloc, open, steps)?;
            println!(rt)?;
            return Ok(());
        }
        self.open = self.next(rt, alloc, open, line, steps)?;
        Ok(())
    }

    /// What stands at the end of the file is run, too.
    pub fn finish<L: Ledger, R: Threads + Wait + Sync + Print>(
        self,
        rt: &R,
        alloc: Global,
        steps: &mut Steps<L>,
    ) -> Result<(), Wrong> {
        end(rt, alloc, self.open, steps)
    }

    /// Where the file stands behind a line that isn't empty.
    fn next<L: Ledger, R: Threads + Wait + Sync + Print>(
        &mut self,
        rt: &R,
        alloc: Global,
        open: Open,
        line: &str,
        steps: &mut Steps<L>,
    ) -> Result<Open, Wrong> {
        let (kind, rest) = line.split_once(' ').unwrap_or((line, ""));
        match (open, kind) {
            (Open::Came(came), ">") => compare(rt, alloc, came, rest),
            (Open::Came(_), _) => Err(Wrong::Line("a case ends with an empty line")),
            (Open::Case(mut case), ">") => {
                let came = Came::new(play(rt, alloc, &mut case, steps)?);
                compare(rt, alloc, came, rest)
            }
            (Open::Board(text), "turn") => {
                let stage = Stage::open(alloc, text.bytes.as_slice())?;
                take_turn(rt, alloc, stage, rest, steps)
            }
            (Open::Turns(stage), "turn") => take_turn(rt, alloc, stage, rest, steps),
            (open, _) => {
                println!(rt; "{line}")?;
                self.add(alloc, open, kind, rest)
            }
        }
    }

    /// Adds what a line says that is printed as it stands.
    fn add(&mut self, alloc: Global, open: Open, kind: &str, rest: &str) -> Result<Open, Wrong> {
        match open {
            Open::Nothing => self.begin(alloc, kind, rest),
            Open::Piece => self.add_to_piece(alloc, kind, rest),
            Open::Case(mut case) => {
                case.add(alloc, self.pieces.as_slice(), kind, rest)?;
                Ok(Open::Case(case))
            }
            Open::Board(mut text) => {
                if kind == "file" {
                    text = Text::of_words(alloc, self.pieces.as_slice(), rest)?;
                } else {
                    text.add(alloc, kind, rest)?;
                }
                Ok(Open::Board(text))
            }
            Open::Came(_) | Open::Turns(_) => Err(Wrong::Line("no such line")),
        }
    }

    /// Begins a piece, a case or a board, or passes over what is meant for readers.
    fn begin(&mut self, alloc: Global, kind: &str, rest: &str) -> Result<Open, Wrong> {
        match kind {
            "piece" => {
                let piece = Text::of_words(alloc, self.pieces.as_slice(), rest)?;
                if named(self.pieces.as_slice(), piece.name.as_str()).is_some() {
                    return Err(Wrong::Line("there is such a piece"));
                }
                self.pieces.push(piece)?;
                Ok(Open::Piece)
            }
            "case" => Ok(Open::Case(Case::new(alloc))),
            "board" => Ok(Open::Board(Text::empty(alloc))),
            _ if kind.starts_with('#') => Ok(Open::Nothing),
            _ => Err(Wrong::Line("a case, a board, a piece or a remark begins otherwise")),
        }
    }

    fn add_to_piece(&mut self, alloc: Global, kind: &str, rest: &str) -> Result<Open, Wrong> {
        match self.pieces.last_mut() {
            Some(piece) => piece.add(alloc, kind, rest)?,
            None => {}
        }
        Ok(Open::Piece)
    }
}

/// Runs the case that isn't run yet, and prints what came and wasn't looked at.
fn end<L: Ledger, R: Threads + Wait + Sync + Print>(
    rt: &R,
    alloc: Global,
    open: Open,
    steps: &mut Steps<L>,
) -> Result<(), Wrong> {
    match open {
        Open::Came(came) => came.print_rest(rt),
        Open::Case(mut case) => Came::new(play(rt, alloc, &mut case, steps)?).print_rest(rt),
        Open::Nothing | Open::Piece | Open::Board(_) | Open::Turns(_) => Ok(()),
    }
}

/// Prints the next line that came, as it is wanted where it came so.
fn compare<R: Print>(rt: &R, alloc: Global, mut came: Came, wanted: &str) -> Result<Open, Wrong> {
    came.print_wanted(rt, alloc, wanted)?;
    Ok(Open::Came(came))
}

/// Takes the turns of a line, and prints it with what is wanted of them where that came, and else with what came.
fn take_turn<L: Ledger, R: Print>(
    rt: &R,
    alloc: Global,
    mut stage: Stage,
    text: &str,
    steps: &mut Steps<L>,
) -> Result<Open, Wrong> {
    let (turn, wanted) = text.split_once(" > ").unwrap_or((text, ""));
    let played = written_out(alloc, turn)?;
    let said = stage.play_all(alloc, played.as_str(), steps)?;
    let came = Told {
        text: said,
        is_spelled: true,
    };
    if came.is(alloc, wanted)? {
        println!(rt; "turn {text}")?;
    } else {
        println!(rt; "turn {turn} > {}", came.text)?;
    }
    Ok(Open::Turns(stage))
}
