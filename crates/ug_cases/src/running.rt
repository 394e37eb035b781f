//! Runs of cases over the outside in memory.

use crate::auditing::tell_audit;
use crate::case::Case;
use crate::telling::tell;
use crate::text::Text;
use crate::told::{Told, add_told};
use crate::trickle::Trickle;
use crate::wrong::Wrong;
use std::alloc::Global;
use std::sync::Wait;
use std::sync::ledger::Ledger;
use std::thread::Threads;
use ug_edge::{Cut, File, MemSink, MemSite, MemWire};
use ug_groups::Groups;
use ug_run::{Done, serve};
use ug_types::{NoMemory, NumberList, Sequence, Steps};

/// The machine behind the speaker that is shipped.
pub type Shipped = Groups;

/// What a run came to.
pub type Ended = Done<MemWire, Shipped>;

fn files_of(alloc: Global, texts: &[Text]) -> Result<Sequence<File>, NoMemory> {
    let mut files = Vec::new(alloc);
    for text in texts {
        let name = Sequence::from_vec(Vec::from_slice(alloc, text.name.as_bytes())?);
        let bytes = Sequence::from_vec(Vec::from_slice(alloc, text.bytes.as_slice())?);
        files.push(File { name, bytes })?;
    }
    Ok(Sequence::from_vec(files))
}

fn cuts_of(alloc: Global, given: &[Cut]) -> Result<Sequence<Cut>, NoMemory> {
    let mut cuts = Vec::new(alloc);
    for cut in given {
        let peer = cut.peer.copy(alloc)?;
        let total = cut.total;
        cuts.push(Cut { peer, total })?;
    }
    Ok(Sequence::from_vec(cuts))
}

/// A site with the files of a case, whose calls fail as it says.
fn site_of(alloc: Global, case: &Case) -> Result<MemSite, NoMemory> {
    let files = files_of(alloc, case.files.as_slice())?;
    let fails = Sequence::from_vec(Vec::from_slice(alloc, case.fails.as_slice())?);
    let cuts = cuts_of(alloc, case.cuts.as_slice())?;
    let mut site = MemSite::new(alloc, files, fails, cuts)?;
    for (peer, session) in &case.begins {
        let sessions: NumberList = Sequence::from_vec(Vec::from_slice(alloc, &[*session])?);
        site.fail_begins(peer.as_str(), sessions)?;
    }
    Ok(site)
}

/// Runs a command over a site, and answers how it ended, with the report.
pub fn run<L: Ledger, R: Threads + Wait + Sync>(
    rt: &R,
    alloc: Global,
    words: &[String],
    case: &Case,
    most: usize,
    steps: &mut Steps<L>,
) -> Result<(Ended, MemSink), Wrong> {
    let mut site = Trickle::new(site_of(alloc, case)?, most);
    let fails = Sequence::from_vec(Vec::from_slice(alloc, case.fails.as_slice())?);
    let mut report = MemSink::new(alloc, fails);
    let done: Ended = serve(rt, alloc, words, &mut site, &mut report, steps);
    Ok((done, report))
}

/// What a case came to, as lines: those of its first run, and behind them those of each other run that came to something
/// else.
pub fn play<L: Ledger, R: Threads + Wait + Sync>(
    rt: &R,
    alloc: Global,
    case: &mut Case,
    steps: &mut Steps<L>,
) -> Result<Vec<Told>, Wrong> {
    case.fill(alloc)?;
    let mut runs = Runs {
        first: None,
        lines: Vec::new(alloc),
    };
    for words in &case.commands {
        for most in &case.reads {
            runs.add_times(rt, alloc, words.as_slice(), case, *most, steps)?;
        }
    }
    Ok(runs.lines)
}

/// What runs came to: how many lines the first did, if there was one, and these lines with those of others.
#[derive(Drop)]
struct Runs {
    first: Option<usize>,
    lines: Vec<Told>,
}

impl Runs {
    /// Runs a command as often as the case says.
    fn add_times<L: Ledger, R: Threads + Wait + Sync>(
        &mut self,
        rt: &R,
        alloc: Global,
        words: &[String],
        case: &Case,
        most: usize,
        steps: &mut Steps<L>,
    ) -> Result<(), Wrong> {
        for time in 0..case.times {
            let (done, report) = run(rt, alloc, words, case, most, steps)?;
            let mut lines = tell(rt, alloc, case, &done, &report, steps)?;
            if time == 0 {
                tell_audit(rt, alloc, &mut lines, words, case, &done, &report, steps)?;
            }
            let title = format!(in alloc; "by {words:?}, {most} bytes a read, time {time}")?;
            self.add(title, lines)?;
        }
        Ok(())
    }

    /// Adds what a run came to, where it isn't what the first came to.
    fn add(&mut self, title: String, lines: Vec<Told>) -> Result<(), Wrong> {
        let Some(count) = self.first else {
            self.first = Some(lines.len());
            self.lines = lines;
            return Ok(());
        };
        if !are_same(self.lines.get(..count).unwrap_or(&[]), lines.as_slice()) {
            add_told(&mut self.lines, title, false)?;
            for told in lines {
                self.lines.push(told)?;
            }
        }
        Ok(())
    }
}

fn are_same(some: &[Told], others: &[Told]) -> bool {
    some.len() == others.len()
        && some
            .iter()
            .zip(others)
            .all(|(one, other)| one.text.as_str() == other.text.as_str())
}
