//! Runs a file of cases, which tells of each what has to come of it, and prints the file again with what came. So it prints
//! what it reads where all cases come out as they should.
#![tactic(auto)]

ghost use Rattle.std.specs.Prelude.{◌≡◌, ◌<◌};

mod auditing;
mod book;
mod bytes;
mod case;
mod repeats;
mod running;
mod stage;
mod telling;
mod text;
mod told;
mod trickle;
mod turns;
mod wrong;

use book::Book;
use std::alloc::Global;
use std::io;
use std::io::ErrorKind;
use std::marker::Brand;
use std::sync::Wait;
use std::sync::ledger::{Blank, Ledger};
use std::thread::Threads;
use ug_types::Steps;
use wrong::Wrong;

fn main(rt: HostRuntime) -> io::Result<()> {
    match read::<Brand, _>(&rt, rt.alloc(), Blank::new(1)) {
        Ok(()) => Ok(()),
        Err(Wrong::Line(_)) => Err(io::Error::from(ErrorKind::InvalidData)),
        Err(Wrong::Outside(e)) => Err(e),
    }
}

/// Takes each line of standard input. At one that can't stand there it says why, and ends.
fn read<L: Ledger, R: Input + Print + Threads + Wait + Sync>(
    rt: &R,
    alloc: Global,
    blank: Blank,
) -> Result<(), Wrong>
    requires name { blank.name ≡ L.name }
    requires parts { blank.parts ≡ L.parts }
    requires some { 0 < blank.parts }
{
    let mut steps = Steps::<L>::new(blank);
    let mut book = Book::new(alloc);
    let mut number = 0u64;
    for line in rt.lines(alloc) {
        number = number.saturating_add(1);
        let taken = book.take(rt, alloc, line?.as_str(), &mut steps);
        if let Err(Wrong::Line(why)) = &taken {
            println!(rt; "LINE {number}: {why}")?;
        }
        taken?;
    }
    book.finish(rt, alloc, &mut steps)
}
