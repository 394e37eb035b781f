//! The entries of a history, as they are given out.

ghost use Rattle.std.specs.Prelude.{◌≡◌};

use crate::steps::{BoardSaid, BoardStep};
use std::marker::Model;

/// A step in a history. Contracts see the pass that made it, the step, and what was said to it. A Hand is its
/// session, number and length, and none of its bytes. A history gives out jobs and replies by reference.
#[derive(Drop)]
pub struct BoardEntry<J, R> {
    pub(crate) pass: u32,
    pub(crate) step: BoardStep<J>,
    pub(crate) said: BoardSaid<R>,
}

impl<J, R> Model for BoardEntry<J, R> {
    ghost use Rattle.ug_board.specs.Entry.{Entry};

    ghost Value = { Entry J R };

    ghost view = { λ e. record { pass = e.pass; step = e.step; said = e.said } };
}

impl<J, R> BoardEntry<J, R> {
    /// The number of the pass that made the step.
    pub fn pass(&self) -> u32
        ensures { result ≡ self.now.pass }
    {
        self.pass
    }
}

impl<J: Copy, R: Copy> BoardEntry<J, R> {
    /// The step.
    pub fn step(&self) -> BoardStep<J>
        ensures { result ≡ self.now.step }
    {
        self.step
    }

    /// What was said to the step.
    pub fn said(&self) -> BoardSaid<R>
        ensures { result ≡ self.now.said }
    {
        self.said
    }
}
