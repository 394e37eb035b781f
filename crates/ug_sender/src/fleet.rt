//! The lanes of a run at work beside a builder.

ghost use Rattle.std.specs.Prelude.{◌≡◌};
ghost use Rattle.ug_sender.specs.Posts.{AreHere, PumpsHere, PumpsToEnd, posts_of};

use crate::crew::Crew;
use crate::dock::{Docks, Intake, Roster};
use crate::starter::Starter;
use std::marker::Model;
use std::sync::Wait;
use ug_board::{Board, Machine};
use ug_edge::Wire;
use ug_turnstile::Turnstile;

/// The lanes of a run at work: those that work here, the docks of those that have threads, and what starts these. Contracts see
/// of it what they see of the crew.
#[derive(Drop)]
pub struct Fleet<'d, N: Roster<M::Opening>, W: Wire, M: Machine, T: Starter> {
    crew: Crew<W, M>,
    docks: &'d Docks<N, W, M>,
    turnstile: &'d Turnstile<Board<M>>,
    starter: T,
}

impl<'d, N: Roster<M::Opening>, W: Wire, M: Machine, T: Starter> Model for Fleet<'d, N, W, M, T> {
    ghost use Rattle.std.specs.Prelude.{◌≡◌, List};
    ghost use Rattle.ug_sender.specs.Posts.{WorkerView};

    ghost Value = { List (WorkerView M.Opening M.Job M.Said) };

    ghost view = { λ f. f.crew };

    ghost invariant = { λ f. (N.turnstile ≡ f.turnstile.now.id) × T.can_start f.starter };
}

impl<'d, N: Roster<M::Opening>, W: Wire, M: Machine, T: Starter> Fleet<'d, N, W, M, T> {
    /// The lanes of this crew, and these docks, all at this turnstile, and what starts the thread of the lane at a place and answers
    /// whether it did.
    pub fn of(
        crew: Crew<W, M>,
        docks: &'d Docks<N, W, M>,
        turnstile: &'d Turnstile<Board<M>>,
        starter: T,
    ) -> Self
        requires here { N.turnstile ≡ turnstile.now.id }
        requires starter { T.can_start starter }
        ensures { result ≡ crew }
    {
        Fleet {
            crew,
            docks,
            turnstile,
            starter,
        }
    }

    /// The crew.
    pub fn into_crew(self) -> Crew<W, M>
        ensures { result ≡ self.entry }
    {
        let Fleet { crew, .. } = self;
        crew
    }

    /// Takes what there is for each lane that lies in its dock, and tells what that was. It is the pass of that number. Threads of
    /// lanes that have much to send are woken, those of others each in its turn.
    pub fn load<R: Wait>(&self, rt: &R, pass: usize) -> Intake {
        self.docks.load(rt, self.turnstile, &self.starter, pass)
    }

    /// Wakes the threads of lanes for which there may be something to do.
    pub fn rouse<R: Wait>(&self, rt: &R) {
        self.docks.rouse(rt, self.turnstile, &self.starter);
    }

    /// Leaves the lanes to their threads, and wakes those for which there may be something to do. It is for whoever takes nothing for
    /// them for a while.
    pub fn leave<R: Wait>(&self, rt: &R) {
        self.docks.leave();
        self.rouse(rt);
    }

    /// Leaves the lanes to their threads for ever.
    pub fn dismiss(&self) {
        self.docks.dismiss();
    }

    /// Pumps each lane that works here, in order, until there is nothing to send for now, and answers whether one of them did
    /// anything. Lanes that have threads are left alone.
    pub fn pump_here<R: Wait>(&mut self, rt: &R, turnstile: &Turnstile<Board<M>>) -> bool
        requires here { AreHere turnstile.now.id (posts_of self.old) }
        ensures { PumpsHere M.rules result self.old self.new }
    {
        self.crew.pump_here(rt, turnstile)
    }

    /// Pumps each lane that works here, in order, until there is nothing more to send.
    pub fn pump_to_end<R: Wait>(&mut self, rt: &R, turnstile: &Turnstile<Board<M>>)
        requires here { AreHere turnstile.now.id (posts_of self.old) }
        ensures { PumpsToEnd M.rules self.old self.new }
    {
        self.crew.pump_to_end(rt, turnstile);
    }
}
