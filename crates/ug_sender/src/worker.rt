//! A worker: a lane that works in a thread of its own, or here.

ghost use Rattle.std.specs.Prelude.{◌≡◌, true, false, IfOk, IfErr, IfSome, is_some};
ghost use Rattle.ug_turnstile.specs.Passes.{StartsWith};
ghost use Rattle.ug_sender.specs.Lanes.{IsOver};
ghost use Rattle.ug_sender.specs.Posts.{post_of, worker_here, worker_apart, Rests, here_deeds};

use crate::dock::{Dock, Roster, lane_of};
use crate::lane::Lane;
use crate::serve::{pump_out, pump_to_end};
use std::marker::Model;
use std::snapshot::Snapshot;
use std::sync::Wait;
use ug_board::{Board, Machine};
use ug_edge::Wire;
use ug_turnstile::Turnstile;

/// Where a worker is.
#[derive(Drop)]
enum Place<L, H> {
    /// The lane works here, whenever it is pumped.
    Here(L),
    /// The lane has a thread of its own, and lies in its dock or is worked on by that thread. Its post is that of this one.
    Apart(H),
}

/// A lane that has a thread of its own, or works here. Contracts see its post, and the pass of a lane that works here.
#[derive(Drop)]
pub struct Worker<W: Wire, M: Machine> {
    place: Place<Lane<W, M>, Snapshot<Lane<W, M>>>,
}

impl<W: Wire, M: Machine> Model for Worker<W, M> {
    ghost use Rattle.ug_sender.specs.Posts.{WorkerView, worker_here, worker_apart};

    ghost Value = { WorkerView M.Opening M.Job M.Said };

    ghost use Rattle.ug_sender.specs.Places.{at_place};

    ghost view = { λ w. at_place (λ lane. worker_here lane) (λ lane. worker_apart lane.value) w.place };
}

impl<W: Wire, M: Machine> Worker<W, M> {
    /// A lane that works here.
    pub fn here(lane: Lane<W, M>) -> Self
        ensures { result ≡ worker_here lane }
    {
        Worker {
            place: Place::Here(lane),
        }
    }

    /// A lane that has a thread of its own, and is put into its dock.
    pub(crate) fn moor<R: Wait, N: Roster<M::Opening>>(
        rt: &R,
        dock: &Dock<N, W, M>,
        lane: Lane<W, M>,
        place: usize,
    ) -> Self
        requires here { lane.pass.turnstile ≡ N.turnstile }
        requires post { post_of lane ≡ N.post place }
        ensures { result ≡ worker_apart lane }
    {
        let was = Snapshot::of(&lane);
        dock.moor(rt, lane, place);
        Worker::apart(was)
    }

    fn apart(was: Snapshot<Lane<W, M>>) -> Self
        ensures { result ≡ worker_apart was.value }
    {
        Worker {
            place: Place::Apart(was),
        }
    }

    /// Pumps a lane that works here until there is nothing to send, for now or for ever, and answers whether it did anything.
    pub fn pump_out<R: Wait>(&mut self, rt: &R, turnstile: &Turnstile<Board<M>>) -> bool
        requires here { self.old.post.turnstile ≡ turnstile.now.id }
        ensures post { self.new.post ≡ self.old.post }
        ensures place { is_some self.new.here ≡ is_some self.old.here }
        ensures rests { Rests M.rules self.new }
        ensures still { result ≡ false → here_deeds M.rules self.new.here ≡ here_deeds M.rules self.old.here }
        ensures kept { StartsWith (here_deeds M.rules self.new.here) (here_deeds M.rules self.old.here) }
        ensures done { result ≡ true → here_deeds M.rules self.new.here ≡ here_deeds M.rules self.old.here → ⊥ }
    {
        match &mut self.place {
            Place::Here(lane) => pump_out(rt, turnstile, lane),
            Place::Apart(_) => false,
        }
    }

    /// Pumps a lane that works here until there is nothing more to send.
    pub fn pump_to_end<R: Wait>(&mut self, rt: &R, turnstile: &Turnstile<Board<M>>)
        requires here { self.old.post.turnstile ≡ turnstile.now.id }
        ensures post { self.new.post ≡ self.old.post }
        ensures place { is_some self.new.here ≡ is_some self.old.here }
        ensures over { IfSome self.new.here (λ pass. IsOver M.rules self.new.post.peer pass) }
    {
        match &mut self.place {
            Place::Here(lane) => pump_to_end(rt, turnstile, lane),
            Place::Apart(_) => {}
        }
    }

    /// The lane where it works here, and else the worker.
    pub fn into_here(self) -> Result<Lane<W, M>, Self>
        ensures here { IfOk result (λ lane. worker_here lane ≡ self) }
        ensures apart { IfErr result (λ worker. worker ≡ self) }
    {
        match self.place {
            Place::Here(lane) => Ok(lane),
            Place::Apart(was) => Err(Worker::apart(was)),
        }
    }

    /// The lane, once its thread is done: that of its dock, where it isn't here.
    pub(crate) fn join<R: Wait, N: Roster<M::Opening>>(
        self,
        rt: &R,
        turnstile: &Turnstile<Board<M>>,
        dock: Option<Dock<N, W, M>>,
        place: usize,
    ) -> Lane<W, M>
        requires here { N.turnstile ≡ turnstile.now.id }
        requires post { N.post place ≡ self.post }
        ensures { post_of result ≡ self.post }
    {
        match self.place {
            Place::Here(lane) => lane,
            Place::Apart(_was) => lane_of(rt, turnstile, dock, place),
        }
    }
}
