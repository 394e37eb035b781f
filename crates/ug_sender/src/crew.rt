//! The workers of a run.

ghost use Rattle.std.specs.Prelude.{◌≡◌, ◌≤◌, [], length, map, IfOk, IfErr};
ghost use Rattle.std.specs.Vec.{vec_len, vec_capacity};
ghost use Rattle.ug_sender.specs.Posts.{AreHere, IsRosterOf, PumpsHere, PumpsToEnd, posts, posts_of, worker_here};

use crate::dock::{Dock, Docks, Roster};
use crate::lane::Lane;
use crate::places::{put_in, take_out};
use crate::worker::Worker;
use std::alloc::Global;
use std::marker::Model;
use std::sync::Wait;
use std::vec::IntoIter;
use ug_board::{Board, Machine};
use ug_edge::Wire;
use ug_turnstile::Turnstile;
use ug_types::Sequence;

/// The workers of a run, in the order of their lanes. Contracts see these: the posts of their lanes, which stay as they are,
/// and the passes of those that work here.
#[derive(Drop)]
pub struct Crew<W: Wire, M: Machine> {
    workers: Vec<Worker<W, M>>,
    room: Vec<Lane<W, M>>,
}

impl<W: Wire, M: Machine> Model for Crew<W, M> {
    ghost use Rattle.std.specs.Prelude.{◌≡◌, ◌≤◌, [], List};
    ghost use Rattle.std.specs.Vec.{vec_len, vec_capacity};
    ghost use Rattle.ug_sender.specs.Posts.{WorkerView};

    ghost Value = { List (WorkerView M.Opening M.Job M.Said) };

    ghost view = { λ c. c.workers.items };

    ghost invariant = { λ c. (c.room.items ≡ []) × (vec_len c.workers ≤ vec_capacity c.room) };
}

impl<W: Wire, M: Machine> Crew<W, M> {
    /// A crew of these lanes, each of which works here. Running out of memory hands them back.
    pub fn new(
        alloc: Global,
        lanes: Sequence<Lane<W, M>>,
    ) -> Result<Crew<W, M>, Sequence<Lane<W, M>>>
        ensures ok { IfOk result (λ crew. crew ≡ map worker_here lanes.items) }
        ensures returned { IfErr result (λ back. back.items ≡ lanes.items) }
    {
        let count = lanes.len();
        let Ok(workers) = Vec::with_capacity(alloc, count) else {
            return Err(lanes);
        };
        let Ok(room) = Vec::with_capacity(alloc, count) else {
            return Err(lanes);
        };
        Ok(Crew {
            workers: enlist(lanes, workers),
            room,
        })
    }

    /// Puts each lane that has a dock into it.
    pub fn moor<R: Wait, N: Roster<M::Opening>>(self, rt: &R, docks: &Docks<N, W, M>) -> Self
        requires here { AreHere N.turnstile (posts_of self) }
        requires roster { IsRosterOf N.post (posts_of self) }
        requires docks { docks.now ≤ length self }
        ensures { posts_of result ≡ posts_of self }
    {
        let Crew { mut workers, room } = self;
        for place in 0..docks.len() {
            let worker = moored(rt, docks.at(place), take_out(&mut workers, place), place);
            put_in(&mut workers, place, worker);
        }
        Crew { workers, room }
    }

    /// The number of workers.
    pub fn len(&self) -> usize
        ensures { result ≡ length self.now }
    {
        self.workers.len()
    }

    /// Pumps each lane that works here, in order, until there is nothing to send for now, and answers whether one of them did
    /// anything. Lanes in threads are left alone.
    pub fn pump_here<R: Wait>(&mut self, rt: &R, turnstile: &Turnstile<Board<M>>) -> bool
        requires here { AreHere turnstile.now.id (posts_of self.old) }
        ensures { PumpsHere M.rules result self.old self.new }
    {
        let mut has_done = false;
        for place in 0..self.workers.len() {
            if self.workers[place].pump_out(rt, turnstile) {
                has_done = true;
            }
        }
        has_done
    }

    /// Pumps each lane that works here, in order, until there is nothing more to send.
    pub fn pump_to_end<R: Wait>(&mut self, rt: &R, turnstile: &Turnstile<Board<M>>)
        requires here { AreHere turnstile.now.id (posts_of self.old) }
        ensures { PumpsToEnd M.rules self.old self.new }
    {
        for place in 0..self.workers.len() {
            self.workers[place].pump_to_end(rt, turnstile);
        }
    }

    /// The lanes in their order, once the threads are done: those that aren't here come from their docks. It takes no memory.
    pub fn gather<R: Wait, N: Roster<M::Opening>>(
        self,
        rt: &R,
        turnstile: &Turnstile<Board<M>>,
        docks: Docks<N, W, M>,
    ) -> Sequence<Lane<W, M>>
        requires here { N.turnstile ≡ turnstile.now.id }
        requires roster { IsRosterOf N.post (posts_of self) }
        ensures { posts result.items ≡ posts_of self }
    {
        let Crew { workers, room } = self;
        gather(rt, turnstile, workers, docks, room)
    }
}

/// The lanes as workers, for which there is room.
fn enlist<W: Wire, M: Machine>(
    lanes: Sequence<Lane<W, M>>,
    mut workers: Vec<Worker<W, M>>,
) -> Vec<Worker<W, M>>
    requires none { workers.items ≡ [] }
    requires room { length lanes.items ≤ vec_capacity workers }
    ensures { result.items ≡ map worker_here lanes.items }
{
    for lane in lanes.into_vec() {
        workers.push_reserved(Worker::here(lane));
    }
    workers
}

/// The worker with its lane in that dock, which is that of its place.
fn moored<R: Wait, N: Roster<M::Opening>, W: Wire, M: Machine>(
    rt: &R,
    dock: &Dock<N, W, M>,
    worker: Worker<W, M>,
    place: usize,
) -> Worker<W, M>
    requires here { worker.post.turnstile ≡ N.turnstile }
    requires post { worker.post ≡ N.post place }
    ensures { result.post ≡ worker.post }
{
    match worker.into_here() {
        Ok(lane) => Worker::moor(rt, dock, lane, place),
        Err(worker) => worker,
    }
}

/// The lanes of the workers, for which there is room.
fn gather<R: Wait, N: Roster<M::Opening>, W: Wire, M: Machine>(
    rt: &R,
    turnstile: &Turnstile<Board<M>>,
    workers: Vec<Worker<W, M>>,
    docks: Docks<N, W, M>,
    mut lanes: Vec<Lane<W, M>>,
) -> Sequence<Lane<W, M>>
    requires here { N.turnstile ≡ turnstile.now.id }
    requires roster { IsRosterOf N.post (posts_of workers.items) }
    requires none { lanes.items ≡ [] }
    requires room { vec_len workers ≤ vec_capacity lanes }
    ensures { posts result.items ≡ posts_of workers.items }
{
    let mut docks = docks.into_iter();
    for worker in workers {
        let lane = worker.join(rt, turnstile, next_of(&mut docks), lanes.len());
        lanes.push_reserved(lane);
    }
    Sequence::from_vec(lanes)
}

fn next_of<N: Roster<M::Opening>, W: Wire, M: Machine>(
    docks: &mut IntoIter<Dock<N, W, M>>,
) -> Option<Dock<N, W, M>> {
    docks.next()
}
