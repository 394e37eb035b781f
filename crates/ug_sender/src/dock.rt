//! Where a lane lies that has a thread of its own, while that thread doesn't work on it.
//!
//! To wake a thread costs as much as to take many packets. So the builder takes packets for lanes that lie in their docks,
//! and their threads are woken once there is much to send, one after the other, or where nothing more comes for now. While the
//! builder does that, a thread sends alone: turns of its own would hold the builder up. A thread that is late doesn't either, as
//! long as there is room in its lane's buffer.
//!
//! A thread is started when it is woken for the first time: before a session begins there is nothing to do for it, and a
//! program that has a second thread takes longer for each allocation.

ghost use Rattle.std.specs.Prelude.{◌≡◌, ◌<◌, ◌≤◌, ℕ};
ghost use Rattle.atomic_table.specs.Seated.{TableId};
ghost use Rattle.ug_sender.specs.Posts.{Post, no_post, nowhere, post_of};

use crate::laden::{Fill, Laden, Load};
use crate::lane::Lane;
use crate::serve::pump_for_now;
use crate::starter::Starter;
use std::alloc::Global;
use std::marker::{Brand, Model, PhantomData};
use std::sync::atomic::AtomicBool;
use std::sync::atomic::Ordering::SeqCst;
use std::sync::{Mutex, Wait};
use std::thread::Parker;
use std::vec::IntoIter;
use ug_board::{Board, Machine};
use ug_edge::Wire;
use ug_turnstile::Turnstile;

/// In each so many passes of the builder over the docks each lane has its turn, in which its thread is woken for less.
const PASSES: usize = 16;

/// The turnstile of a crew, and the post of the lane at each of its places. Proofs alone know them: of what lies under a
/// lock only what its type says is known.
pub trait Roster<O> {
    ghost turnstile: { TableId };

    ghost post: { ℕ → Post O };
}

impl<O> Roster<O> for Brand {
    ghost turnstile = { nowhere };

    ghost post = { λ _. no_post };
}

/// A lane of a crew, and its place there.
#[derive(Drop)]
struct Moored<N: Roster<M::Opening>, W: Wire, M: Machine> {
    laden: Laden<W, M>,
    place: usize,
    roster: PhantomData<N>,
    ghost here: { laden.lane.pass.turnstile ≡ N.turnstile },
    ghost post: { post_of laden.lane ≡ N.post place },
}

impl<N: Roster<M::Opening>, W: Wire, M: Machine> Moored<N, W, M> {
    /// The lane at that place.
    fn of(laden: Laden<W, M>, place: usize) -> Self
        requires here { laden.lane.pass.turnstile ≡ N.turnstile }
        requires post { post_of laden.lane ≡ N.post place }
    {
        Moored {
            laden,
            place,
            roster: PhantomData,
        }
    }

    /// Takes what there is for the lane.
    fn load<R: Wait>(&mut self, rt: &R, turnstile: &Turnstile<Board<M>>) -> Load
        requires here { N.turnstile ≡ turnstile.now.id }
    {
        self.laden.load(rt, turnstile)
    }

    /// The lane, once all that was taken for it is sent, and its place.
    fn unload<R: Wait>(self, rt: &R, turnstile: &Turnstile<Board<M>>) -> (Lane<W, M>, usize)
        requires here { N.turnstile ≡ turnstile.now.id }
        ensures here { result.0.pass.turnstile ≡ N.turnstile }
        ensures post { post_of result.0 ≡ N.post result.1 }
    {
        let Moored { laden, place, .. } = self;
        (laden.send(rt, turnstile), place)
    }

    /// Sends what was taken for the lane, and, unless the builder takes for it then, what there is for it beyond that. It answers
    /// whether there is nothing more to send.
    fn serve<R: Wait>(
        self,
        rt: &R,
        turnstile: &Turnstile<Board<M>>,
        is_attended: &AtomicBool,
    ) -> (Self, bool)
        requires here { N.turnstile ≡ turnstile.now.id }
    {
        let (mut lane, place) = self.unload(rt, turnstile);
        let is_over = !is_attended.load(SeqCst) && pump_for_now(rt, turnstile, &mut lane);
        (Moored::of(Laden::of(lane), place), is_over)
    }
}

/// Where the lane at one place of a crew lies. While its thread works on it, it is away.
#[derive(Drop)]
pub struct Dock<N: Roster<M::Opening>, W: Wire, M: Machine> {
    lane: Mutex<Option<Moored<N, W, M>>>,
    /// Where its thread waits.
    parker: Parker,
    /// Whether it has a thread, which was started.
    has_thread: AtomicBool,
    /// Whether there may be something to do for its thread, for which that was not woken yet.
    is_wanted: AtomicBool,
    /// Whether the builder takes for the lane, so that its thread sends alone.
    is_attended: AtomicBool,
}

impl<N: Roster<M::Opening>, W: Wire, M: Machine> Dock<N, W, M> {
    /// A dock in which no lane lies.
    fn new() -> Self {
        Dock {
            lane: Mutex::new(None),
            parker: Parker::new(),
            has_thread: AtomicBool::new(false),
            is_wanted: AtomicBool::new(false),
            is_attended: AtomicBool::new(false),
        }
    }

    /// Puts the lane at that place of the crew into it.
    pub(crate) fn moor<R: Wait>(&self, rt: &R, lane: Lane<W, M>, place: usize)
        requires here { lane.pass.turnstile ≡ N.turnstile }
        requires post { post_of lane ≡ N.post place }
    {
        self.put(rt, Moored::of(Laden::of(lane), place));
    }

    fn put<R: Wait>(&self, rt: &R, moored: Moored<N, W, M>) {
        let mut lane = self.lane.lock(rt);
        *lane = Some(moored);
    }

    fn take<R: Wait>(&self, rt: &R) -> Option<Moored<N, W, M>> {
        let mut lane = self.lane.lock(rt);
        lane.take()
    }

    /// Takes what there is for the lane, where it lies here. From then on its thread sends alone, until the lane is left to it.
    fn load<R: Wait>(&self, rt: &R, turnstile: &Turnstile<Board<M>>) -> Option<Load>
        requires here { N.turnstile ≡ turnstile.now.id }
    {
        self.is_attended.store(true, SeqCst);
        let load = self.load_here(rt, turnstile);
        if wants_thread(load) {
            self.is_wanted.store(true, SeqCst);
        }
        load
    }

    fn load_here<R: Wait>(&self, rt: &R, turnstile: &Turnstile<Board<M>>) -> Option<Load>
        requires here { N.turnstile ≡ turnstile.now.id }
    {
        let mut lane = self.lane.lock(rt);
        match &mut *lane {
            Some(moored) => Some(moored.load(rt, turnstile)),
            None => None,
        }
    }

    /// Sends what was taken for the lane, and, unless the builder takes for it then, what there is for it beyond that. It answers
    /// whether there is nothing more to send.
    pub(crate) fn serve<R: Wait>(&self, rt: &R, turnstile: &Turnstile<Board<M>>) -> bool
        requires here { N.turnstile ≡ turnstile.now.id }
    {
        let Some(moored) = self.take(rt) else {
            return false;
        };
        let (moored, is_over) = moored.serve(rt, turnstile, &self.is_attended);
        self.put(rt, moored);
        is_over
    }

    /// Waits until its thread is woken.
    pub(crate) fn wait<R: Wait>(&self, rt: &R) {
        self.parker.park(rt);
    }

    /// Wakes the thread of the lane at that place, where there may be something to do for it. It is started where there is none yet;
    /// where that is refused the lane is served here, which is rung for as a thread does.
    fn rouse<R: Wait, T: Starter>(
        &self,
        rt: &R,
        turnstile: &Turnstile<Board<M>>,
        starter: &T,
        place: usize,
    )
        requires here { N.turnstile ≡ turnstile.now.id }
        requires starter { T.can_start starter.now }
    {
        if !self.is_wanted.load(SeqCst) {
            return;
        }
        self.is_wanted.store(false, SeqCst);
        if self.has_thread.load(SeqCst) {
            self.parker.unpark();
        } else if starter.start(place) {
            self.has_thread.store(true, SeqCst);
        } else {
            let _is_over = self.serve(rt, turnstile);
            turnstile.back().ring();
        }
    }

    /// Leaves the lane to its thread, which takes itself what there is.
    fn leave(&self) {
        self.is_attended.store(false, SeqCst);
    }

    /// Leaves the lane to its thread for ever.
    fn dismiss(&self) {
        self.leave();
        self.parker.unpark();
    }

    /// The lane of that place, once all that was taken for it is sent. It is for when no thread works on it any more: then it lies
    /// here. But of what lies under a lock only what its type says is known, so where it didn't this would wait for ever.
    fn into_lane<R: Wait>(self, rt: &R, turnstile: &Turnstile<Board<M>>, place: usize) -> Lane<W, M>
        requires here { N.turnstile ≡ turnstile.now.id }
        ensures post { post_of result ≡ N.post place }
    {
        if let Some(moored) = self.lane.into_inner() {
            let (lane, found) = moored.unload(rt, turnstile);
            if found == place {
                return lane;
            }
        }
        for _ in rt.forever() {}
        unreachable!()
    }
}

/// Whether there may be something to do for a lane's thread, where this was taken for the lane, or where it is away.
fn wants_thread(load: Option<Load>) -> bool {
    match load {
        Some(load) => load.has_come || !load.rests,
        None => true,
    }
}

/// Whether the thread of the lane at a place is woken behind that pass of the builder, where this was taken for the lane.
fn is_to_wake(load: Option<Load>, place: usize, pass: usize) -> bool {
    match load {
        Some(load) => match load.fill {
            Fill::Little => false,
            Fill::Much => place % PASSES == pass % PASSES,
            Fill::Full => true,
        },
        None => false,
    }
}

/// The lane of a dock at that place.
pub(crate) fn lane_of<R: Wait, N: Roster<M::Opening>, W: Wire, M: Machine>(
    rt: &R,
    turnstile: &Turnstile<Board<M>>,
    dock: Option<Dock<N, W, M>>,
    place: usize,
) -> Lane<W, M>
    requires here { N.turnstile ≡ turnstile.now.id }
    ensures post { post_of result ≡ N.post place }
{
    if let Some(dock) = dock {
        return dock.into_lane(rt, turnstile, place);
    }
    for _ in rt.forever() {}
    unreachable!()
}

/// The docks of a crew, by the places of its lanes: one for each lane, or none where all lanes work here. Contracts see how many
/// there are.
#[derive(Drop)]
pub struct Docks<N: Roster<M::Opening>, W: Wire, M: Machine> {
    docks: Vec<Dock<N, W, M>>,
}

impl<N: Roster<M::Opening>, W: Wire, M: Machine> Model for Docks<N, W, M> {
    ghost use Rattle.std.specs.Prelude.{ℕ};
    ghost use Rattle.std.specs.Vec.{vec_len};

    ghost Value = { ℕ };

    ghost view = { λ d. vec_len d.docks };
}

/// What there was for lanes that lie in their docks.
#[derive(Clone, Copy, PartialEq, Eq)]
pub struct Intake {
    /// Whether a packet or a session came for one of them.
    pub has_come: bool,
    /// How many of them are away, or could not take all that there was.
    pub behind: usize,
}

impl Intake {
    /// What there is for no lane.
    fn none() -> Intake {
        Intake {
            has_come: false,
            behind: 0,
        }
    }

    /// With what there was for one more: none where it is away.
    fn with(self, load: Option<Load>) -> Intake {
        match load {
            Some(load) => Intake {
                has_come: self.has_come || load.has_come,
                behind: self.behind.saturating_add(if load.rests { 0 } else { 1 }),
            },
            None => Intake {
                behind: self.behind.saturating_add(1),
                ..self
            },
        }
    }
}

impl<N: Roster<M::Opening>, W: Wire, M: Machine> Docks<N, W, M> {
    /// So many docks, in which no lanes lie. Where there is no memory for them there are none.
    pub fn new(alloc: Global, count: usize) -> Self
        ensures { result ≤ count }
    {
        let Ok(mut docks) = Vec::with_capacity(alloc, count) else {
            return Docks {
                docks: Vec::new(alloc),
            };
        };
        for _ in 0..count {
            docks.push_reserved(Dock::new());
        }
        Docks { docks }
    }

    /// How many docks there are.
    pub fn len(&self) -> usize
        ensures { result ≡ self.now }
    {
        self.docks.len()
    }

    /// The dock at a place.
    pub fn at(&self, place: usize) -> &Dock<N, W, M>
        requires { place < self.now }
    {
        &self.docks[place]
    }

    /// Takes what there is for each lane that lies in its dock, and tells what that was. It is the pass of that number. Threads of
    /// lanes that have much to send are woken.
    pub(crate) fn load<R: Wait, T: Starter>(
        &self,
        rt: &R,
        turnstile: &Turnstile<Board<M>>,
        starter: &T,
        pass: usize,
    ) -> Intake
        requires here { N.turnstile ≡ turnstile.now.id }
        requires starter { T.can_start starter.now }
    {
        let mut intake = Intake::none();
        for place in 0..self.docks.len() {
            let dock = &self.docks[place];
            let load = dock.load(rt, turnstile);
            if is_to_wake(load, place, pass) {
                dock.rouse(rt, turnstile, starter, place);
            }
            intake = intake.with(load);
        }
        intake
    }

    /// Wakes the threads of lanes for which there may be something to do.
    pub(crate) fn rouse<R: Wait, T: Starter>(
        &self,
        rt: &R,
        turnstile: &Turnstile<Board<M>>,
        starter: &T,
    )
        requires here { N.turnstile ≡ turnstile.now.id }
        requires starter { T.can_start starter.now }
    {
        for place in 0..self.docks.len() {
            self.docks[place].rouse(rt, turnstile, starter, place);
        }
    }

    /// Leaves the lanes to their threads, until the builder takes for them again.
    pub(crate) fn leave(&self) {
        for dock in self.docks.as_slice() {
            dock.leave();
        }
    }

    /// Leaves the lanes to their threads for ever.
    pub(crate) fn dismiss(&self) {
        for dock in self.docks.as_slice() {
            dock.dismiss();
        }
    }

    /// The docks in their order.
    pub(crate) fn into_iter(self) -> IntoIter<Dock<N, W, M>> {
        let Docks { docks } = self;
        docks.into_iter()
    }
}
