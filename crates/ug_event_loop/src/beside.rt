//! A file of events read beside a crew at work.

ghost use Rattle.std.specs.Prelude.{◌≡◌, ◌≤◌, [], length, map, true, false, not, is_some};
ghost use Rattle.std.specs.Vec.{vec_len, vec_capacity};
ghost use denote.Param.Send.{IsSend, IsSync};
ghost use Rattle.ug_events.specs.Views.{event_of};
ghost use Rattle.ug_speaker.specs.Owes.{AreEvents};
ghost use Rattle.ug_sender.specs.Posts.{AreHere, IsRosterOf, post_of, posts, posts_of};
ghost use Rattle.ug_event_loop.specs.Reading.{first_of, IsRead};
ghost use Rattle.ug_event_loop.specs.Beside.{ReadsBeside};

use crate::reading::Reading;
use std::marker::Brand;
use std::sync::Wait;
use std::sync::ledger::Ledger;
use std::thread;
use std::thread::Threads;
use ug_board::Board;
use ug_edge::{Sink, Source, Wire};
use ug_sender::{Crew, Docks, Fleet, Lane, Roster, Starter, StarterBy, labour};
use ug_speaker::Speaker;
use ug_turnstile::Turnstile;
use ug_types::{Sequence, Steps};

/// A reading and what it works on, lent for the work. Nothing is said of a `&mut` that the closure of a scope holds, so
/// that closure is given this, and hands it back.
#[derive(Drop)]
struct Lent<'t, 'a, 'b, 'c, S: Speaker, E, K, L: Ledger> {
    reading: &'t mut Reading<S>,
    source: &'a mut E,
    report: &'b mut K,
    steps: &'c mut Steps<L>,
}

/// Reads the file beside the crew, each lane in a thread of its own where they are to work apart, and hands all lanes
/// back once they have stopped. The thread of a lane is started with the first session of its peer; where that is refused the builder
/// sends for the lane itself. Nothing is said of when it returns; it takes no memory but what reading, docks and the threads take, and
/// where there is none for docks all lanes work here.
pub fn read_beside<R: Threads + Wait + Sync, W: Wire, S: Speaker, E: Source, K: Sink, L: Ledger>(
    rt: &R,
    turnstile: &Turnstile<Board<S>>,
    crew: Crew<W, S>,
    apart: bool,
    reading: &mut Reading<S>,
    source: &mut E,
    report: &mut K,
    steps: &mut Steps<L>,
) -> Sequence<Lane<W, S>>
    requires here { reading.old.builder.pass.turnstile ≡ turnstile.now.id }
    requires crew { AreHere turnstile.now.id (posts_of crew) }
    requires form { AreEvents (map event_of reading.old.first.items) }
    ensures ended { IsRead S.Machine.rules S.speech (first_of reading.old.first.items) reading.old.builder reading.new.builder
        (record { left = E.left source.old; reads_failed = E.faults source.old; held = K.held report.old; writes_failed = K.faults report.old; steps = steps.old })
        (record { left = E.left source.new; reads_failed = E.faults source.new; held = K.held report.new; writes_failed = K.faults report.new; steps = steps.new }) reading.new.end }
    ensures posts { posts result.items ≡ posts_of crew }
    ensures files { E.files source.new ≡ E.files source.old }
    ensures picks { E.picks source.new ≡ E.picks source.old }
    ensures made { E.made source.new ≡ E.made source.old }
    ensures wire_faults { E.wire_faults source.new ≡ E.wire_faults source.old }
{
    let lent = Lent {
        reading,
        source,
        report,
        steps,
    };
    let (lanes, lent) = beside::<Brand, R, W, S, E, K, L>(rt, turnstile, crew, apart, lent);
    let Lent {
        reading,
        source,
        report,
        steps,
    } = lent;
    take_back(reading);
    take_back(source);
    take_back(report);
    take_back(steps);
    lanes
}

/// Does nothing, but this use of a returned reference is what ties it, for the borrow checker, to the one that was lent.
fn take_back<T>(x: &mut T)
    ensures { x.new ≡ x.old }
{}

/// Starts the threads, reads the file beside them, waits until all are done, and hands the lanes back.
fn beside<
    't,
    'a,
    'b,
    'c,
    N: Roster<S::Opening> + Send + Sync,
    R: Threads + Wait + Sync,
    W: Wire,
    S: Speaker,
    E: Source,
    K: Sink,
    L: Ledger,
>(
    rt: &R,
    turnstile: &Turnstile<Board<S>>,
    crew: Crew<W, S>,
    apart: bool,
    lent: Lent<'t, 'a, 'b, 'c, S, E, K, L>,
) -> (Sequence<Lane<W, S>>, Lent<'t, 'a, 'b, 'c, S, E, K, L>)
    requires at { N.turnstile ≡ turnstile.now.id }
    requires roster { IsRosterOf N.post (posts_of crew) }
    requires here { lent.reading.now.builder.pass.turnstile ≡ turnstile.now.id }
    requires crew { AreHere turnstile.now.id (posts_of crew) }
    requires form { AreEvents (map event_of lent.reading.now.first.items) }
    ensures posts { posts result.0.items ≡ posts_of crew }
    ensures read { ReadsBeside S.Machine.rules S.speech E.left E.faults E.files E.picks E.made E.wire_faults K.held K.faults lent.entry result.1 }
{
    let docks: Docks<N, W, S> = Docks::new(lent.reading.alloc, starting(&crew, apart));
    let (crew, lent) = beside_docks(rt, turnstile, &docks, crew, lent);
    (crew.gather(rt, turnstile, docks), lent)
}

/// Puts each lane that has a dock into it, reads the file beside their threads, and waits until all are done.
fn beside_docks<
    't,
    'a,
    'b,
    'c,
    N: Roster<S::Opening> + Send + Sync,
    R: Threads + Wait + Sync,
    W: Wire,
    S: Speaker,
    E: Source,
    K: Sink,
    L: Ledger,
>(
    rt: &R,
    turnstile: &Turnstile<Board<S>>,
    docks: &Docks<N, W, S>,
    crew: Crew<W, S>,
    lent: Lent<'t, 'a, 'b, 'c, S, E, K, L>,
) -> (Crew<W, S>, Lent<'t, 'a, 'b, 'c, S, E, K, L>)
    requires at { N.turnstile ≡ turnstile.now.id }
    requires roster { IsRosterOf N.post (posts_of crew) }
    requires docks { docks.now ≤ length crew }
    requires here { lent.reading.now.builder.pass.turnstile ≡ turnstile.now.id }
    requires crew { AreHere turnstile.now.id (posts_of crew) }
    requires form { AreEvents (map event_of lent.reading.now.first.items) }
    ensures posts { posts_of result.0 ≡ posts_of crew }
    ensures read { ReadsBeside S.Machine.rules S.speech E.left E.faults E.files E.picks E.made E.wire_faults K.held K.faults lent.entry result.1 }
{
    let crew = crew.moor(rt, docks);
    thread::scope(
        thread::scope_env(),
        rt,
        |scope| -> (Crew<W, S>, Lent<S, E, K, L>)
            requires sends { IsSend N.row × IsSend W.row × IsSend S.row × IsSend S.Job.row × IsSend S.Said.row × IsSync N.row × IsSync R.row }
            requires at { N.turnstile ≡ turnstile.now.id }
            requires here { lent.reading.now.builder.pass.turnstile ≡ turnstile.now.id }
            requires crew { AreHere turnstile.now.id (posts_of crew) }
            requires form { AreEvents (map event_of lent.reading.now.first.items) }
            ensures posts { posts_of result.0 ≡ posts_of crew }
            ensures read { ReadsBeside S.Machine.rules S.speech E.left E.faults E.files E.picks E.made E.wire_faults K.held K.faults lent.entry result.1 }
        {
            let start = |place: usize| -> bool
                requires sends { IsSend N.row × IsSend W.row × IsSend S.row × IsSend S.Job.row × IsSend S.Said.row × IsSync N.row × IsSync R.row }
                requires at { N.turnstile ≡ turnstile.now.id }
            {
                if place >= docks.len() {
                    return false;
                }
                let dock = docks.at(place);
                scope
                    .spawn(
                        move ||
                            requires at { N.turnstile ≡ turnstile.now.id }
                        { labour(rt, turnstile, dock) },
                    )
                    .is_ok()
            };
            // Taken as wholes, so that clauses see each as one value.
            let crew = crew;
            let lent = lent;
            attend_beside(rt, turnstile, docks, crew, StarterBy { start }, lent)
        },
    )
}

/// Reads the file beside the crew and the lanes in docks, whose threads the starter starts, and lets those go for ever then.
fn attend_beside<
    't,
    'a,
    'b,
    'c,
    N: Roster<S::Opening>,
    R: Wait,
    W: Wire,
    S: Speaker,
    T: Starter,
    E: Source,
    K: Sink,
    L: Ledger,
>(
    rt: &R,
    turnstile: &Turnstile<Board<S>>,
    docks: &Docks<N, W, S>,
    crew: Crew<W, S>,
    starter: T,
    lent: Lent<'t, 'a, 'b, 'c, S, E, K, L>,
) -> (Crew<W, S>, Lent<'t, 'a, 'b, 'c, S, E, K, L>)
    requires at { N.turnstile ≡ turnstile.now.id }
    requires starter { T.can_start starter }
    requires here { lent.reading.now.builder.pass.turnstile ≡ turnstile.now.id }
    requires crew { AreHere turnstile.now.id (posts_of crew) }
    requires form { AreEvents (map event_of lent.reading.now.first.items) }
    ensures posts { posts_of result.0 ≡ posts_of crew }
    ensures read { ReadsBeside S.Machine.rules S.speech E.left E.faults E.files E.picks E.made E.wire_faults K.held K.faults lent.entry result.1 }
{
    let mut fleet = Fleet::of(crew, docks, turnstile, starter);
    let Lent {
        reading,
        source,
        report,
        steps,
    } = lent;
    reading.attend(rt, turnstile, &mut fleet, source, report, steps);
    fleet.dismiss();
    fleet.pump_to_end(rt, turnstile);
    (
        fleet.into_crew(),
        Lent {
            reading,
            source,
            report,
            steps,
        },
    )
}

/// How many lanes get threads: all where they are to work apart, and else none.
fn starting<W: Wire, S: Speaker>(crew: &Crew<W, S>, apart: bool) -> usize
    ensures within { result ≤ length crew.now }
    ensures all { apart ≡ true → result ≡ length crew.now }
    ensures none { apart ≡ false → result ≡ 0 }
{
    if apart { crew.len() } else { 0 }
}
