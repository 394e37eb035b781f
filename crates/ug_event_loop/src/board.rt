//! What is done on a board in one turn of the builder.

ghost use Rattle.std.specs.Prelude.{◌≡◌, ◌++◌, ◌∷◌, [], true, false, Some, None, Ok, OnOk, OnErr, IfOk, IfSome, IfNone};
ghost use Rattle.ug_board.specs.History.{state_of, job_entry, IsLegal};
ghost use Rattle.ug_turnstile.specs.Passes.{Adds};
ghost use Rattle.ug_events.specs.Events.{IsEvent, Says, SaysSync};
ghost use Rattle.ug_events.specs.Views.{event_of};
ghost use Rattle.ug_world.specs.Verdicts.{verdict};
ghost use Rattle.ug_speaker.specs.Speech.{MarksTold, Prepares};
ghost use Rattle.ug_speaker.specs.Owes.{IsPrepared};
ghost use Rattle.ug_event_loop.specs.Turns.{GoesOn, WindsUp, Answers, AreMore, IsSettled, IsUntold, answer_of};
ghost use Rattle.ug_event_loop.specs.declared.board.Work.TheVariants.{Settling, Draining};
ghost use Rattle.ug_event_loop.specs.Counts.{least_of, most_of, RisesBy, RisesWithin};

use crate::came::Came;
use crate::settled::Settled;
use std::alloc::Global;
use std::sync::Wait;
use std::sync::ledger::Ledger;
use ug_board::Board;
use ug_events::Event;
use ug_speaker::Speaker;
use ug_types::{NoMemory, Steps};
use ug_world::Refusal;

/// The number of the builder's pass.
pub const BUILDER: u32 = 0;

/// Does a job where it may be done, and else answers as where memory runs out. Marks are asked for only where everything is told.
pub(crate) fn do_job<S: Speaker, L: Ledger>(
    board: &mut Board<S>,
    job: S::Job,
    steps: &mut Steps<L>,
) -> Result<S::Said, NoMemory>
    requires told { S.speech.purpose job ≡ MarksTold → S.speech.drained (state_of S.Machine.rules board.old) ≡ true }
    ensures opening { board.new.opening ≡ board.old.opening }
    ensures legal { OnOk result (S.Machine.rules.legal job (state_of S.Machine.rules board.old) ≡ true) }
    ensures said { IfOk result (λ said. said ≡ S.Machine.rules.reply job (state_of S.Machine.rules board.old)) }
    ensures history { OnOk result (board.new.history ≡ board.old.history ++ job_entry S.Machine.rules 0 job (state_of S.Machine.rules board.old) ∷ []) }
    ensures stays_spent { board.old.spent ≡ true → board.new.spent ≡ true }
    ensures adds { Adds (λ entry. entry.pass) 0 board.old.history board.new.history }
    ensures unchanged { OnErr result (board.new.history ≡ board.old.history) }
    ensures unspent { OnOk result (board.new.spent ≡ false) }
    ensures refused { OnErr result (board.new.spent ≡ false → S.Machine.rules.legal job (state_of S.Machine.rules board.old) ≡ false) }
    ensures sound { IsLegal S.Machine.rules board.new.opening board.new.history }
    ensures steps_least { RisesBy steps.old steps.new (least_of S.Machine.rules board.old.opening board.old.history) (least_of S.Machine.rules board.old.opening board.new.history) }
    ensures steps_most { OnOk result (RisesWithin steps.old steps.new (most_of S.Machine.rules board.old.opening board.old.history) (most_of S.Machine.rules board.old.opening board.new.history)) }
{
    if board.is_spent() {
        return Err(NoMemory);
    }
    if !board.machine().legal(&job) {
        return Err(NoMemory);
    }
    board.job(BUILDER, job, steps)
}

/// Work that no line asks for: what has to be done before the next event, or what more can be told by.
#[derive(Clone, Copy)]
enum Work {
    Settling,
    Draining,
}

/// The next job of such work; none where there is none to be done.
fn next_job<S: Speaker>(board: &Board<S>, work: Work) -> Result<Option<S::Job>, NoMemory>
    ensures prepares { IfOk result (λ next. IfSome next (λ job. S.speech.purpose job ≡ Prepares)) }
    ensures settled { work ≡ Settling → board.now.spent ≡ false → IfOk result (λ next. IfNone next (IsSettled S.Machine.rules S.speech (state_of S.Machine.rules board.now))) }
    ensures prepared { work ≡ Draining → board.now.spent ≡ false → IfOk result (λ next. IfNone next (IsPrepared S.Machine.rules S.speech (state_of S.Machine.rules board.now))) }
{
    match work {
        Work::Settling => board.machine().settling(),
        Work::Draining => board.machine().draining(),
    }
}

/// Does such work until there is none, and answers how many jobs that were.
#[tactic(auto, using(crate::proofs::Turning::adds_nothing, crate::proofs::Turning::adds_further, crate::proofs::Turning::goes_nowhere, crate::proofs::Turning::none_more))]
fn prepare<S: Speaker, R: Wait, L: Ledger>(
    rt: &R,
    board: &mut Board<S>,
    work: Work,
    steps: &mut Steps<L>,
) -> Result<usize, NoMemory>
    requires unspent { board.old.spent ≡ false }
    requires legal { IsLegal S.Machine.rules board.old.opening board.old.history }
    ensures opening { board.new.opening ≡ board.old.opening }
    ensures adds { Adds (λ entry. entry.pass) 0 board.old.history board.new.history }
    ensures history { GoesOn S.Machine.rules S.speech board.old.history board.new.history }
    ensures unspent { OnOk result (board.new.spent ≡ false) }
    ensures settled { work ≡ Settling → OnOk result (IsSettled S.Machine.rules S.speech (state_of S.Machine.rules board.new)) }
    ensures prepared { work ≡ Draining → OnOk result (IsPrepared S.Machine.rules S.speech (state_of S.Machine.rules board.new)) }
    ensures jobs { IfOk result (λ jobs. AreMore jobs board.old.history board.new.history) }
    ensures legal { IsLegal S.Machine.rules board.new.opening board.new.history }
    ensures steps_least { RisesBy steps.old steps.new (least_of S.Machine.rules board.old.opening board.old.history) (least_of S.Machine.rules board.old.opening board.new.history) }
    ensures steps_most { OnOk result (RisesWithin steps.old steps.new (most_of S.Machine.rules board.old.opening board.old.history) (most_of S.Machine.rules board.old.opening board.new.history)) }
{
    let mut jobs: usize = 0;
    for _ in rt.forever() {
        let next = next_job(board, work)?;
        let Some(job) = next else {
            return Ok(jobs);
        };
        do_job(board, job, steps)?;
        jobs = jobs.saturating_add(1);
    }
    unreachable!()
}

/// Why the world refuses an event, if it does.
fn refusal_of<S: Speaker>(board: &Board<S>, event: &Event) -> Option<u8>
    requires unspent { board.now.spent ≡ false }
    ensures { result ≡ verdict (S.speech.world (state_of S.Machine.rules board.now)) (event_of event.now) }
{
    match board.machine().world().judge(event) {
        Ok(()) => None,
        Err(Refusal { number }) => Some(number),
    }
}

/// Takes an event that the world accepts, where nothing has to be done before it.
fn take_event<S: Speaker, L: Ledger>(
    alloc: Global,
    board: &mut Board<S>,
    event: Event,
    steps: &mut Steps<L>,
) -> Result<Came<S::Said>, NoMemory>
    requires unspent { board.old.spent ≡ false }
    requires legal { IsLegal S.Machine.rules board.old.opening board.old.history }
    requires settled { IsSettled S.Machine.rules S.speech (state_of S.Machine.rules board.old) }
    requires form { IsEvent (event_of event) }
    ensures opening { board.new.opening ≡ board.old.opening }
    ensures adds { Adds (λ entry. entry.pass) 0 board.old.history board.new.history }
    ensures answers { IfOk result (λ came. Answers S.Machine.rules S.speech board.old.opening (Ok (Says (event_of event))) (answer_of S.speech.marks came) board.old.history board.new.history) }
    ensures accepted { OnErr result (verdict (S.speech.world (state_of S.Machine.rules board.old)) (event_of event) ≡ None) }
    ensures unchanged { OnErr result (board.new.history ≡ board.old.history) }
    ensures legal { IsLegal S.Machine.rules board.new.opening board.new.history }
    ensures steps_least { RisesBy steps.old steps.new (least_of S.Machine.rules board.old.opening board.old.history) (least_of S.Machine.rules board.old.opening board.new.history) }
    ensures steps_most { OnOk result (RisesWithin steps.old steps.new (most_of S.Machine.rules board.old.opening board.old.history) (most_of S.Machine.rules board.old.opening board.new.history)) }
{
    match refusal_of(board, &event) {
        Some(number) => Ok(Came::Refused {
            number,
            inner: None,
        }),
        None => {
            let job = S::event_job(alloc, event)?;
            let said = do_job(board, job, steps)?;
            Ok(Came::Took(said))
        }
    }
}

/// Does what has to be done before the next event, as far as there is anything, and answers how many jobs that were
/// and how many packets a queue holds.
pub(crate) fn settle<S: Speaker, R: Wait, L: Ledger>(
    rt: &R,
    board: &mut Board<S>,
    steps: &mut Steps<L>,
) -> Result<Settled, NoMemory>
    ensures opening { board.new.opening ≡ board.old.opening }
    ensures stays_spent { board.old.spent ≡ true → board.new.spent ≡ true }
    ensures adds { Adds (λ entry. entry.pass) 0 board.old.history board.new.history }
    ensures history { GoesOn S.Machine.rules S.speech board.old.history board.new.history }
    ensures settled { OnOk result (IsSettled S.Machine.rules S.speech (state_of S.Machine.rules board.new)) }
    ensures jobs { IfOk result (λ settled. AreMore settled.jobs board.old.history board.new.history) }
    ensures room { IfOk result (λ settled. settled.room ≡ (S.speech.world (state_of S.Machine.rules board.new)).local.queue_limit) }
    ensures legal { IsLegal S.Machine.rules board.new.opening board.new.history }
    ensures steps_least { RisesBy steps.old steps.new (least_of S.Machine.rules board.old.opening board.old.history) (least_of S.Machine.rules board.old.opening board.new.history) }
    ensures steps_most { OnOk result (RisesWithin steps.old steps.new (most_of S.Machine.rules board.old.opening board.old.history) (most_of S.Machine.rules board.old.opening board.new.history)) }
{
    if board.is_spent() {
        return Err(NoMemory);
    }
    let jobs = prepare(rt, board, Work::Settling, steps)?;
    let room = board.machine().world().local().queue_limit;
    Ok(Settled { jobs, room })
}

/// Settles, and then offers an event to the world.
pub(crate) fn offer<S: Speaker, R: Wait, L: Ledger>(
    rt: &R,
    alloc: Global,
    board: &mut Board<S>,
    event: Event,
    steps: &mut Steps<L>,
) -> Result<Came<S::Said>, NoMemory>
    requires form { IsEvent (event_of event) }
    ensures opening { board.new.opening ≡ board.old.opening }
    ensures stays_spent { board.old.spent ≡ true → board.new.spent ≡ true }
    ensures adds { Adds (λ entry. entry.pass) 0 board.old.history board.new.history }
    ensures answers { IfOk result (λ came. Answers S.Machine.rules S.speech board.old.opening (Ok (Says (event_of event))) (answer_of S.speech.marks came) board.old.history board.new.history) }
    ensures stopped { OnErr result (GoesOn S.Machine.rules S.speech board.old.history board.new.history) }
    ensures legal { IsLegal S.Machine.rules board.new.opening board.new.history }
    ensures steps_least { RisesBy steps.old steps.new (least_of S.Machine.rules board.old.opening board.old.history) (least_of S.Machine.rules board.old.opening board.new.history) }
    ensures steps_most { OnOk result (RisesWithin steps.old steps.new (most_of S.Machine.rules board.old.opening board.old.history) (most_of S.Machine.rules board.old.opening board.new.history)) }
{
    if board.is_spent() {
        return Err(NoMemory);
    }
    prepare(rt, board, Work::Settling, steps)?;
    take_event(alloc, board, event, steps)
}

/// Does what there is to be done so that everything is told, and marks how much each live peer was told, where it is.
pub(crate) fn mark<S: Speaker, R: Wait, L: Ledger>(
    rt: &R,
    board: &mut Board<S>,
    steps: &mut Steps<L>,
) -> Result<Option<Came<S::Said>>, NoMemory>
    ensures opening { board.new.opening ≡ board.old.opening }
    ensures stays_spent { board.old.spent ≡ true → board.new.spent ≡ true }
    ensures adds { Adds (λ entry. entry.pass) 0 board.old.history board.new.history }
    ensures answers { IfOk result (λ marked. IfSome marked (λ came. Answers S.Machine.rules S.speech board.old.opening (Ok SaysSync) (answer_of S.speech.marks came) board.old.history board.new.history)) }
    ensures waits { IfOk result (λ marked. IfNone marked (GoesOn S.Machine.rules S.speech board.old.history board.new.history)) }
    ensures untold { IfOk result (λ marked. IfNone marked (IsUntold S.Machine.rules S.speech (state_of S.Machine.rules board.new))) }
    ensures stopped { OnErr result (GoesOn S.Machine.rules S.speech board.old.history board.new.history) }
    ensures legal { IsLegal S.Machine.rules board.new.opening board.new.history }
    ensures steps_least { RisesBy steps.old steps.new (least_of S.Machine.rules board.old.opening board.old.history) (least_of S.Machine.rules board.old.opening board.new.history) }
    ensures steps_most { OnOk result (RisesWithin steps.old steps.new (most_of S.Machine.rules board.old.opening board.old.history) (most_of S.Machine.rules board.old.opening board.new.history)) }
{
    if board.is_spent() {
        return Err(NoMemory);
    }
    prepare(rt, board, Work::Draining, steps)?;
    if !board.machine().is_drained() {
        return Ok(None);
    }
    let said = do_job(board, S::sync_job(), steps)?;
    Ok(Some(Came::Synced(said)))
}

/// Ends the work on the board.
fn close<S: Speaker, L: Ledger>(board: &mut Board<S>, steps: &mut Steps<L>) -> Result<(), NoMemory>
    ensures opening { board.new.opening ≡ board.old.opening }
    ensures stays_spent { board.old.spent ≡ true → board.new.spent ≡ true }
    ensures adds { Adds (λ entry. entry.pass) 0 board.old.history board.new.history }
    ensures history { WindsUp S.Machine.rules S.speech board.old.history board.new.history }
    ensures drained { OnOk result (S.speech.drained (state_of S.Machine.rules board.old) ≡ true → S.speech.drained (state_of S.Machine.rules board.new) ≡ true) }
    ensures closed { OnOk result (S.speech.closed (state_of S.Machine.rules board.new) ≡ true) }
    ensures closed_before { OnErr result (board.new.spent ≡ false → S.speech.closed (state_of S.Machine.rules board.new) ≡ true) }
    ensures legal { IsLegal S.Machine.rules board.new.opening board.new.history }
    ensures steps_least { RisesBy steps.old steps.new (least_of S.Machine.rules board.old.opening board.old.history) (least_of S.Machine.rules board.old.opening board.new.history) }
    ensures steps_most { OnOk result (RisesWithin steps.old steps.new (most_of S.Machine.rules board.old.opening board.old.history) (most_of S.Machine.rules board.old.opening board.new.history)) }
{
    do_job(board, S::close_job(), steps)?;
    Ok(())
}

/// Does what there is to be done so that everything is told, and ends the work on the board, where it is. It answers whether
/// it did.
pub(crate) fn conclude<S: Speaker, R: Wait, L: Ledger>(
    rt: &R,
    board: &mut Board<S>,
    steps: &mut Steps<L>,
) -> Result<bool, NoMemory>
    ensures opening { board.new.opening ≡ board.old.opening }
    ensures stays_spent { board.old.spent ≡ true → board.new.spent ≡ true }
    ensures adds { Adds (λ entry. entry.pass) 0 board.old.history board.new.history }
    ensures history { WindsUp S.Machine.rules S.speech board.old.history board.new.history }
    ensures waits { IfOk result (λ told. told ≡ false → GoesOn S.Machine.rules S.speech board.old.history board.new.history) }
    ensures untold { IfOk result (λ told. told ≡ false → IsUntold S.Machine.rules S.speech (state_of S.Machine.rules board.new)) }
    ensures drained { IfOk result (λ told. told ≡ true → S.speech.drained (state_of S.Machine.rules board.new) ≡ true) }
    ensures closed { IfOk result (λ told. told ≡ true → S.speech.closed (state_of S.Machine.rules board.new) ≡ true) }
    ensures legal { IsLegal S.Machine.rules board.new.opening board.new.history }
    ensures steps_least { RisesBy steps.old steps.new (least_of S.Machine.rules board.old.opening board.old.history) (least_of S.Machine.rules board.old.opening board.new.history) }
    ensures steps_most { OnOk result (RisesWithin steps.old steps.new (most_of S.Machine.rules board.old.opening board.old.history) (most_of S.Machine.rules board.old.opening board.new.history)) }
{
    if board.is_spent() {
        return Err(NoMemory);
    }
    prepare(rt, board, Work::Draining, steps)?;
    if !board.machine().is_drained() {
        return Ok(false);
    }
    close(board, steps)?;
    Ok(true)
}

/// Ends the work on the board at once: unless the board is spent, it is closed then.
pub(crate) fn break_off<S: Speaker, L: Ledger>(board: &mut Board<S>, steps: &mut Steps<L>)
    ensures opening { board.new.opening ≡ board.old.opening }
    ensures stays_spent { board.old.spent ≡ true → board.new.spent ≡ true }
    ensures adds { Adds (λ entry. entry.pass) 0 board.old.history board.new.history }
    ensures history { WindsUp S.Machine.rules S.speech board.old.history board.new.history }
    ensures closed { board.new.spent ≡ false → S.speech.closed (state_of S.Machine.rules board.new) ≡ true }
    ensures legal { IsLegal S.Machine.rules board.new.opening board.new.history }
    ensures steps_least { RisesBy steps.old steps.new (least_of S.Machine.rules board.old.opening board.old.history) (least_of S.Machine.rules board.old.opening board.new.history) }
{
    let Ok(()) = close(board, steps) else {
        return;
    };
}
