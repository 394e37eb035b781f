//! One turn between threads, and the state that goes with it.

ghost use Rattle.std.specs.Prelude.{◌≡◌, ℕ, ◌<◌, ◌≤◌, ◌++◌, true, false, List, [], Some, IsSome, All, Any, IfSome, IfNone, IfOk, IfErr, map};
ghost use Rattle.std.specs.List.{range_with_len};
ghost use Rattle.ug_turnstile.specs.Passes.{mine, fresh_pass, Adds, IsSamePass, Agrees, IsToldBy, Takes};
ghost use Rattle.ug_turnstile.specs.Rule.{view, opened, pass_of};

use crate::bell::Bell;
use crate::logged::Logged;
use crate::pass::{Pass, PassList, PassOf};
use crate::plays::{Arrive, Claim, Deal, Gather, OneTurn, Opening, Release};
use crate::turn::Turn;
use crate::view::View;
use atomic_table::{Refused, Seat, Shared, Table};
use crossbeam_utils::Backoff;
use std::alloc::Global;
use std::marker::Model;
use std::snapshot::Snapshot;
use std::sync::Wait;
use ug_types::Sequence;

type Place<S> = Seat<Option<S>, View<<S as Logged>::Entry, <S as Logged>::Root>>;

type Board<S> = Table<
    Option<S>,
    View<<S as Logged>::Entry, <S as Logged>::Root>,
    Opening<S>,
    OneTurn<S>,
    Global,
>;

/// A state that threads take turns with, and a bell for those that wait for others to have had theirs. Contracts see which
/// turnstile it is, and how many passes it has.
#[derive(Drop)]
pub struct Turnstile<S: Logged> {
    table: Board<S>,
    back: Bell,
}

impl<S: Logged> Model for Turnstile<S> {
    ghost use Rattle.std.specs.Prelude.{◌≡◌};
    ghost use Rattle.ug_turnstile.specs.Passes.{Gate};

    ghost Value = { Gate };

    ghost view = { λ t. record { id = t.table.shared.table_id; count = t.table.shared.key.count } };

    ghost invariant = { λ t. (t.table.shared.table_id.words ≡ 1) × (t.table.shared.table_id.slots ≡ 1) };
}

impl<S: Logged> Turnstile<S> {
    /// A turnstile round the state, and its passes, numbered from 0. Running out of memory hands the state back.
    pub fn new(alloc: Global, state: S, n: u32) -> Result<(Turnstile<S>, PassList<S>), S>
        requires some { 1 ≤ n }
        requires fresh { S.entries state ≡ [] }
        ensures count { IfOk result (λ made. made.0.count ≡ n) }
        ensures passes { IfOk result (λ made. made.1.items ≡ map (fresh_pass made.0.id (S.root state)) (range_with_len 0 n)) }
        ensures returned { IfErr result (λ back. back ≡ state) }
    {
        let mut passes = Sequence::new(alloc);
        if passes.reserve(n as usize).is_err() {
            return Err(state);
        }
        let (table, base) = lay(alloc, state, n)?;
        let passes = deal(&table.shared, base, n, passes);
        let turnstile = Turnstile {
            table,
            back: Bell::new(),
        };
        Ok((turnstile, passes))
    }

    /// Waits for the turn, and takes it. The state has the pass's root, and its entries, which are now all that the pass
    /// has seen, begin with those that it had seen; of its own there are just those that it knew. A state that it saw spent
    /// is so still.
    pub fn take<R: Wait>(&self, rt: &R, pass: &mut Pass<S>) -> Turn<S>
        requires here { pass.old.turnstile ≡ self.now.id }
        requires free { pass.old.holds ≡ false }
        ensures same { IsSamePass pass.old pass.new }
        ensures holds { pass.new.holds ≡ true }
        ensures seen { pass.new.seen ≡ S.entries result }
        ensures agrees { Agrees S.owner (S.root result) (S.entries result) pass.old }
        ensures spent { pass.new.spent ≡ S.spent result }
        ensures stays_spent { pass.old.spent ≡ true → S.spent result ≡ true }
        ensures mine { mine S.owner pass.new ≡ mine S.owner pass.old }
    {
        let backoff = Backoff::new();
        for _ in rt.forever() {
            if let Some(turn) = self.claim(pass) {
                return turn;
            }
            backoff.snooze();
        }
        unreachable!()
    }

    /// Gives the turn away. The pass has then seen every entry, and those that were added in the turn are its own.
    pub fn give(&self, pass: &mut Pass<S>, turn: Turn<S>)
        requires here { pass.old.turnstile ≡ self.now.id }
        requires holds { pass.old.holds ≡ true }
        requires root { pass.old.root ≡ Some (S.root turn) }
        requires adds { Adds S.owner pass.old.number pass.old.seen (S.entries turn) }
        requires stays_spent { pass.old.spent ≡ true → S.spent turn ≡ true }
        ensures same { IsSamePass pass.old pass.new }
        ensures free { pass.new.holds ≡ false }
        ensures seen { pass.new.seen ≡ S.entries turn }
        ensures spent { pass.new.spent ≡ S.spent turn }
        ensures mine { (added : _) → S.entries turn ≡ pass.old.seen ++ added → mine S.owner pass.new ≡ mine S.owner pass.old ++ added }
    {
        let Turn { state } = turn;
        self.put_home(pass, state);
    }

    /// The bell that is rung where those that wait for work have done what there was.
    pub fn back(&self) -> &Bell {
        &self.back
    }

    /// Pauses for a moment, in which other threads may have the processor. It says nothing of how long.
    pub fn nap<R: Wait>(&self, rt: &R) {
        let backoff = Backoff::new();
        for _ in rt.forever() {
            if backoff.is_completed() {
                break;
            }
            backoff.snooze();
        }
    }

    /// The state, once every pass is back. It is as each pass says, and each entry is of one of these passes: no other entries
    /// are told so.
    pub fn close(self, passes: PassList<S>) -> S
        requires here { All (λ p. p.turnstile ≡ self.id) passes.items }
        requires free { All (λ p. p.holds ≡ false) passes.items }
        requires whole { (number : ℕ) → number < self.count → Any (λ p. p.number ≡ number) passes.items }
        ensures agrees { All (Agrees S.owner (S.root result) (S.entries result)) passes.items }
        ensures spent { All (λ p. p.spent ≡ true → S.spent result ≡ true) passes.items }
        ensures owned { All (λ e. Any (λ p. p.number ≡ S.owner e) passes.items) (S.entries result) }
        ensures only { (other : List S.Entry) → IsToldBy S.owner (S.root result) other passes.items → other ≡ S.entries result }
    {
        let Turnstile { table, .. } = self;
        let base = gather(&table.shared, passes);
        let mut closed = table.close_with(base);
        let home = closed.take(0);
        closed.free();
        unwrap(home)
    }
}

impl<S: Logged> Turnstile<S> {
    // One try to take the turn.
    fn claim(&self, pass: &mut Pass<S>) -> Option<Turn<S>>
        requires here { pass.old.turnstile ≡ self.now.id }
        requires free { pass.old.holds ≡ false }
        ensures some { IfSome result (λ turn. Takes S.owner (S.root turn) (S.entries turn) (S.spent turn) pass.old pass.new) }
        ensures none { IfNone result (pass.new ≡ pass.old) }
    {
        let word = pass.number as u64 + 1;
        let found = self
            .table
            .shared
            .compare_exchange::<Claim<S>>(&mut pass.seat, 0, 0, word);
        if found != 0 {
            return None;
        }
        let state = unwrap(self.table.shared.exchange(&mut pass.seat, 0, None));
        Some(Turn { state })
    }

    // The state goes into its slot, and then the turn is free.
    fn put_home(&self, pass: &mut Pass<S>, state: S)
        requires here { pass.old.turnstile ≡ self.now.id }
        requires holds { pass.old.holds ≡ true }
        requires root { pass.old.root ≡ Some (S.root state) }
        requires adds { Adds S.owner pass.old.number pass.old.seen (S.entries state) }
        requires stays_spent { pass.old.spent ≡ true → S.spent state ≡ true }
        ensures same { IsSamePass pass.old pass.new }
        ensures free { pass.new.holds ≡ false }
        ensures seen { pass.new.seen ≡ S.entries state }
        ensures spent { pass.new.spent ≡ S.spent state }
    {
        let emptied = self.table.shared.exchange(&mut pass.seat, 0, Some(state));
        let None = emptied else { unreachable!() };
        self.table.shared.store::<Release<S>>(&mut pass.seat, 0, 0);
    }
}

// The table, with the state in its slot, and the seat that knows of every pass.
fn lay<S: Logged>(alloc: Global, state: S, n: u32) -> Result<(Board<S>, Place<S>), S>
    requires { S.entries state ≡ [] }
    ensures table { IfOk result (λ made. (made.0.shared.table_id.words ≡ 1) × (made.0.shared.table_id.slots ≡ 1)) }
    ensures key { IfOk result (λ made. (made.0.shared.key.state.value ≡ state) × (made.0.shared.key.count ≡ n)) }
    ensures seat { IfOk result (λ made. (made.1.table_id ≡ made.0.shared.table_id) × (made.1.me ≡ (opened (S.root state) n, []))) }
    ensures returned { IfErr result (λ back. back ≡ state) }
{
    let opening = Opening {
        state: Snapshot::of(&state),
        count: n,
    };
    let mut slots = Vec::new(alloc);
    if let Err(refused) = slots.push(Some(state)) {
        slots.destroy_empty();
        return Err(unwrap(refused.value));
    }
    match Table::new(alloc, &[0], slots, &opening) {
        Ok(made) => Ok(made),
        Err(Refused { mut slots }) => {
            let state = slots.remove(0);
            slots.destroy_empty();
            Err(unwrap(state))
        }
    }
}

// The state that is there.
fn unwrap<S>(slot: Option<S>) -> S
    requires { IsSome slot }
    ensures { slot ≡ Some result }
{
    let Some(state) = slot else { unreachable!() };
    state
}

// The passes, each with a seat of its own. There is room for them.
fn deal<S: Logged>(
    shared: &Shared<Option<S>, View<S::Entry, S::Root>, Opening<S>, OneTurn<S>>,
    mut base: Place<S>,
    n: u32,
    mut passes: PassList<S>,
) -> PassList<S>
    requires words { 0 < shared.now.table_id.words }
    requires seat { (base.table_id ≡ shared.now.table_id) × (base.me ≡ (opened (S.root shared.now.key.state.value) n, [])) }
    requires room { (passes.items ≡ []) × (n ≤ passes.spare) }
    ensures { result.items ≡ map (fresh_pass shared.now.table_id (S.root shared.now.key.state.value)) (range_with_len 0 n) }
{
    for number in 0..n {
        let seat = shared.split_seat::<Deal>(&mut base);
        let Ok(()) = passes.push(PassOf { number, seat }) else {
            unreachable!()
        };
    }
    passes
}

// One seat with the parts of all passes.
fn gather<S: Logged>(
    shared: &Shared<Option<S>, View<S::Entry, S::Root>, Opening<S>, OneTurn<S>>,
    mut passes: PassList<S>,
) -> Place<S>
    requires words { 0 < shared.now.table_id.words }
    requires here { All (λ p. p.turnstile ≡ shared.now.table_id) passes.items }
    requires free { All (λ p. p.holds ≡ false) passes.items }
    ensures seat { (result.table_id ≡ shared.now.table_id) × (result.me ≡ (view false result.me.0.parts, [])) }
    ensures parts { map (pass_of shared.now.table_id) result.me.0.parts ≡ passes.items }
{
    let (_, mut base) = shared.load_new_seat::<Arrive>(0);
    while let Some(pass) = passes.pop() {
        let PassOf { number: _, seat } = pass;
        shared.join_seat::<Gather>(&mut base, seat);
    }
    base
}
