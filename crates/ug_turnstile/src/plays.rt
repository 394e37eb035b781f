//! The rule of the table, and what each step on it tells.

ghost use Rattle.std.specs.Prelude.{◌≡◌, ◌++◌, false, []};
ghost use Rattle.ug_turnstile.specs.Rule.{Kept, opened, claimed, released, view, first_part, later_parts};

use crate::logged::Logged;
use crate::view::View;
use atomic_table::{Join, Play, Split, TableRule};
use std::marker::PhantomData;
use std::snapshot::Snapshot;

/// What the table is told when it is made: the first state, and how many passes there are.
#[derive(Drop)]
pub struct Opening<S> {
    pub(crate) state: Snapshot<S>,
    pub(crate) count: u32,
}

/// The rule: one turn, and one history.
pub struct OneTurn<S> {
    of: PhantomData<S>,
}

impl<S: Logged> TableRule<Option<S>, View<S::Entry, S::Root>, Opening<S>> for OneTurn<S> {
    ghost holds = { λ key. Kept S.owner S.root S.entries S.spent (S.root key.state.value) key.count };

    ghost first = { λ key. opened (S.root key.state.value) key.count };
}

/// The claim of the turn.
pub(crate) struct Claim<S> {
    of: PhantomData<S>,
}

impl<S: Logged> Play<Option<S>, View<S::Entry, S::Root>> for Claim<S> {
    ghost then = { claimed S.owner S.root S.entries S.spent };
}

/// The release of the turn.
pub(crate) struct Release<S> {
    of: PhantomData<S>,
}

impl<S: Logged> Play<Option<S>, View<S::Entry, S::Root>> for Release<S> {
    ghost then = { released S.owner S.root S.entries S.spent };
}

/// A new seat, which knows nothing.
pub(crate) struct Arrive;

impl<S, E, R> Play<Option<S>, View<E, R>> for Arrive {
    ghost then = { λ step me found after. after ≡ (view false [], []) };
}

/// The first part of a seat goes to a new one.
pub(crate) struct Deal;

impl<E, R> Split<View<E, R>> for Deal {
    ghost left = { λ v. view v.holds (later_parts v.parts) };

    ghost right = { λ v. view false (first_part v.parts) };
}

/// A seat takes in the parts of another.
pub(crate) struct Gather;

impl<E, R> Join<View<E, R>> for Gather {
    ghost both = { λ v w. view v.holds (w.parts ++ v.parts) };

    ghost spent = { view false [] };
}
