//! The right to take turns.

ghost use Rattle.std.specs.Prelude.{◌≡◌};

use crate::logged::Logged;
use crate::view::View;
use atomic_table::Seat;
use std::marker::Model;
use ug_types::Sequence;

/// The right to take turns under a number. Contracts see the turnstile that it was made with, the number, whether it
/// holds the turn, the root of the state, `seen`, the entries that it has seen, and whether the state that it saw last was
/// spent; its own among the entries are `mine`.
#[derive(Drop)]
pub struct PassOf<S, E, R> {
    pub(crate) number: u32,
    pub(crate) seat: Seat<Option<S>, View<E, R>>,
}

pub type Pass<S> = PassOf<S, <S as Logged>::Entry, <S as Logged>::Root>;

pub type PassList<S> = Sequence<Pass<S>>;

impl<S, E, R> Model for PassOf<S, E, R> {
    ghost use Rattle.ug_turnstile.specs.Passes.{Held};

    ghost Value = { Held E R };

    ghost use Rattle.ug_turnstile.specs.Inside.{held, IsOnePass};

    ghost view = { λ p. held p.number p.seat };

    ghost invariant = { λ p. IsOnePass p.number p.seat };
}

impl<S, E, R> PassOf<S, E, R> {
    /// The number of the pass. The entries of this number among those that it has seen are its own.
    pub fn number(&self) -> u32
        ensures { result ≡ self.now.number }
    {
        self.number
    }
}
