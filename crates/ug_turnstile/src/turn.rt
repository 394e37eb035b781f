//! The turn: the state, in the hands of the one thread that holds it.

ghost use Rattle.std.specs.Prelude.{◌≡◌};
ghost use Rattle.std.specs.Borrow.{sem, Lends};
ghost use Rattle.ug_turnstile.specs.contracts.turn.Turn.{the_row};

use std::marker::Model;

/// The state, which nobody else has until it is given back. Contracts see the state alone.
pub struct Turn<S> {
    pub(crate) state: S,
}

impl<S> Model for Turn<S> {
    ghost use Rattle.std.specs.Prelude.{◌≡◌};

    ghost Value = { S };

    ghost view = { λ t. t.state };
}

impl<S> Turn<S> {
    /// The state, to be changed.
    pub fn state(&mut self) -> &mut S
        ensures* writes_back { sem 𝓛 (Lends (the_row S.row) S.row self.entry result (λ state. state)) }
        ensures value { result.now ≡ self.old }
    {
        &mut self.state
    }

    /// The state, to be read.
    pub fn view(&self) -> &S
        ensures { result.now ≡ self.now }
    {
        &self.state
    }
}
