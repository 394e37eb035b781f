//! Laws over the definitions, on a function that does nothing.

ghost use Rattle.std.specs.Prelude.{List};
ghost use Rattle.ug_events.specs.Events.{Happening};
ghost use Rattle.ug_world.specs.World.{World};
ghost use Rattle.ug_speaker.specs.Told.{worlds_through};
ghost use Rattle.ug_speaker.specs.Right.{AreTellable, FitAlone};
ghost use Rattle.ug_speaker.specs.Owes.{IsOpening, AreEvents};

/// What is so of each route of a peer in the worlds that events lead through. `spelled`: a message of the peer's session
/// can spell it. `fit`: it can be announced, and withdrawn, in a message of its own, since what goes out is short.
pub fn routes_fit()
    ensures spelled { (opening : World) (events : List Happening) → IsOpening opening → AreEvents events → AreTellable (worlds_through opening events) }
    ensures fit { (opening : World) (events : List Happening) → IsOpening opening → AreEvents events → FitAlone (worlds_through opening events) }
{}
