//! Laws over the definitions, on functions that do nothing.

ghost use Rattle.std.specs.Prelude.{◌≡◌, ℕ, List, Ok};
ghost use Rattle.ug_events.specs.Events.{Happening, Says, IsEvent};
ghost use Rattle.ug_events.specs.Grammar.{line_of, routes_line_of};
ghost use Rattle.ug_world.specs.World.{World};
ghost use Rattle.ug_speaker.specs.Owes.{IsOpening};
ghost use Rattle.ug_config.specs.Worlds.{config};
ghost use Rattle.ug_config.specs.One.{one_world};

/// What lines say, of any bytes: each event keeps its rules, so that messages can tell it. `lines`: with every verb.
/// `routes`: with the verbs of a speaker's routes alone.
pub fn lines_are_sound()
    ensures lines { (bytes : List ℕ) (e : Happening) → line_of bytes ≡ Ok (Says e) → IsEvent e }
    ensures routes { (bytes : List ℕ) (e : Happening) → routes_line_of bytes ≡ Ok (Says e) → IsEvent e }
{}

/// A run may begin in each world that a configuration stands for.
pub fn configurations_open()
    ensures { (bytes : List ℕ) (w : World) → config bytes ≡ Ok w → IsOpening w }
{}

/// A run may begin in the world of the command `one`.
pub fn one_opens()
    ensures { IsOpening one_world }
{}
