//! Laws over the definitions, on a function that does nothing.

ghost use Rattle.std.specs.Prelude.{◌≡◌, ℕ, List, Bool, Option, false, ◌∷◌, []};
ghost use Rattle.std.specs.List.{list_any};
ghost use Rattle.ug_types.specs.declared.key.Key as keys;
ghost use Rattle.ug_types.specs.declared.mark.Mark as marks;
ghost use Rattle.ug_types.specs.Messages.{Message};
ghost use Rattle.ug_message.specs.Tables.{Table, no_routes, tables_after};
ghost use Rattle.ug_message.specs.Climbing.{ClimbsTo, values_at};
ghost use Rattle.ug_hearing.specs.Shifts.{shifts_from};
ghost use Rattle.ug_hearing.specs.declared.breach.Ending as endings;
ghost use Rattle.ug_hearing.specs.declared.breach.Breach as breaches;
ghost use Rattle.ug_hearing.specs.Breaches.{IsFirstBreach};
ghost use Rattle.ug_hearing.specs.Certificates.{KeyClimb, IsClimbOf, names};

/// A session has one first breach, and each key of it one climb.
pub fn answers_are_one()
    ensures breach { (past : List Table) (table_at : ℕ → Option Table) (syncs : List marks.Mark) (lost : Bool) (last : Option Table) (messages : List Message) (ending : endings.Ending) (one : breaches.Breach) (other : breaches.Breach) →
        IsFirstBreach past table_at syncs lost last messages ending one → IsFirstBreach past table_at syncs lost last messages ending other → one ≡ other }
    ensures climb { (past : List Table) (tables : List Table) (one : KeyClimb) (other : KeyClimb) →
        IsClimbOf past tables one → IsClimbOf past tables other → one.key ≡ other.key → one.shifts ≡ other.shifts }
{}

/// A key that no message of a session names climbs any past that begins with no routes, and never moves.
pub fn unnamed_keys_stay()
    ensures stays { (key : keys.Key) (tables : List Table) (messages : List Message) → list_any (names key) messages ≡ false →
        (places : List ℕ) × ClimbsTo (values_at key (no_routes ∷ tables)) 0 places (values_at key (tables_after messages)) × (shifts_from 0 1 places ≡ []) }
{}
