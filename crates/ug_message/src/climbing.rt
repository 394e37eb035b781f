//! Laws of how tables follow a past.

ghost use Rattle.std.specs.Prelude.{◌≡◌, ◌↔◌, ◌++◌, List, ℕ, Option};
ghost use Rattle.ug_types.specs.declared.key.Key.{Key};
ghost use Rattle.ug_types.specs.Attributes.{Attributes};
ghost use Rattle.ug_message.specs.Tables.{Table};
ghost use Rattle.ug_message.specs.Climbing.{values_at, ClimbsFrom, ClimbsTo, NeverBack, Follows};

/// Tables that follow a past, each value at some place, follow it by the least places, and the other way round. A
/// climb goes to certain places, which its values determine; what is added to the past later leaves them as they
/// are; and values that climb to the same places are the same.
pub fn climbing_laws()
    ensures alike { (past : List Table) (tables : List Table) → (Follows past tables) ↔ (NeverBack past tables) }
    ensures longer { (past : List Table) (more : List Table) (tables : List Table) →
        NeverBack past tables → NeverBack (past ++ more) tables }
    ensures places { (past : List (Option Attributes)) (values : List (Option Attributes)) →
        (ClimbsFrom past 0 values) ↔ ((places : List ℕ) × ClimbsTo past 0 places values) }
    ensures kept { (past : List (Option Attributes)) (more : List (Option Attributes)) (places : List ℕ) (values : List (Option Attributes)) →
        ClimbsTo past 0 places values → ClimbsTo (past ++ more) 0 places values }
    ensures determined { (past : List (Option Attributes)) (values : List (Option Attributes)) (one : List ℕ) (other : List ℕ) →
        ClimbsTo past 0 one values → ClimbsTo past 0 other values → one ≡ other }
    ensures same { (past : List (Option Attributes)) (places : List ℕ) (one : List (Option Attributes)) (other : List (Option Attributes)) →
        ClimbsTo past 0 places one → ClimbsTo past 0 places other → one ≡ other }
{}
