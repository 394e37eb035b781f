//! Laws over the definitions, on a function that does nothing.

ghost use Rattle.std.specs.Prelude.{◌≡◌, ◌≢◌, ◌≤◌, ◌+◌, ◌==◌, ◌++◌, ◌∷◌, [], ℕ, List, length, slice_get, Option, Some};
ghost use Rattle.ug_types.specs.Attributes.{Attributes};
ghost use Rattle.ug_message.specs.Climbing.{IsLeastPlace, ClimbsFrom, ClimbsTo};
ghost use Rattle.ug_hearing.specs.declared.change.Change as changes;
ghost use Rattle.ug_hearing.specs.Pasts.{Value, IsToldBy, IsToldUntil};
ghost use Rattle.ug_hearing.specs.Shifts.{shift_where, shifts_from, last_place};

/// How a climb goes on by one value more. `further`: to the least place from the last one on. `stuck`: where there is
/// none, these values climb no more. `shifts`: it moves, or stays.
pub fn climbing_goes_on()
    ensures further { (past : List (Option Attributes)) (places : List ℕ) (values : List (Option Attributes)) (value : Option Attributes) (place : ℕ) →
        ClimbsTo past 0 places values → IsLeastPlace past (last_place 0 places) value place → ClimbsTo past 0 (places ++ place ∷ []) (values ++ value ∷ []) }
    ensures stuck { (past : List (Option Attributes)) (places : List ℕ) (values : List (Option Attributes)) (value : Option Attributes) →
        ClimbsTo past 0 places values → ((n : ℕ) → last_place 0 places ≤ n → slice_get past n ≢ Some value) → ClimbsFrom past 0 (values ++ value ∷ []) → ⊥ }
    ensures shifts { (places : List ℕ) (place : ℕ) → shifts_from 0 1 (places ++ place ∷ [])
        ≡ shifts_from 0 1 places ++ shift_where (place == last_place 0 places) (1 + length places) place }
{}

/// Changes up to a place and those from there on tell a past together.
pub fn changes_are_glued()
    ensures glued { (past : List Value) (from : ℕ) (v : Value) (told : List changes.Change) (c : changes.Change) (more : List changes.Change) →
        IsToldUntil past from v told c.place → IsToldBy past c.place c.value more → IsToldBy past from v (told ++ c ∷ more) }
{}
