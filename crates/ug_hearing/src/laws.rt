//! Laws over the definitions, on a function that does nothing.

ghost use Rattle.std.specs.Prelude.{◌≡◌, ◌++◌, ◌∷◌, [], List, None, length};
ghost use Rattle.ug_types.specs.declared.key.Key as keys;
ghost use Rattle.ug_message.specs.Tables.{Table};
ghost use Rattle.ug_message.specs.Climbing.{values_at};
ghost use Rattle.ug_hearing.specs.Pasts.{value_before, IsToldBy};
ghost use Rattle.ug_hearing.specs.Courses.{changes_of};
ghost use Rattle.ug_hearing.specs.Logs.{AddsChange};

/// How the changes of a key go on to tell one table more. `noted`: what the key has in it was noted for its version, which
/// is the number of the tables before. `kept`: it has what it had last, and nothing was noted.
pub fn log_goes_on()
    ensures noted { (entries : List (_)) (after : List (_)) (tables : List Table) (table : Table) (key : keys.Key) →
        IsToldBy (values_at key tables) 0 None (changes_of entries key) →
        AddsChange (length tables) (table key) (changes_of entries key) (changes_of after key) →
        IsToldBy (values_at key (tables ++ table ∷ [])) 0 None (changes_of after key) }
    ensures kept { (entries : List (_)) (tables : List Table) (table : Table) (key : keys.Key) →
        IsToldBy (values_at key tables) 0 None (changes_of entries key) →
        value_before (length (changes_of entries key)) (changes_of entries key) ≡ table key →
        IsToldBy (values_at key (tables ++ table ∷ [])) 0 None (changes_of entries key) }
{}
