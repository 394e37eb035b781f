//! A law over the definitions, on a function that does nothing.

ghost use Rattle.std.specs.Prelude.{ℕ, List, map};
ghost use Rattle.ug_hearing.specs.Courses.{IsCourse};
ghost use Rattle.ug_hearing.specs.Logs.{IsLog};
ghost use Rattle.ug_world.specs.World.{World};
ghost use Rattle.ug_world.specs.Private.{private_table};
ghost use Rattle.ug_world.specs.Worlds.{past};
ghost use Rattle.ug_audit_rules.specs.Timelines.{IsSpan};

/// A session that was between two versions follows the tables of these, of all that a log tells.
pub fn spans_are_courses()
    ensures { (entries : List (_)) (p : ℕ) (n : ℕ) (ws : List World) (from : ℕ) (to : ℕ) → IsLog entries (map (private_table p) ws) → IsSpan p n ws from to →
        IsCourse entries from to (past p n ws) (map (private_table p) ws) }
{}
