//! Laws over the definitions, on a function that does nothing.

ghost use Rattle.std.specs.Prelude.{ℕ, ◌≤◌};
ghost use Rattle.ug_speaker.specs.Owes.{IsOpening, AreEvents};
ghost use Rattle.ug_selfrun.specs.Configuration.{workload_world};
ghost use Rattle.ug_selfrun.specs.Workload.{workload};

/// A run may begin in the world of a workload (`opens`), and each of its events keeps its rules (`events`), of whatever seed.
pub fn workload_laws()
    ensures opens { (peers : ℕ) → peers ≤ 16 → IsOpening (workload_world peers) }
    ensures events { (seed peers events : ℕ) → AreEvents (workload seed peers events) }
{}
