//! Laws over the definitions, on a function that does nothing.

ghost use Rattle.std.specs.Prelude.{List, Bool, ℕ, length, ◌≡◌, true};
ghost use Rattle.ug_types.specs.declared.mark.Mark as marks;
ghost use Rattle.ug_events.specs.Events.{Saying};
ghost use Rattle.ug_events.specs.Reads.{Reads};
ghost use Rattle.ug_event_loop.specs.Contents.{WireTold, Content};
ghost use Rattle.ug_event_loop.specs.Kept.{IsKept};
ghost use Rattle.ug_event_loop.specs.Crew.{IsClosed, all_losses};

use ug_speaker::Speaker;

/// A run that a speaker did, whatever it keeps and however its lanes came in between, keeps what is promised. Where it
/// completed, the lost sessions are those whose losses are entries of its history.
pub fn promise_kept<M: Speaker>()
    ensures kept { (opening : M.Opening) (lines : List (Reads Saying)) (told : List (List marks.Mark)) (complete : Bool) (wires : List WireTold) (history : _) →
        IsClosed M.Machine.rules M.speech opening lines told complete wires history →
        (contents : List (List Content)) × (lost : List (List ℕ)) × IsKept (M.speech.first opening) lines told complete wires contents lost
        × (complete ≡ true → lost ≡ all_losses 0 (length wires) history) }
{}
