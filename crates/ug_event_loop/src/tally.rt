//! How many lines were taken.

ghost use Rattle.std.specs.Prelude.{◌≡◌, ◌+◌, IfSome};
ghost use Rattle.ug_event_loop.specs.Turns.{is_taken, is_refused};

use crate::came::Came;

/// How many lines were taken, and how many of them were accepted and refused.
#[derive(Clone, Copy, PartialEq, Eq)]
pub struct Tally {
    pub lines: u64,
    pub accepted: u64,
    pub refused: u64,
}

impl Tally {
    /// With one line more, which came to this; none where a count is at the end of its type.
    pub(crate) fn with<T>(self, came: &Came<T>) -> Option<Tally>
        ensures lines { IfSome result (λ tally. tally.lines ≡ self.lines + 1) }
        ensures accepted { IfSome result (λ tally. tally.accepted ≡ self.accepted + is_taken came.now) }
        ensures refused { IfSome result (λ tally. tally.refused ≡ self.refused + is_refused came.now) }
    {
        let lines = self.lines.checked_add(1)?;
        match came {
            Came::Passed | Came::Synced(_) => Some(Tally { lines, ..self }),
            Came::Took(_) => {
                let accepted = self.accepted.checked_add(1)?;
                Some(Tally {
                    lines,
                    accepted,
                    ..self
                })
            }
            Came::Refused { .. } => {
                let refused = self.refused.checked_add(1)?;
                Some(Tally {
                    lines,
                    refused,
                    ..self
                })
            }
        }
    }
}
