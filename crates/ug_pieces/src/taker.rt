//! What takes bytes piece by piece.

ghost use Rattle.std.specs.Prelude.{ℕ, ◌+◌, ◌<◌, ◌≤◌, List, [], ◌++◌, length, OnOk, IfErr};

/// What takes the bytes of a source, piece by piece, however they are cut. `C` is what it works on beside itself, as a
/// report.
pub trait Taker<C> {
    type Stop;

    /// On the way from one state to the other just these bytes were taken.
    ghost has_taken: { Self → C → Self → C → List ℕ → Type 0 };

    /// Behind the first state these bytes came, and that is why not all of them were taken.
    ghost has_stopped: { Self → C → Self → C → List ℕ → Self.Stop → Type 0 };

    /// Of how many bytes it can't take all from here on. It can take any fewer.
    ghost bound: { Self → ℕ };

    /// Takes the next piece.
    fn take(&mut self, piece: &[u8], context: &mut C) -> Result<(), Self::Stop>
        requires { length piece.now < bound self.old }
        ensures taken { OnOk result (has_taken self.old context.old self.new context.new piece.now) }
        ensures stopped { IfErr result (λ stop. has_stopped self.old context.old self.new context.new piece.now stop) }
        ensures bound { OnOk result (bound self.old ≤ bound self.new + length piece.now) };

    ghost takes_none: { (t : Self) (c : C) → has_taken t c t c [] };

    ghost takes_more: { (t u v : Self) (c d e : C) (front more : List ℕ) → has_taken t c u d front → has_taken u d v e more → has_taken t c v e (front ++ more) };

    ghost stops_later: { (t u v : Self) (c d e : C) (front more : List ℕ) (stop : Self.Stop) → has_taken t c u d front → has_stopped u d v e more stop → has_stopped t c v e (front ++ more) stop };
}
