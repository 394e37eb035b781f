//! What a state that passes between threads tells of its history.

ghost use Rattle.std.specs.Prelude.{◌≡◌, ℕ, Bool, List};

/// A state with a history. To contracts it has a root, which it began with, and the entries since then, in order, and it
/// may be spent, which it then stays.
pub trait Logged {
    /// One step of the history.
    type Entry;
    /// What the state began with. Contracts alone use it.
    type Root;

    ghost root: { Self → Self.Root };

    ghost entries: { Self → List Self.Entry };

    ghost spent: { Self → Bool };

    ghost owner: { Self.Entry → ℕ };

    /// The number of the pass that made the entry.
    fn owner(entry: &Self::Entry) -> u32
        ensures { result ≡ owner entry.now };
}
