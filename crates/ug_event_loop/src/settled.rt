//! How many jobs no line asked for were done before an event.

ghost use Rattle.std.specs.Prelude.{◌≤◌, ◌↔◌, IsTrue};

/// How many jobs were done before the next event, and how many packets a queue holds at most.
#[derive(Clone, Copy, Drop)]
pub(crate) struct Settled {
    pub(crate) jobs: usize,
    pub(crate) room: u32,
}

impl Settled {
    /// Whether so many packets may have been formatted that a queue was full, and there are more to format.
    pub(crate) fn may_be_cut(self) -> bool
        ensures { IsTrue result ↔ (self.room ≤ self.jobs) }
    {
        self.jobs >= self.room as usize
    }
}
