use ug_types::{Mark, PeerId};

/// What a line of a report tells an auditor: nothing that it heeds, a mark of `sync`, or a session that was lost; or the
/// line begins like one of these two and isn't one.
#[derive(Clone, Copy, PartialEq, Eq)]
pub enum Entry {
    Passes,
    Sync(Mark),
    Lost { peer: PeerId, session: u32 },
    Unclear,
}
