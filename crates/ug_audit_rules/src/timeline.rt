//! What a peer should have, version by version.

ghost use Rattle.std.specs.Prelude.{◌≡◌, IfOk};

use crate::progress::Progress;
use std::alloc::Global;
use ug_hearing::{Change, KeyLists};
use ug_types::NoMemory;

/// The changes of what a peer should have, key by key, whose places are versions; and for each of its sessions the version
/// before it, and for each that is over the first version behind it.
#[derive(Drop)]
pub struct Timeline {
    pub changes: KeyLists<Change>,
    pub begun: Vec<u32>,
    pub ended: Vec<u32>,
}

impl Timeline {
    /// What is known of a peer behind all events.
    pub(crate) fn of(alloc: Global, progress: Progress) -> Result<Timeline, NoMemory>
        ensures changes { IfOk result (λ timeline. timeline.changes ≡ progress.log.changes) }
        ensures begun { IfOk result (λ timeline. timeline.begun ≡ progress.begun) }
        ensures ended { IfOk result (λ timeline. timeline.ended ≡ progress.ended) }
    {
        let Progress { log, begun, ended } = progress;
        let changes = KeyLists::of_map(alloc, log.changes)?;
        Ok(Timeline {
            changes,
            begun,
            ended,
        })
    }
}
