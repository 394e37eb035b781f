//! What a session has to follow.

ghost use Rattle.std.specs.Prelude.{◌≡◌, ◌≤◌, true, length, is_some};
ghost use Rattle.std.specs.Map.{keys_of};
ghost use Rattle.ug_hearing.specs.Keyed.{value_for, IsPlaceOf};
ghost use Rattle.ug_hearing.specs.Courses.{changes_of, passed, start_of};

use crate::change::{Change, Standing};
use crate::key_lists::KeyLists;
use ug_types::Key;

/// What a peer's private table was, version by version: for each key that ever had a route the changes of its value, whose
/// places are versions. A session follows it from one version, where there is no route, up to another.
#[derive(Drop)]
pub struct Course {
    pub changes: KeyLists<Change>,
    pub from: u32,
    pub to: u32,
}

impl Course {
    /// The place of a key among those that have changes; of another it is the one that was said to be near.
    pub fn near(&self, near: usize, key: &Key) -> usize
        ensures { is_some (value_for self.now.changes key.now) ≡ true → IsPlaceOf key.now (keys_of self.now.changes) result }
    {
        match self.changes.place(near, key) {
            Some(place) => place,
            None => near,
        }
    }

    /// The changes of a key, which is looked for near a place.
    pub fn changes_of(&self, near: usize, key: &Key) -> &[Change]
        ensures { result.now ≡ changes_of self.now.changes key.now }
    {
        self.changes.of(near, key)
    }
}

/// How many changes there are up to a version.
#[tactic(auto, unfolding(crate::specs::Courses::passed))]
pub fn passed(changes: &[Change], version: u64) -> usize
    ensures passed { result ≡ passed version changes.now }
    ensures within { result ≤ length changes.now }
{
    for i in 0..changes.len() {
        if changes[i].place as u64 > version {
            return i;
        }
    }
    changes.len()
}

/// Where a session's climb begins.
pub fn start(changes: &[Change], from: u32) -> Standing
    ensures { result ≡ start_of from changes.now }
{
    Standing {
        place: from,
        next: passed(changes, from as u64),
    }
}
