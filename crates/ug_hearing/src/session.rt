use crate::course::Course;
use ug_types::Mark;

/// A session to be judged: what it has to follow, its marks of `sync` in the order of their messages, and whether it was
/// lost. One that is still open is to end with the table of the last version.
#[derive(Drop)]
pub struct Session {
    pub course: Course,
    pub syncs: Vec<Mark>,
    pub lost: bool,
    pub is_open: bool,
    pub last: u64,
}
