use crate::dated::Dated;
use ug_types::Key;

/// What is known of all keys: where it isn't lost each has what it has in the table of a version, but for those that were
/// named since. Beside that the changes of all keys in the order of their versions, once they were asked for, and how many of
/// them are known to be of no later version.
#[derive(Drop)]
pub struct Watch {
    pub version: u64,
    pub named: Vec<Key>,
    pub is_lost: bool,
    pub is_dated: bool,
    pub dates: Vec<Dated>,
    pub passed: usize,
}
