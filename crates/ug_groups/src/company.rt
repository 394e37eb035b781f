//! Whether two subgroups that are level are of one class: mostly one look at each tells.

ghost use Rattle.std.specs.Prelude.{◌≡◌, ◌+◌, ◌<◌, ◌≤◌, ◌%◌, true, false, length, slice_set};
ghost use Rattle.ug_groups.specs.Company.{is_marked, is_level_of, AreMarked, IsUnlike, AreUnlike};

use crate::entry::Entry;
use crate::states::is_level;

/// How many marks there are. Each class has one of them; classes that were made one after the other have different ones.
const MARKS: usize = 256;

/// Whether the mark of the class was set. It is set from now on.
fn mark(marks: &mut [bool], class: u64) -> bool
    requires { length marks.old ≡ 256 }
    ensures was { result ≡ is_marked marks.old class }
    ensures set { marks.new ≡ slice_set marks.old (class % 256) true }
{
    let place = (class % MARKS as u64) as usize;
    let was = marks[place];
    marks[place] = true;
    was
}

/// Whether it is level and of the class.
fn is_level_of(e: &Entry, class: u64) -> bool
    ensures { result ≡ is_level_of class e.now }
{
    is_level(e) && e.class == class
}

/// Whether one of the first so many is level and of the class.
fn has_level(entries: &[(u32, Entry)], to: usize, class: u64) -> bool
    requires { to ≤ length entries.now }
    ensures { result ≡ false → IsUnlike to entries.now class }
{
    for i in 0..to {
        if is_level_of(&entries[i].1, class) {
            return true;
        }
    }
    false
}

/// Whether this one is level, and one before it is so too and of its class. Those before it are looked at only where its mark
/// is set. It has its mark then.
fn has_alike(entries: &[(u32, Entry)], place: usize, marks: &mut [bool]) -> bool
    requires inside { place < length entries.now }
    requires size { length marks.old ≡ 256 }
    requires marked { AreMarked place entries.now marks.old }
    ensures size { length marks.new ≡ 256 }
    ensures marked { AreMarked (place + 1) entries.now marks.new }
    ensures unlike { result ≡ false → AreUnlike place entries.now → AreUnlike (place + 1) entries.now }
{
    let e = &entries[place].1;
    if !is_level(e) {
        return false;
    }
    let class = e.class;
    if !mark(marks, class) {
        return false;
    }
    has_level(entries, place, class)
}

/// Whether two of them are level and of one class.
pub fn some_alike(entries: &[(u32, Entry)]) -> bool
    ensures { result ≡ false → AreUnlike (length entries.now) entries.now }
{
    let mut marks = [false; MARKS];
    for i in 0..entries.len() {
        if has_alike(entries, i, &mut marks) {
            return true;
        }
    }
    false
}
