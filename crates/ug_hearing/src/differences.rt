//! Where what a receiver has differs from a whole table.

ghost use Rattle.std.specs.Prelude.{◌≡◌, ◌≢◌, ◌↔◌, true, IfSome, IfNone, IsTrue};
ghost use Rattle.std.specs.declared.cmp.Ordering.TheVariants.{Greater};
ghost use Rattle.ug_types.specs.declared.key.Key as routes;
ghost use Rattle.ug_types.specs.Orders.{key_cmp};
ghost use Rattle.ug_message.specs.Tables.{among};
ghost use Rattle.std.specs.Map.{keys_of};
ghost use Rattle.ug_hearing.specs.Keyed.{IsPlaceOf};
ghost use Rattle.ug_hearing.specs.Courses.{changes_of};
ghost use Rattle.ug_hearing.specs.Differences.{Differs, IsSame};

use crate::change::Change;
use crate::climbing::{is_same, value_at};
use crate::course::{Course, passed};
use crate::standings::Standings;
use ug_types::Key;

/// The least key that has another value, by its row, than the table of a version.
pub fn first_difference(standings: &Standings, course: &Course, version: u64) -> Option<Key>
    ensures differs { IfSome result (Differs standings.now.rows course.now.changes course.now.from version) }
    ensures first { IfSome result (λ k. (q : routes.Key) → Differs standings.now.rows course.now.changes course.now.from version q → key_cmp k q ≢ Greater) }
    ensures none { IfNone result ((q : routes.Key) → IsSame standings.now.rows course.now.changes course.now.from version q) }
{
    for place in 0..course.changes.len() {
        let (key, changes) = course.changes.at(place);
        if !is_as_by(standings, course, version, place, key, changes) {
            return Some(*key);
        }
    }
    None
}

/// Whether a key, which is looked for near a place, has by its row what it has in the table of a version.
pub fn is_as_in(
    standings: &Standings,
    course: &Course,
    version: u64,
    near: usize,
    key: &Key,
) -> bool
    ensures { IsTrue result ↔ IsSame standings.now.rows course.now.changes course.now.from version key.now }
{
    let changes = course.changes_of(near, key);
    is_as_by(standings, course, version, near, key, changes)
}

/// The same of the key at a place of the course; where none stands there, nothing differs.
pub fn is_as_at(standings: &Standings, course: &Course, version: u64, place: usize) -> bool
    ensures { IsTrue result → (q : routes.Key) → IsPlaceOf q (keys_of course.now.changes) place → IsSame standings.now.rows course.now.changes course.now.from version q }
{
    if place >= course.changes.len() {
        return true;
    }
    let (key, changes) = course.changes.at(place);
    is_as_by(standings, course, version, place, key, changes)
}

/// The same of a key whose changes these are. Where as many of them are passed by its row as by the version, no values are
/// compared.
fn is_as_by(
    standings: &Standings,
    course: &Course,
    version: u64,
    near: usize,
    key: &Key,
    changes: &[Change],
) -> bool
    requires { changes.now ≡ changes_of course.now.changes key.now }
    ensures { IsTrue result ↔ IsSame standings.now.rows course.now.changes course.now.from version key.now }
{
    let row = standings.row(course, near, changes, key);
    let next = passed(changes, version);
    if row.standing.next == next {
        return true;
    }
    is_same(
        value_at(changes, row.standing.next),
        value_at(changes, next),
    )
}

/// Whether these keys all have that.
pub fn are_as_in(standings: &Standings, course: &Course, version: u64, keys: &[Key]) -> bool
    ensures { IsTrue result → (q : routes.Key) → among keys.now q ≡ true → IsSame standings.now.rows course.now.changes course.now.from version q }
{
    let mut near = 0;
    for key in keys {
        near = course.near(near, key);
        if !is_as_in(standings, course, version, near, key) {
            return false;
        }
    }
    true
}
