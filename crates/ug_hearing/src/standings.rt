//! How the keys stand.

ghost use Rattle.std.specs.Prelude.{◌≡◌, ◌<◌, ◌==◌, ◌&&◌, ℕ, List, [], IfOk, OnOk, IfSome, IfNone, option_copied};
ghost use Rattle.ug_hearing.specs.Pasts.{Value, StandsIn, Climbs};
ghost use Rattle.ug_hearing.specs.Rows.{row_for, IsNoted};
ghost use Rattle.ug_hearing.specs.Courses.{changes_of};
ghost use Rattle.ug_hearing.specs.Visits.{IsVisit, NeverBelow};
ghost use Rattle.ug_types.specs.declared.key.Key as routes;
ghost use Rattle.ug_message.specs.Tables.{among};
ghost use Rattle.ug_hearing.specs.Passes.{ArePassed};
ghost use Rattle.ug_hearing.specs.Heard.{is_stale_in};

use crate::change::{Change, Standing};
use crate::climbing::{climb, value_at};
use crate::course::{Course, start};
use crate::row::{Moved, Row};
use crate::rows::Rows;
use std::alloc::Global;
use ug_types::{Attrs, Key, NoMemory};

/// The rows of the keys that were named, their moves in order, and how many refreshes have begun. Beside that the place
/// behind the key that was named last, near which the next one is looked for; what is answered doesn't depend on it.
#[derive(Drop)]
pub struct Standings {
    pub rows: Rows,
    pub moves: Vec<Moved>,
    pub refreshes: u64,
    pub near: usize,
}

impl Standings {
    /// Before any key is named.
    pub fn new(alloc: Global, course: &Course) -> Result<Standings, NoMemory>
        ensures rows { IfOk result (λ st. st.rows ≡ []) }
        ensures moves { IfOk result (λ st. st.moves.items ≡ []) }
        ensures refreshes { IfOk result (λ st. st.refreshes ≡ 0) }
    {
        Ok(Standings {
            rows: Rows::new(alloc, &course.changes)?,
            moves: Vec::new(alloc),
            refreshes: 0,
            near: 0,
        })
    }

    /// The row of a key, whose changes these are, or the one that it begins with.
    pub fn row(&self, course: &Course, near: usize, changes: &[Change], key: &Key) -> Row
        requires { changes.now ≡ changes_of course.now.changes key.now }
        ensures { result ≡ row_for self.now.rows course.now.changes course.now.from key.now }
    {
        match self.rows.get(near, key) {
            Some(row) => *row,
            None => Row {
                standing: start(changes, course.from),
                moved: 0,
                seen: 0,
            },
        }
    }

    /// The key has this value after the message: its row goes there. Answers whether it could.
    pub fn visit(
        &mut self,
        course: &Course,
        message: u64,
        key: &Key,
        value: Option<&Attrs>,
    ) -> Result<bool, NoMemory>
        ensures { IfOk result (IsVisit course.now.changes course.now.from course.now.to message key.now (option_copied value.entry) self.old self.new) }
    {
        let near = course.near(self.near, key);
        self.near = near.saturating_add(1);
        let changes = course.changes_of(near, key);
        let row = self.row(course, near, changes, key);
        let seen = self.refreshes;
        let Some(standing) = climb_below(changes, row.standing, value, course.to) else {
            self.rows.put(near, *key, Row { seen, ..row })?;
            return Ok(false);
        };
        let moved = self.note(course, message, &row, standing)?;
        self.rows.put(
            near,
            *key,
            Row {
                standing,
                moved,
                seen,
            },
        )?;
        Ok(true)
    }

    /// Each of the keys has this value after the message. Those whose rows could not go there are added.
    pub fn visit_all(
        &mut self,
        course: &Course,
        message: u64,
        keys: &[Key],
        value: Option<&Attrs>,
        failed: &mut Vec<Key>,
    ) -> Result<(), NoMemory>
        ensures { OnOk result (ArePassed course.now.changes course.now.from course.now.to message keys.now (option_copied value.entry) failed.old.items failed.new.items self.old self.new) }
    {
        for key in keys {
            if !self.visit(course, message, key, value)? {
                failed.push(*key)?;
            }
        }
        Ok(())
    }

    /// Whether the key's route was announced before the present refresh began.
    fn is_stale(&self, course: &Course, near: usize, key: &Key) -> bool
        ensures { result ≡ is_stale_in self.now.refreshes course.now.changes self.now.rows key.now }
    {
        match self.rows.get(near, key) {
            Some(row) => {
                row.seen < self.refreshes
                    && value_at(course.changes_of(near, key), row.standing.next).is_some()
            }
            None => false,
        }
    }

    /// The keys whose routes were announced before the present refresh began.
    pub fn stale_keys(&self, alloc: Global, course: &Course) -> Result<Vec<Key>, NoMemory>
        ensures { IfOk result (λ keys. (q : routes.Key) → among keys.items q ≡ is_stale_in self.now.refreshes course.now.changes self.now.rows q) }
    {
        let all = self.rows.keys(alloc)?;
        self.stale_among(alloc, course, all.get())
    }

    /// The same of some keys.
    fn stale_among(
        &self,
        alloc: Global,
        course: &Course,
        keys: &[Key],
    ) -> Result<Vec<Key>, NoMemory>
        ensures { IfOk result (λ stale. (q : routes.Key) → among stale.items q ≡ (among keys.now q && is_stale_in self.now.refreshes course.now.changes self.now.rows q)) }
    {
        let mut stale = Vec::new(alloc);
        let mut near = 0;
        for key in keys {
            near = course.near(near, key);
            if self.is_stale(course, near, key) {
                stale.push(*key)?;
            }
        }
        Ok(stale)
    }

    /// Notes the move of a row, where there is one, and answers the number of its last.
    fn note(
        &mut self,
        course: &Course,
        message: u64,
        row: &Row,
        to: Standing,
    ) -> Result<usize, NoMemory>
        ensures noted { IfOk result (λ moved. (seen : ℕ) → IsNoted (row.now.standing.place == to.place) self.old.moves.items self.new.moves.items message course.now.from row.now (record { standing = to; moved = moved; seen = seen })) }
        ensures rows { self.new.rows ≡ self.old.rows }
        ensures refreshes { self.new.refreshes ≡ self.old.refreshes }
    {
        if row.standing.place == to.place {
            return Ok(row.moved);
        }
        self.moves.push(Moved {
            message,
            place: to.place.saturating_sub(course.from),
            before: row.moved,
        })?;
        Ok(self.moves.len())
    }
}

/// The climb's next standing, where that is below a place.
fn climb_below(
    changes: &[Change],
    from: Standing,
    value: Option<&Attrs>,
    to: u32,
) -> Option<Standing>
    ensures climbs { (past : List Value) → StandsIn past changes.now from → IfSome result (Climbs past changes.now from (option_copied value.entry)) }
    ensures below { IfSome result (λ t. t.place < to) }
    ensures stuck { (past : List Value) → StandsIn past changes.now from → IfNone result (NeverBelow past from.place to (option_copied value.entry)) }
{
    match climb(changes, from, value) {
        Some(standing) => {
            if standing.place < to {
                return Some(standing);
            }
            None
        }
        None => None,
    }
}
