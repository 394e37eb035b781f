//! A session, heard message by message.

ghost use Rattle.std.specs.Prelude.{◌≡◌, suc, List, IfOk, OnOk, [], ◌∷◌, ◌++◌, length};
ghost use Rattle.ug_types.specs.Messages.{Message, message_of, changes_of, Updates, Begins, Ends};
ghost use Rattle.ug_message.specs.Tables.{Table};
ghost use Rattle.ug_hearing.specs.Courses.{IsCourse};
ghost use Rattle.ug_hearing.specs.Heard.{IsHeard, IsTaken, KeepsOthers};

use crate::course::Course;
use crate::naming::all_but;
use crate::standings::Standings;
use std::alloc::Global;
use ug_types::{Item, Key, NoMemory, Update};

/// How the keys of a session stand after the messages so far, and whether a refresh is under way.
#[derive(Drop)]
pub struct Hearing {
    pub standings: Standings,
    pub refreshing: bool,
}

impl Hearing {
    /// The message of this number comes, counted from 1. Answers the keys that could not climb to what they have then.
    pub fn take(
        &mut self,
        alloc: Global,
        course: &Course,
        message: u64,
        item: &Item,
    ) -> Result<Vec<Key>, NoMemory>
        ensures taken { IfOk result (λ failed. (past : List Table) (tables : List Table) (ms : List Message) →
            IsCourse course.now.changes course.now.from course.now.to past tables → message ≡ suc (length ms) →
            IsHeard course.now.changes course.now.from course.now.to past tables self.old.standings self.old.refreshing ms →
            IsTaken course.now.changes course.now.from course.now.to past tables failed.items self.new.standings self.new.refreshing (ms ++ message_of item.now ∷ [])) }
        ensures others { OnOk result (KeepsOthers (message_of item.now) self.old.standings.rows self.new.standings.rows) }
    {
        match item {
            Item::Update(update) => self.update(alloc, course, message, update),
            Item::Begin => self.begin(alloc),
            Item::End => self.end(alloc, course, message),
            Item::Ignored => Ok(Vec::new(alloc)),
        }
    }

    fn update(
        &mut self,
        alloc: Global,
        course: &Course,
        message: u64,
        update: &Update,
    ) -> Result<Vec<Key>, NoMemory>
        ensures taken { IfOk result (λ failed. (past : List Table) (tables : List Table) (ms : List Message) →
            IsCourse course.now.changes course.now.from course.now.to past tables → message ≡ suc (length ms) →
            IsHeard course.now.changes course.now.from course.now.to past tables self.old.standings self.old.refreshing ms →
            IsTaken course.now.changes course.now.from course.now.to past tables failed.items self.new.standings self.new.refreshing (ms ++ Updates (changes_of update.now) ∷ [])) }
        ensures others { OnOk result (KeepsOthers (Updates (changes_of update.now)) self.old.standings.rows self.new.standings.rows) }
    {
        let mut failed = Vec::new(alloc);
        let announced = update.announced.as_slice();
        let gone = all_but(alloc, update.withdrawn.as_slice(), announced)?;
        let attrs = update.attrs.as_ref();
        self.standings
            .visit_all(course, message, announced, attrs, &mut failed)?;
        self.standings
            .visit_all(course, message, &gone, None, &mut failed)?;
        Ok(failed)
    }

    /// A refresh that can't be numbered any more, the 2^64th, counts as out of memory.
    fn begin(&mut self, alloc: Global) -> Result<Vec<Key>, NoMemory>
        ensures taken { IfOk result (λ failed. (entries : List (_)) (from : _) (to : _) (past : List Table) (tables : List Table) (ms : List Message) →
            IsCourse entries from to past tables → IsHeard entries from to past tables self.old.standings self.old.refreshing ms →
            IsTaken entries from to past tables failed.items self.new.standings self.new.refreshing (ms ++ Begins ∷ [])) }
        ensures rows { OnOk result (self.new.standings.rows ≡ self.old.standings.rows) }
    {
        if self.standings.refreshes == u64::MAX {
            return Err(NoMemory);
        }
        self.standings.refreshes += 1;
        self.refreshing = true;
        Ok(Vec::new(alloc))
    }

    fn end(&mut self, alloc: Global, course: &Course, message: u64) -> Result<Vec<Key>, NoMemory>
        ensures { IfOk result (λ failed. (past : List Table) (tables : List Table) (ms : List Message) →
            IsCourse course.now.changes course.now.from course.now.to past tables → message ≡ suc (length ms) →
            IsHeard course.now.changes course.now.from course.now.to past tables self.old.standings self.old.refreshing ms →
            IsTaken course.now.changes course.now.from course.now.to past tables failed.items self.new.standings self.new.refreshing (ms ++ Ends ∷ [])) }
    {
        let mut failed = Vec::new(alloc);
        if !self.refreshing {
            return Ok(failed);
        }
        let stale = self.standings.stale_keys(alloc, course)?;
        self.standings
            .visit_all(course, message, &stale, None, &mut failed)?;
        self.refreshing = false;
        Ok(failed)
    }
}
