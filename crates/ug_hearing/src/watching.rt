//! How all keys are watched from one mark of `sync` to the next, by what was named and what changed between them.

ghost use Rattle.std.specs.Prelude.{◌≡◌, ℕ, List, [], OnOk, IsTrue};
ghost use Rattle.ug_types.specs.declared.key.Key as routes;
ghost use Rattle.ug_types.specs.Messages.{message_of};
ghost use Rattle.ug_hearing.specs.declared.change.Change as changes;
ghost use Rattle.ug_hearing.specs.declared.row.Row as rows;
ghost use Rattle.ug_hearing.specs.Heard.{KeepsOthers};
ghost use Rattle.ug_hearing.specs.Watched.{IsWatched, IsMet, AreAllMet};
ghost use Rattle.ug_hearing.specs.Naming.{Names, Loses, Moves};

use crate::course::Course;
use crate::dates::{count_up_to, dates_of, met_up_to};
use crate::differences::{are_as_in, first_difference};
use crate::session::Session;
use crate::standings::Standings;
use crate::watch::Watch;
use std::alloc::Global;
use ug_types::{Item, Key, NoMemory};

impl Watch {
    /// Before any message: no key has a row, and each has what it has in the table of the session's first version.
    pub fn new(alloc: Global, course: &Course) -> Watch
        ensures { IsWatched [] course.now.changes course.now.from result }
    {
        Watch {
            version: course.from as u64,
            named: Vec::new(alloc),
            is_lost: false,
            is_dated: false,
            dates: Vec::new(alloc),
            passed: 0,
        }
    }

    /// A message came. No more than so many keys are remembered; behind that nothing is known.
    pub fn hear(&mut self, item: &Item, most: usize) -> Result<(), NoMemory>
        ensures { OnOk result ((entries : List (routes.Key × List changes.Change)) (from : ℕ) (old : List (routes.Key × rows.Row)) (new : List (routes.Key × rows.Row)) →
            KeepsOthers (message_of item.now) old new → IsWatched old entries from self.old → IsWatched new entries from self.new) }
    {
        match item {
            Item::Update(update) => {
                self.name(update.withdrawn.as_slice(), most)?;
                self.name(update.announced.as_slice(), most)
            }
            Item::End => {
                self.lose();
                Ok(())
            }
            Item::Begin | Item::Ignored => Ok(()),
        }
    }

    /// These keys were named.
    fn name(&mut self, keys: &[Key], most: usize) -> Result<(), NoMemory>
        ensures { OnOk result (Names self.old self.new keys.now) }
    {
        if self.is_lost {
            return Ok(());
        }
        if self.named.len().saturating_add(keys.len()) > most {
            self.lose();
            return Ok(());
        }
        self.named.extend_from_slice(keys)?;
        Ok(())
    }

    /// Nothing is known from now on.
    fn lose(&mut self)
        ensures { Loses self.old self.new }
    {
        self.is_lost = true;
        self.named.clear();
    }

    /// The changes are put in the order of their versions, where they were not.
    pub fn date(&mut self, alloc: Global, course: &Course) -> Result<(), NoMemory>
        ensures { OnOk result ((from : ℕ) (rows : List (routes.Key × rows.Row)) → IsWatched rows course.now.changes from self.old → IsWatched rows course.now.changes from self.new) }
    {
        if self.is_dated {
            return Ok(());
        }
        self.dates = dates_of(alloc, course)?;
        self.is_dated = true;
        self.passed = count_up_to(&self.dates, self.version);
        Ok(())
    }

    /// Goes on over these marks, as long as all keys are as in the tables of their versions, and answers whether all were.
    pub fn pass(&mut self, standings: &Standings, session: &Session, from: usize, to: usize) -> bool
        ensures { AreAllMet standings.now.rows session.now.course.changes session.now.course.from self.old self.new session.now.syncs.items from to (IsTrue result) }
    {
        let syncs = session.syncs.as_slice();
        for i in from..to {
            if i >= syncs.len() {
                return false;
            }
            if !self.step(standings, &session.course, syncs[i].version) {
                return false;
            }
        }
        true
    }

    /// Goes on to this version, where all keys are as in its table, and answers whether they are. Where it is lost, or the
    /// version is an earlier one, all keys are looked at.
    fn step(&mut self, standings: &Standings, course: &Course, version: u64) -> bool
        ensures { IsMet standings.now.rows course.now.changes course.now.from self.old self.new version (IsTrue result) }
    {
        if self.is_lost || !self.is_dated || version < self.version {
            return self.find(standings, course, version);
        }
        if !are_as_in(standings, course, version, &self.named) {
            return false;
        }
        match met_up_to(&self.dates, self.passed, standings, course, version) {
            Some(to) => {
                self.move_to(version, to);
                true
            }
            None => false,
        }
    }

    /// Looks at all keys.
    fn find(&mut self, standings: &Standings, course: &Course, version: u64) -> bool
        ensures { IsMet standings.now.rows course.now.changes course.now.from self.old self.new version (IsTrue result) }
    {
        match first_difference(standings, course, version) {
            Some(_key) => false,
            None => {
                let passed = count_up_to(&self.dates, version);
                self.move_to(version, passed);
                true
            }
        }
    }

    fn move_to(&mut self, version: u64, passed: usize)
        ensures { Moves self.old self.new version passed }
    {
        self.version = version;
        self.named.clear();
        self.is_lost = false;
        self.passed = passed;
    }
}
