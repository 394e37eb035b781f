//! The changes of all keys in the order of their versions.

ghost use Rattle.std.specs.Prelude.{◌≡◌, ◌++◌, map, IfOk, IfSome, OnOk};
ghost use Rattle.ug_hearing.specs.Watched.{dated_at, dates_from, AreDates, AreUpTo, AreMet};

use crate::change::Change;
use crate::course::Course;
use crate::dated::Dated;
use crate::differences::is_as_at;
use crate::standings::Standings;
use std::alloc::Global;
use ug_types::NoMemory;

/// The changes of all keys in the order of their versions.
pub fn dates_of(alloc: Global, course: &Course) -> Result<Vec<Dated>, NoMemory>
    ensures { IfOk result (λ dates. AreDates course.now.changes dates.items) }
{
    let mut dates = dates_by_key(alloc, course)?;
    dates.sort_by_key(
        |dated| -> u32
            ensures { result ≡ dated.now.version }
        { dated.version },
    )?;
    Ok(dates)
}

/// The changes of all keys, key by key.
fn dates_by_key(alloc: Global, course: &Course) -> Result<Vec<Dated>, NoMemory>
    ensures { IfOk result (λ dates. dates.items ≡ dates_from 0 course.now.changes) }
{
    let mut dates = Vec::new(alloc);
    for place in 0..course.changes.len() {
        let (_key, changes) = course.changes.at(place);
        add_dates(&mut dates, place, changes)?;
    }
    Ok(dates)
}

/// Adds the changes of the key at a place.
fn add_dates(dates: &mut Vec<Dated>, place: usize, changes: &[Change]) -> Result<(), NoMemory>
    ensures { OnOk result (dates.new.items ≡ dates.old.items ++ map (dated_at place) changes.now) }
{
    for change in changes {
        dates.push(Dated {
            version: change.place,
            place,
        })?;
    }
    Ok(())
}

/// How many of the first are of versions up to this.
pub fn count_up_to(dates: &[Dated], version: u64) -> usize
    ensures { AreUpTo dates.now result version }
{
    for i in 0..dates.len() {
        if dates[i].version as u64 > version {
            return i;
        }
    }
    dates.len()
}

/// How many are of versions up to this, where the keys of those behind so many are as in its table; None where one differs.
pub fn met_up_to(
    dates: &[Dated],
    passed: usize,
    standings: &Standings,
    course: &Course,
    version: u64,
) -> Option<usize>
    ensures { IfSome result (AreMet standings.now.rows course.now.changes course.now.from version dates.now passed) }
{
    for i in passed..dates.len() {
        if dates[i].version as u64 > version {
            return Some(i);
        }
        if !is_as_at(standings, course, version, dates[i].place) {
            return None;
        }
    }
    Some(dates.len())
}
