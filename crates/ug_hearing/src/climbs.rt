//! How the keys of a session climbed.

ghost use Rattle.std.specs.Prelude.{◌≡◌, ◌<◌, List, [], map, filter, take, IfOk, IfSome, IfNone, OnOk};
ghost use Rattle.ug_hearing.specs.Shifts.{Shift};
ghost use Rattle.ug_hearing.specs.Certificates.{KeyClimb};
ghost use Rattle.ug_hearing.specs.Keyed.{value_for};
ghost use Rattle.ug_hearing.specs.Rows.{IsChain};
ghost use Rattle.ug_hearing.specs.Climbed.{shift_of, is_named, last_move_of, IsNextNamed, HandedOut, GoesOn, IsBack, keys_left};

use crate::judge::Judge;
use crate::row::Moved;
use std::alloc::Global;
use ug_types::{Key, NoMemory, Shared};

/// A message at which the place of a key's climb moves, counted from 1, and the place that it moves to, counted from the
/// empty table before the session.
#[derive(Clone, Copy)]
pub struct Move {
    pub message: u64,
    pub place: u32,
}

/// The climbs of the keys that a session's messages named, one after another in key order: the keys among which all of them
/// are, the place of the next of these, and the moves of the climb that was handed out last.
#[derive(Drop)]
pub struct Climbs {
    pub keys: Shared<Vec<Key>>,
    pub place: usize,
    pub moves: Vec<Move>,
}

/// A key that was named, the number of its last move, and the place behind it.
#[derive(Clone, Copy)]
pub struct Named {
    pub key: Key,
    pub moved: usize,
    pub behind: usize,
}

impl Climbs {
    /// The climbs of a session behind whose messages the judge stands, of which none was handed out.
    pub fn of(alloc: Global, judge: &Judge) -> Result<Climbs, NoMemory>
        ensures { IfOk result (λ climbs. HandedOut judge.now climbs []) }
    {
        let keys = judge.hearing.standings.rows.keys(alloc)?;
        Ok(Climbs {
            keys,
            place: 0,
            moves: Vec::new(alloc),
        })
    }

    /// The key of the next climb, whose moves are known then; None exactly where all were handed out.
    pub fn next(&mut self, judge: &Judge) -> Result<Option<Key>, NoMemory>
        ensures climbs { IfOk result (λ next. (done : List KeyClimb) → HandedOut judge.now self.old done → GoesOn judge.now self.new done next) }
        ensures fewer { IfOk result (λ next. IfSome next (λ key. keys_left self.new < keys_left self.old)) }
    {
        let named = match next_named(judge, self.keys.get(), self.place) {
            Some(named) => named,
            None => return Ok(None),
        };
        self.place = named.behind;
        move_back(&mut self.moves, &judge.hearing.standings.moves, named.moved)?;
        Ok(Some(named.key))
    }
}

/// The first of the keys, from a place on, that was named; None exactly where none of them was.
fn next_named(judge: &Judge, keys: &[Key], from: usize) -> Option<Named>
    ensures found { IfSome result (IsNextNamed judge.now keys.now from) }
    ensures none { IfNone result (filter (is_named judge.now) keys.now ≡ filter (is_named judge.now) (take from keys.now)) }
{
    for place in from..keys.len() {
        let key = keys[place];
        match last_move(judge, place, &key) {
            Some(moved) => {
                return Some(Named {
                    key,
                    moved,
                    behind: place + 1,
                });
            }
            None => {}
        }
    }
    None
}

/// The number of the last move of a key, which is looked for near a place; None exactly where it was not named.
fn last_move(judge: &Judge, near: usize, key: &Key) -> Option<usize>
    ensures { result ≡ last_move_of (value_for judge.now.hearing.standings.rows key.now) }
{
    match judge.hearing.standings.rows.get(near, key) {
        Some(row) => Some(row.moved),
        None => None,
    }
}

/// The moves of a key, from the first on, are in the list; the last of them has this number.
fn move_back(moves: &mut Vec<Move>, all: &[Moved], last: usize) -> Result<(), NoMemory>
    ensures { OnOk result ((shifts : List Shift) → IsChain all.now last shifts → IsBack (map shift_of moves.new.items) shifts) }
{
    moves.clear();
    let mut at = last;
    while at > 0 {
        if at > all.len() {
            return Ok(());
        }
        let moved = all[at - 1];
        if moved.before >= at {
            return Ok(());
        }
        moves.push(Move {
            message: moved.message,
            place: moved.place,
        })?;
        at = moved.before;
    }
    moves.reverse();
    Ok(())
}
