//! The marks of `sync` of a message.

ghost use Rattle.std.specs.Prelude.{◌≡◌, ◌<◌, ◌≤◌, length, IsTrue, IsFalse};
ghost use Rattle.ug_types.specs.declared.mark.Mark as marks;
ghost use Rattle.ug_hearing.specs.Marked.{IsWorst, AreMarksOf, IsMarkIn, DiffersAtOne, IsSameAtAll};

use crate::course::passed;
use crate::differences::is_as_in;
use crate::session::Session;
use crate::standings::Standings;
use ug_types::Key;

/// The least and the greatest version of some marks.
#[derive(Clone, Copy)]
pub struct Span {
    pub first: u64,
    pub last: u64,
}

/// The number of the first mark, from one on, that isn't of so many messages.
pub fn marks_of(session: &Session, next: usize, messages: u64) -> usize
    ensures { AreMarksOf session.now.syncs.items next result messages }
{
    let syncs = session.syncs.as_slice();
    let mut at = next;
    for i in next..syncs.len() {
        if syncs[i].handed != messages {
            return at;
        }
        at = i + 1;
    }
    at
}

/// The least key that differs, by its row, at one of the marks from one number up to another. It looks at each key once.
pub fn worst_key(standings: &Standings, session: &Session, from: usize, to: usize) -> Option<Key>
    ensures { IsWorst standings.now.rows session.now.course.changes session.now.course.from session.now.syncs.items from to result }
{
    let syncs = session.syncs.as_slice();
    if from >= to || from >= syncs.len() {
        return None;
    }
    let span = span_of(session, from, to);
    let changes = &session.course.changes;
    for place in 0..changes.len() {
        let (key, _changes) = changes.at(place);
        if differs_at_one(standings, session, from, to, span, place, key) {
            return Some(*key);
        }
    }
    None
}

/// The versions between which those of these marks are.
fn span_of(session: &Session, from: usize, to: usize) -> Span
    ensures { (m : marks.Mark) → IsMarkIn session.now.syncs.items from to m → (result.first ≤ m.version) × (m.version ≤ result.last) }
{
    let syncs = session.syncs.as_slice();
    let mut span = Span {
        first: u64::MAX,
        last: 0,
    };
    for i in from..to {
        if i >= syncs.len() {
            return span;
        }
        span = with_version(span, syncs[i].version);
    }
    span
}

fn with_version(span: Span, version: u64) -> Span
    ensures first { result.first ≤ span.first }
    ensures last { span.last ≤ result.last }
    ensures low { result.first ≤ version }
    ensures high { version ≤ result.last }
{
    Span {
        first: span.first.min(version),
        last: span.last.max(version),
    }
}

/// Whether the key, which is looked for near a place, differs by its row at one of these marks, whose versions are in the span.
fn differs_at_one(
    standings: &Standings,
    session: &Session,
    from: usize,
    to: usize,
    span: Span,
    near: usize,
    key: &Key,
) -> bool
    requires some { from < to }
    requires there { from < length session.now.syncs.items }
    requires span { (m : marks.Mark) → IsMarkIn session.now.syncs.items from to m → (span.first ≤ m.version) × (m.version ≤ span.last) }
    ensures differs { IsTrue result → DiffersAtOne standings.now.rows session.now.course.changes session.now.course.from session.now.syncs.items from to key.now }
    ensures same { IsFalse result → IsSameAtAll standings.now.rows session.now.course.changes session.now.course.from session.now.syncs.items from to key.now }
{
    let course = &session.course;
    let syncs = session.syncs.as_slice();
    let changes = course.changes_of(near, key);
    let first = passed(changes, span.first);
    let last = passed(changes, span.last);
    if first == last {
        return !is_as_in(standings, course, syncs[from].version, near, key);
    }
    for i in from..to {
        if i >= syncs.len() {
            return false;
        }
        if !is_as_in(standings, course, syncs[i].version, near, key) {
            return true;
        }
    }
    false
}
