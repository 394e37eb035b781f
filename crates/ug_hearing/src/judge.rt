//! A session judged message by message.

ghost use Rattle.std.specs.Prelude.{◌≡◌, List, IfOk, OnOk, [], ◌∷◌, ◌++◌};
ghost use Rattle.ug_types.specs.Messages.{Message, message_of};
ghost use Rattle.ug_message.specs.Tables.{Table};
ghost use Rattle.ug_hearing.specs.Marked.{IsWorst, AreMarksOf};
ghost use Rattle.ug_hearing.specs.Watched.{IsWatched};
ghost use Rattle.ug_hearing.specs.Judged.{IsSession, IsChecked, IsJudged};
ghost use Rattle.ug_hearing.specs.Ended.{IsAnswer, found_in_end, IsEndOf, is_short_of, IsOffBy, is_amiss, is_unread};

use crate::breach::{Breach, BreachKind, Ending};
use crate::differences::first_difference;
use crate::hearing::Hearing;
use crate::key_order::least;
use crate::marks::{marks_of, worst_key};
use crate::session::Session;
use crate::standings::Standings;
use crate::watch::Watch;
use std::alloc::Global;
use ug_types::{Item, Key, NoMemory};

/// What is known of a session after the messages so far: how its keys stand, how many marks of `sync` were passed, the
/// breach that was found, and what is watched up to the next mark.
#[derive(Drop)]
pub struct Judge {
    pub hearing: Hearing,
    pub messages: u64,
    pub next: usize,
    pub found: Option<Breach>,
    pub watch: Watch,
}

impl Judge {
    /// The judge of a session before its first message.
    pub fn new(alloc: Global, session: &Session) -> Result<Judge, NoMemory>
        ensures { IfOk result (λ judge. (past : List Table) (tables : List Table) → IsSession session.now past tables → IsJudged session.now past tables judge []) }
    {
        let standings = Standings::new(alloc, &session.course)?;
        let mut judge = Judge {
            hearing: Hearing {
                standings,
                refreshing: false,
            },
            messages: 0,
            next: 0,
            found: None,
            watch: Watch::new(alloc, &session.course),
        };
        let to = marks_of(session, 0, 0);
        judge.look(session, to);
        Ok(judge)
    }

    /// The session's next message comes. 2^64 - 1 messages count as out of memory; after that nothing
    /// is known.
    pub fn message(&mut self, alloc: Global, session: &Session, item: &Item) -> Result<(), NoMemory>
        ensures { OnOk result ((past : List Table) (tables : List Table) (ms : List Message) → IsSession session.now past tables →
            IsJudged session.now past tables self.old ms → IsJudged session.now past tables self.new (ms ++ message_of item.now ∷ [])) }
    {
        if self.messages >= u64::MAX - 1 {
            return Err(NoMemory);
        }
        self.messages += 1;
        if self.found.is_some() {
            return Ok(());
        }
        let failed = self
            .hearing
            .take(alloc, &session.course, self.messages, item)?;
        if let Some(key) = least(&failed) {
            self.find(BreachKind::Stuck, key);
            return Ok(());
        }
        let most = self.most_named(session);
        self.watch.hear(item, most)?;
        self.check(alloc, session)?;
        Ok(())
    }

    /// The first breach of the session, behind whose messages this stands; None exactly where there is none.
    pub fn end(&self, session: &Session, ending: Ending) -> Option<Breach>
        ensures { (past : List Table) (tables : List Table) (ms : List Message) → IsSession session.now past tables →
            IsJudged session.now past tables self.now ms → IsAnswer session.now past tables ms ending result }
    {
        match self.found {
            Some(found) => Some(self.end_found(session, found)),
            None => self.end_clear(session, ending),
        }
    }

    /// What was found, but where the session ends before a mark of `sync`, which is told first at the last message.
    fn end_found(&self, session: &Session, found: Breach) -> Breach
        ensures { result ≡ found_in_end session.now self.now found }
    {
        if self.is_short(session) && is_amiss(found.kind) && found.message == self.messages {
            return self.breach(BreachKind::Amiss, None);
        }
        found
    }

    /// What is found behind the last message, where nothing was found before.
    fn end_clear(&self, session: &Session, ending: Ending) -> Option<Breach>
        ensures { IsEndOf session.now self.now ending result }
    {
        if self.is_short(session) {
            return Some(self.breach(BreachKind::Amiss, None));
        }
        if let Some(key) = self.off(session) {
            return Some(self.breach(BreachKind::Off, Some(key)));
        }
        if !is_unread(ending, session.lost) {
            return None;
        }
        Some(Breach {
            kind: BreachKind::Unread,
            message: self.messages.saturating_add(1),
            key: None,
        })
    }

    /// Whether the session ends before a mark of `sync`, and was not lost.
    fn is_short(&self, session: &Session) -> bool
        ensures { result ≡ is_short_of session.now self.now }
    {
        self.next < session.syncs.len() && !session.lost
    }

    /// The least key that isn't as it should be at the end of a session that is open, and was not lost.
    fn off(&self, session: &Session) -> Option<Key>
        ensures { IsOffBy session.now self.now result }
    {
        if session.lost || !session.is_open {
            return None;
        }
        first_difference(&self.hearing.standings, &session.course, session.last)
    }

    fn breach(&self, kind: BreachKind, key: Option<Key>) -> Breach
        ensures { result ≡ record { kind = kind; message = self.now.messages; key = key } }
    {
        Breach {
            kind,
            message: self.messages,
            key,
        }
    }

    fn find(&mut self, kind: BreachKind, key: Key)
        ensures { self.new ≡ record self.old { found = Some (record { kind = kind; message = self.old.messages; key = Some key }) } }
    {
        self.found = Some(Breach {
            kind,
            message: self.messages,
            key: Some(key),
        });
    }

    /// Checks the marks of the messages so far: by what was watched, and where a key differs by looking at all keys once.
    fn check(&mut self, alloc: Global, session: &Session) -> Result<(), NoMemory>
        ensures marks { OnOk result (AreMarksOf session.now.syncs.items self.old.next self.new.next self.old.messages) }
        ensures worst { OnOk result (IsWatched self.old.hearing.standings.rows session.now.course.changes session.now.course.from self.old.watch →
            IsChecked self.old self.new (IsWorst self.old.hearing.standings.rows session.now.course.changes session.now.course.from session.now.syncs.items self.old.next self.new.next)) }
        ensures watched { OnOk result (IsWatched self.old.hearing.standings.rows session.now.course.changes session.now.course.from self.old.watch →
            IsWatched self.old.hearing.standings.rows session.now.course.changes session.now.course.from self.new.watch) }
    {
        let to = marks_of(session, self.next, self.messages);
        if to == self.next {
            return Ok(());
        }
        self.watch.date(alloc, &session.course)?;
        if self
            .watch
            .pass(&self.hearing.standings, session, self.next, to)
        {
            self.next = to;
            return Ok(());
        }
        self.look(session, to);
        Ok(())
    }

    /// Looks at all keys, at the marks up to this number.
    fn look(&mut self, session: &Session, to: usize)
        ensures next { self.new.next ≡ to }
        ensures watch { self.new.watch ≡ self.old.watch }
        ensures worst { IsChecked self.old self.new (IsWorst self.old.hearing.standings.rows session.now.course.changes session.now.course.from session.now.syncs.items self.old.next to) }
    {
        let worst = worst_key(&self.hearing.standings, session, self.next, to);
        self.next = to;
        let Some(key) = worst else {
            return;
        };
        self.find(BreachKind::Amiss, key);
    }

    /// How many keys are worth being remembered before the next mark of `sync`: a part of all, and none where there is none.
    fn most_named(&self, session: &Session) -> usize {
        if self.next >= session.syncs.len() {
            return 0;
        }
        session.course.changes.len() / 4 + 16
    }
}

fn is_amiss(kind: BreachKind) -> bool
    ensures { result ≡ is_amiss kind }
{
    match kind {
        BreachKind::Amiss => true,
        BreachKind::Unread | BreachKind::Stuck | BreachKind::Off => false,
    }
}

/// Whether what stands behind the messages of a session may not.
fn is_unread(ending: Ending, lost: bool) -> bool
    ensures { result ≡ is_unread ending lost }
{
    match ending {
        Ending::Whole => false,
        Ending::Cut => !lost,
        Ending::Malformed => true,
    }
}
