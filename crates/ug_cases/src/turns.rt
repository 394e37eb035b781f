//! Turns on a board, and what comes of them as text. Each piece of it ends with a semicolon.

ghost use Rattle.ug_events.specs.Events.{IsEvent};
ghost use Rattle.ug_events.specs.Views.{event_of};

use crate::bytes::spelled;
use crate::running::Shipped;
use crate::stage::{Job, Stage};
use crate::wrong::Wrong;
use std::alloc::Global;
use std::sync::ledger::Ledger;
use ug_board::{LaneSaid, LaneStep};
use ug_events::{Event, Line, LineRefusal, read_line};
use ug_groups::GroupJob;
use ug_speaker::Speaker;
use ug_types::{Mark, NoMemory, PeerId, Steps};

impl Stage {
    /// What comes of turns, one behind the other, with ` ;` between them.
    pub fn play_all<L: Ledger>(
        &mut self,
        alloc: Global,
        turns: &str,
        steps: &mut Steps<L>,
    ) -> Result<String, Wrong> {
        let mut text = String::new(alloc);
        for turn in turns.split(" ;") {
            let turn = turn.trim();
            if !turn.is_empty() {
                text.push_str(self.play(alloc, turn, steps)?.as_str())?;
            }
        }
        Ok(text)
    }

    /// What comes of a turn: `next PEER`, the lane to a peer asks once what is next; `rest PEER`, it asks until nothing is
    /// to be done for now; `made PEER`, it asks so too, and each message is told with the number of its packet;
    /// `lost PEER SESSION`, it tells the loss of a session; `settle` and `drain`, the jobs are done that have to be done
    /// before the next event, or by which more can be told; `format SUBGROUP`, `merge SUBGROUP SUBGROUP` and
    /// `slow SUBGROUP`, one job is done; `only LINE`, an event is taken, and nothing is done before or behind it; `close`,
    /// there are no further events; and else a line of events is taken, or a mark where it says `sync`.
    fn play<L: Ledger>(
        &mut self,
        alloc: Global,
        turn: &str,
        steps: &mut Steps<L>,
    ) -> Result<String, Wrong> {
        let (verb, rest) = turn.split_once(' ').unwrap_or((turn, ""));
        match verb {
            "next" => self.play_next(alloc, self.peer(alloc, rest)?),
            "rest" => self.play_rest(alloc, self.peer(alloc, rest)?),
            "made" => self.play_numbers(alloc, self.peer(alloc, rest)?),
            "lost" => self.play_loss(alloc, rest),
            "settle" => self.play_settling(alloc, steps),
            "drain" => self.play_draining(alloc, steps),
            "format" => self.play_job(alloc, GroupJob::format(number_of(rest)?), steps),
            "slow" => self.play_job(alloc, GroupJob::slow(number_of(rest)?), steps),
            "merge" => self.play_merge(alloc, rest, steps),
            "only" => self.play_only(alloc, rest, steps),
            "close" => self.play_job(alloc, Shipped::close_job(), steps),
            _ => self.play_line(alloc, turn, steps),
        }
    }

    /// The peer with a name, or the place that a number is.
    fn peer(&self, alloc: Global, name: &str) -> Result<PeerId, Wrong> {
        if let Ok(place) = name.parse::<u32>() {
            return Ok(place);
        }
        match self.peer_named(alloc, name)? {
            Some(peer) => Ok(peer),
            None => Err(Wrong::Line("no such peer")),
        }
    }

    /// Takes a line: an event, or a mark.
    fn play_line<L: Ledger>(
        &mut self,
        alloc: Global,
        line: &str,
        steps: &mut Steps<L>,
    ) -> Result<String, Wrong> {
        match read_line(alloc, line.as_bytes()) {
            Ok(Line::Happened(event)) => self.play_event(alloc, event, steps),
            Ok(Line::Sync) => self.play_sync(alloc, steps),
            Ok(Line::Blank) => Ok(String::new(alloc)),
            Err(LineRefusal::Refused { number, .. }) => Ok(format!(in alloc; "unread {number}; ")?),
            Err(LineRefusal::NoMemory) => Err(Wrong::from(NoMemory)),
        }
    }

    /// Takes an event, with what has to be done before it and behind it, or tells why the world refuses it.
    fn play_event<L: Ledger>(
        &mut self,
        alloc: Global,
        event: Event,
        steps: &mut Steps<L>,
    ) -> Result<String, Wrong>
        requires { IsEvent (event_of event) }
    {
        if let Err(refusal) = self.judge(&event) {
            return Ok(format!(in alloc; "refused {}; ", refusal.number)?);
        }
        let _before = self.play_settling(alloc, steps)?;
        let job = Shipped::event_job(alloc, event)?;
        let text = self.play_job(alloc, job, steps)?;
        let _after = self.play_settling(alloc, steps)?;
        Ok(text)
    }

    /// Takes the event of a line, with nothing done before it or behind it.
    fn play_only<L: Ledger>(
        &mut self,
        alloc: Global,
        line: &str,
        steps: &mut Steps<L>,
    ) -> Result<String, Wrong> {
        match read_line(alloc, line.as_bytes()) {
            Ok(Line::Happened(event)) => self.play_event_only(alloc, event, steps),
            Ok(Line::Sync) | Ok(Line::Blank) | Err(LineRefusal::Refused { .. }) => {
                Err(Wrong::Line("no event"))
            }
            Err(LineRefusal::NoMemory) => Err(Wrong::from(NoMemory)),
        }
    }

    /// Takes an event where it may be taken now, or tells why the world refuses it.
    fn play_event_only<L: Ledger>(
        &mut self,
        alloc: Global,
        event: Event,
        steps: &mut Steps<L>,
    ) -> Result<String, Wrong>
        requires { IsEvent (event_of event) }
    {
        if let Err(refusal) = self.judge(&event) {
            return Ok(format!(in alloc; "refused {}; ", refusal.number)?);
        }
        let job = Shipped::event_job(alloc, event)?;
        self.play_job(alloc, job, steps)
    }

    /// The members of the second subgroup move to the first, where they may now.
    fn play_merge<L: Ledger>(
        &mut self,
        alloc: Global,
        subgroups: &str,
        steps: &mut Steps<L>,
    ) -> Result<String, Wrong> {
        let Some((sub, other)) = subgroups.split_once(' ') else {
            return Err(Wrong::Line("no two subgroups"));
        };
        let job = GroupJob::merge(number_of(sub)?, number_of(other)?);
        self.play_job(alloc, job, steps)
    }

    /// Does what there is to be done, and marks where everything is told.
    fn play_sync<L: Ledger>(
        &mut self,
        alloc: Global,
        steps: &mut Steps<L>,
    ) -> Result<String, Wrong> {
        let _jobs = self.play_draining(alloc, steps)?;
        self.play_job(alloc, Shipped::sync_job(), steps)
    }

    /// Does a job where it may be done now, and tells its marks.
    fn play_job<L: Ledger>(
        &mut self,
        alloc: Global,
        job: Job,
        steps: &mut Steps<L>,
    ) -> Result<String, Wrong> {
        match self.job(job, steps)? {
            Some(said) => say_marks(alloc, Shipped::marks(&said)),
            None => Ok(format!(in alloc; "not now; ")?),
        }
    }

    /// Does the jobs that have to be done before the next event, and tells how many.
    fn play_settling<L: Ledger>(
        &mut self,
        alloc: Global,
        steps: &mut Steps<L>,
    ) -> Result<String, Wrong> {
        for count in 0..1000u32 {
            let Some(job) = self.machine().settling()? else {
                return Ok(format!(in alloc; "{count} jobs; ")?);
            };
            let _said = self.job(job, steps)?;
        }
        Err(Wrong::Line("there are always more jobs"))
    }

    /// Does the jobs by which more can be told, and tells how many.
    fn play_draining<L: Ledger>(
        &mut self,
        alloc: Global,
        steps: &mut Steps<L>,
    ) -> Result<String, Wrong> {
        for count in 0..1000u32 {
            let Some(job) = self.machine().draining()? else {
                return Ok(format!(in alloc; "{count} jobs; ")?);
            };
            let _said = self.job(job, steps)?;
        }
        Err(Wrong::Line("there are always more jobs"))
    }

    /// The lane to a peer asks what is next, and is told so with the message that is handed out.
    fn play_next(&mut self, alloc: Global, peer: PeerId) -> Result<String, Wrong> {
        Ok(match self.lane(LaneStep::Next { peer }) {
            LaneSaid::Begun { session } => format!(in alloc; "begun {session}; ")?,
            LaneSaid::Hand { len, .. } => {
                format!(in alloc; "{}; ", spelled(alloc, self.handed(len))?)?
            }
            LaneSaid::Idle => format!(in alloc; "idle; ")?,
            LaneSaid::Stop => format!(in alloc; "stop; ")?,
            LaneSaid::Noted => format!(in alloc; "noted; ")?,
        })
    }

    /// The lane to a peer asks until nothing is to be done for now, which isn't told.
    fn play_rest(&mut self, alloc: Global, peer: PeerId) -> Result<String, Wrong> {
        let mut text = String::new(alloc);
        for _ in 0..1000 {
            let said = self.play_next(alloc, peer)?;
            if said.as_str() == "idle; " {
                return Ok(text);
            }
            text.push_str(said.as_str())?;
            if said.as_str() == "stop; " {
                return Ok(text);
            }
        }
        Err(Wrong::Line("there is always more to tell"))
    }

    /// The lane to a peer asks until nothing is to be done for now, and each message is told with the number of its packet.
    fn play_numbers(&mut self, alloc: Global, peer: PeerId) -> Result<String, Wrong> {
        let mut text = String::new(alloc);
        for _ in 0..1000 {
            match self.lane(LaneStep::Next { peer }) {
                LaneSaid::Begun { session } => write!(text, "begun {session}; ")?,
                LaneSaid::Hand { made, len, .. } => {
                    write!(text, "{made}: {}; ", spelled(alloc, self.handed(len))?)?
                }
                LaneSaid::Stop => {
                    write!(text, "stop; ")?;
                    return Ok(text);
                }
                LaneSaid::Idle | LaneSaid::Noted => return Ok(text),
            }
        }
        Err(Wrong::Line("there is always more to tell"))
    }

    /// The lane to a peer tells the loss of a session, which is noted or passed over.
    fn play_loss(&mut self, alloc: Global, text: &str) -> Result<String, Wrong> {
        let Some((name, number)) = text.split_once(' ') else {
            return Err(Wrong::Line("no peer and session"));
        };
        let Ok(session) = number.parse::<u32>() else {
            return Err(Wrong::Line("no session"));
        };
        let peer = self.peer(alloc, name)?;
        if self.lose(peer, session) {
            return Ok(format!(in alloc; "lost {session}; ")?);
        }
        Ok(format!(in alloc; "passed; ")?)
    }
}

fn number_of(text: &str) -> Result<u32, Wrong> {
    text.parse::<u32>().map_err(|_| Wrong::Line("no subgroup"))
}

/// Marks: the version, the place of the peer, its session, and how many messages it was handed.
fn say_marks(alloc: Global, marks: &[Mark]) -> Result<String, Wrong> {
    let mut text = String::new(alloc);
    for mark in marks {
        let (version, peer, session) = (mark.version, mark.peer, mark.session);
        let piece = format!(in alloc; "mark {version}:{peer}:{session}:{}; ", mark.handed)?;
        text.push_str(piece.as_str())?;
    }
    Ok(text)
}
