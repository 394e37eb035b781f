//! How a builder keeps pace with lanes that have threads.
//!
//! To wake a thread costs as much as to take an event. So the builder takes packets for such lanes itself, in passes over all of
//! them. Their threads are woken where they have much to send or a session to begin, and where there are no more events for now.

use crate::settled::Settled;
use std::hint::spin_loop;
use std::sync::Wait;
use std::time::Duration;
use ug_board::Board;
use ug_edge::Wire;
use ug_sender::{Fleet, Intake, Roster, Starter};
use ug_speaker::Speaker;
use ug_turnstile::{Bell, Turnstile};

/// So often at most it looks again at once whether a thread rang back, which takes some ten microseconds.
const MOST_LOOKS: usize = 200;

/// So often at most it waits until a thread rings back, and so long: on a busy machine a thread may wait so long for a processor.
const MOST_WAITS: usize = 40;

const WAIT_MICROSECONDS: u64 = 1000;

/// Lanes that were late are waited for again after so many times at most.
const MOST_PASSED: usize = 4096;

/// How far the builder is ahead of lanes that have threads. No contract speaks of it: it is for speed alone.
#[derive(Drop)]
pub(crate) struct Pace {
    /// How often something was taken for lanes, modulo 2^64.
    passes: usize,
    /// Whether it waited a moment since something was last taken for them.
    has_paused: bool,
    /// How many jobs were done since no lane was behind.
    ahead: usize,
    /// How many lanes were behind still when they were waited for.
    late: usize,
    /// How often no more were waited for since, and how often that is at most.
    passed: usize,
    limit: usize,
}

impl Pace {
    /// The pace at the start.
    pub(crate) fn new() -> Pace {
        Pace {
            passes: 0,
            has_paused: false,
            ahead: 0,
            late: 0,
            passed: 0,
            limit: 1,
        }
    }

    /// Whether lanes were behind when something was last taken for them.
    pub(crate) fn is_ahead(&self) -> bool {
        self.ahead > 0
    }

    /// Takes what there is for lanes in docks, and wakes the threads of those that have much to send.
    pub(crate) fn load<R: Wait, N: Roster<S::Opening>, W: Wire, T: Starter, S: Speaker>(
        &mut self,
        rt: &R,
        crew: &Fleet<'_, N, W, S, T>,
    ) -> Intake {
        let intake = crew.load(rt, self.passes);
        self.passes = self.passes.wrapping_add(1);
        if intake.has_come {
            self.has_paused = false;
        }
        intake
    }

    /// Waits until a thread rang more often than that. Where lanes are behind it waits for a moment at first, since then their threads
    /// are at work. Else lanes are left to their threads.
    pub(crate) fn pause<R: Wait, N: Roster<S::Opening>, W: Wire, T: Starter, S: Speaker>(
        &mut self,
        rt: &R,
        turnstile: &Turnstile<Board<S>>,
        crew: &Fleet<'_, N, W, S, T>,
        intake: Intake,
        rings: u64,
    ) {
        if intake.behind > 0 && !self.has_paused {
            self.has_paused = true;
            wait_for_ring(rt, turnstile.back(), rings);
        } else {
            self.has_paused = false;
            crew.leave(rt);
            turnstile.back().wait(rt, rings);
        }
    }

    /// Takes what there is for lanes in docks behind such jobs, and answers whether anything came. Where lanes are far behind it
    /// waits for them, for a moment at most: lanes that fall behind would be taken for slow ones, which costs a copy of their table
    /// each time. A lane that never goes on, since nobody reads what it writes, is waited for now and then alone.
    pub(crate) fn keep<R: Wait, N: Roster<S::Opening>, W: Wire, T: Starter, S: Speaker>(
        &mut self,
        rt: &R,
        turnstile: &Turnstile<Board<S>>,
        crew: &Fleet<'_, N, W, S, T>,
        settled: Settled,
    ) -> bool {
        let intake = self.load(rt, crew);
        if intake.behind == 0 {
            self.ahead = 0;
            return intake.has_come;
        }
        self.ahead = self.ahead.saturating_add(settled.jobs);
        if self.ahead < most_ahead(settled.room) {
            return intake.has_come;
        }
        self.wait(rt, turnstile, crew) || intake.has_come
    }

    /// Waits, for a moment at most, until no more lanes are behind than the last time, or none every so many times, and answers
    /// whether anything came for them.
    fn wait<R: Wait, N: Roster<S::Opening>, W: Wire, T: Starter, S: Speaker>(
        &mut self,
        rt: &R,
        turnstile: &Turnstile<Board<S>>,
        crew: &Fleet<'_, N, W, S, T>,
    ) -> bool {
        self.passed = self.passed.saturating_add(1);
        let is_for_all = self.passed >= self.limit;
        let most = if is_for_all { 0 } else { self.late };
        let mut has_come = false;
        let mut behind = 0;
        for _ in 0..MOST_WAITS {
            let rings = turnstile.back().rings();
            crew.rouse(rt);
            let intake = self.load(rt, crew);
            has_come = has_come || intake.has_come;
            behind = intake.behind;
            if behind <= most {
                break;
            }
            wait_for_ring(rt, turnstile.back(), rings);
        }
        self.note(behind, is_for_all);
        has_come
    }

    /// So many lanes are behind still. Where all were waited for, those that are late are left out the longer, the more often.
    fn note(&mut self, behind: usize, is_for_all: bool) {
        self.late = behind;
        if behind == 0 {
            self.ahead = 0;
        }
        if is_for_all {
            self.passed = 0;
            self.limit = if behind == 0 {
                1
            } else {
                self.limit.saturating_mul(2).min(MOST_PASSED)
            };
        }
    }
}

/// How many jobs behind which lanes that are behind are waited for, where a queue holds so many packets: when it is as many again
/// until they go on, there is still room in it.
fn most_ahead(room: u32) -> usize {
    (room / 2).saturating_sub(2) as usize
}

/// Waits until the bell was rung more often than that, for a moment at most.
fn wait_for_ring<R: Wait>(rt: &R, bell: &Bell, rings: u64) {
    for _ in 0..MOST_LOOKS {
        if bell.rings() != rings {
            return;
        }
        spin_loop();
    }
    bell.wait_at_most(rt, rings, Duration::from_micros(WAIT_MICROSECONDS));
}
