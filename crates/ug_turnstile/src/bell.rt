//! A bell, for those that wait until something may have come.

use std::sync::Wait;
use std::sync::atomic::AtomicU64;
use std::sync::atomic::Ordering::SeqCst;
use std::time::Duration;

/// A bell: a count of its rings, which rises whenever something may have come for those that wait. Whoever reads the
/// count, looks whether something is there, and waits where nothing is until the count is another one, misses nothing
/// that the bell is rung for. No clause speaks of it, since none can say when a thread goes on.
#[derive(Drop)]
pub struct Bell {
    rings: AtomicU64,
    waiting: AtomicU64,
}

impl Bell {
    /// A bell that was not rung.
    pub(crate) fn new() -> Bell {
        Bell {
            rings: AtomicU64::new(0),
            waiting: AtomicU64::new(0),
        }
    }

    /// How often it was rung.
    pub fn rings(&self) -> u64 {
        self.rings.load(SeqCst)
    }

    /// Rings it, which wakes all that wait. Where nobody waits it costs two steps of an atomic, and no call of the system:
    /// whoever begins to wait after that finds that the count is another one.
    pub fn ring(&self) {
        let _before = self.rings.fetch_add(1, SeqCst);
        if self.waiting.load(SeqCst) != 0 {
            self.rings.wake_all();
        }
    }

    /// Waits until it was rung more often than that. It may return before.
    pub fn wait<R: Wait>(&self, rt: &R, rings: u64) {
        let _before = self.waiting.fetch_add(1, SeqCst);
        self.rings.park(rt, (rings % 4294967296) as u32);
        let _after = self.waiting.fetch_sub(1, SeqCst);
    }

    /// Waits until it was rung more often than that, but no longer than so. It may return before.
    pub fn wait_at_most<R: Wait>(&self, rt: &R, rings: u64, moment: Duration) {
        let _before = self.waiting.fetch_add(1, SeqCst);
        self.rings
            .park_timeout(rt, (rings % 4294967296) as u32, moment);
        let _after = self.waiting.fetch_sub(1, SeqCst);
    }
}
