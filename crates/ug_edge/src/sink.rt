//! A sink that keeps in memory what was written to it.

ghost use Rattle.std.specs.Prelude.{◌≡◌, ◌<◌, ◌≤◌, length, true, false, Some, OnOk, OnErr, IfOk, IsErr};
ghost use Rattle.ug_edge.specs.SinkState.{SinkState, fresh_sink, next_write_fails, sink_with, sink_failed, sink_starved};
ghost use Rattle.ug_edge.specs.Told.{Rose};

use crate::counts::{is_listed, raise};
use crate::lists::{CallKind, CallList};
use crate::outside::{Failed, Sink};
use std::alloc::Global;
use std::marker::Model;
use ug_types::{ByteList, Sequence};

/// A sink that tells what it holds. Its n-th write fails where that is listed, or where memory runs out.
#[derive(Drop)]
pub struct MemSink {
    held: ByteList,
    calls: u64,
    fails: CallList,
    faults: u64,
    starved: u64,
}

impl Model for MemSink {
    ghost use Rattle.std.specs.Prelude.{◌≤◌};
    ghost use Rattle.ug_edge.specs.SinkState.{SinkState};

    ghost Value = { SinkState };

    ghost view = { λ s. record { held = s.held.items; calls = s.calls; fails = s.fails.items; faults = s.faults; starved = s.starved } };

    ghost invariant = { λ s. s.starved ≤ s.faults };
}

impl MemSink {
    /// A sink that holds nothing, and the calls that are to fail.
    pub fn new(alloc: Global, fails: CallList) -> MemSink
        ensures { result ≡ fresh_sink fails.items }
    {
        MemSink {
            held: Sequence::new(alloc),
            calls: 0,
            fails,
            faults: 0,
            starved: 0,
        }
    }

    /// What was written so far.
    pub fn bytes(&self) -> &[u8]
        ensures { result.now ≡ self.now.held }
    {
        self.held.as_slice()
    }

    /// How many writes failed since memory ran out. They are among the faults.
    pub fn starved(&self) -> u64
        ensures count { result ≡ self.now.starved }
        ensures within { result ≤ self.now.faults }
    {
        self.starved
    }
}

impl Sink for MemSink {
    ghost held = { λ sink. Some sink.held };

    ghost faults = { λ sink. sink.faults };

    fn write(&mut self, piece: &[u8]) -> Result<usize, Failed>
        ensures whole { IfOk result (λ n. n ≡ length piece.now) }
        ensures appended { OnOk result (self.new ≡ sink_with piece.now self.old) }
        ensures listed { next_write_fails self.old ≡ true → IsErr result × (self.new ≡ sink_failed self.old) }
        ensures starved { OnErr result (next_write_fails self.old ≡ false → self.new ≡ sink_starved self.old) }
        ensures failed { OnErr result (Rose self.old.faults self.new.faults) }
        ensures faults { self.old.faults ≤ self.new.faults }
    {
        self.calls = raise(self.calls);
        if is_listed(&self.fails, CallKind::Write, self.calls) {
            self.faults = raise(self.faults);
            return Err(Failed);
        }
        match self.held.extend_from_slice(piece) {
            Ok(()) => Ok(piece.len()),
            Err(_) => {
                self.starved = raise(self.starved);
                self.faults = raise(self.faults);
                Err(Failed)
            }
        }
    }
}
