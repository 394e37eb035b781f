//! A site whose two wires wait for each other: both are sent to only where that goes on side by side.

ghost use Rattle.std.specs.Prelude.{◌≡◌, ◌-◌, ◌≤◌, length, Some, IfOk, slice_get};
ghost use Rattle.ug_edge.specs.GatedState.{GatedWireState, GatedSiteState, fresh_gated_site};
ghost use Rattle.ug_edge.specs.SiteState.{file_texts};

use crate::counts::raise;
use crate::lists::FileList;
use crate::outside::{Failed, Site, SiteFault, Source, Wire};
use crate::site::MemSite;
use crate::wire::MemWire;
use crossbeam_utils::Backoff;
use std::alloc::Global;
use std::marker::Model;
use std::sync::Arc;
use std::sync::atomic::AtomicBool;
use std::sync::atomic::Ordering::SeqCst;
use ug_types::{NoMemory, Sequence};

/// At most how often a wire looks whether the other was sent to.
const MOST_LOOKS: u32 = 10_000_000;

/// A flag that is set once a wire was sent to, and that of the other wire.
#[derive(Drop)]
struct Gate {
    mine: Arc<AtomicBool>,
    theirs: Arc<AtomicBool>,
}

impl Gate {
    /// Sets this wire's flag, and answers whether the other's was seen within the looks that there are.
    fn passes(&self) -> bool {
        self.mine.store(true, SeqCst);
        let backoff = Backoff::new();
        for _ in 0..MOST_LOOKS {
            if self.theirs.load(SeqCst) {
                return true;
            }
            backoff.snooze();
        }
        false
    }
}

/// A wire in memory whose first `send` fails unless the other wire of its site is sent to as well.
#[derive(Drop)]
pub struct GatedWire {
    wire: MemWire,
    gate: Option<Gate>,
    faults: u64,
}

impl Model for GatedWire {
    ghost use Rattle.std.specs.Prelude.{is_some};
    ghost use Rattle.ug_edge.specs.GatedState.{GatedWireState};

    ghost Value = { GatedWireState };

    ghost view = { λ w. record { wire = w.wire; is_gated = is_some w.gate; faults = w.faults } };
}

impl GatedWire {
    /// How many sessions there are.
    pub fn sessions(&self) -> u32
        ensures { result ≡ length self.now.wire.sessions }
    {
        self.wire.sessions()
    }

    /// The bytes of a session, which are numbered from 1.
    pub fn session(&self, n: u32) -> &[u8]
        requires from { 1 ≤ n }
        requires to { n ≤ length self.now.wire.sessions }
        ensures { slice_get self.now.wire.sessions (n - 1) ≡ Some result.now }
    {
        self.wire.session(n)
    }
}

impl Wire for GatedWire {
    ghost sessions = { λ wire. Some wire.wire.sessions };

    ghost begun = { λ wire. length wire.wire.sessions };

    ghost faults = { λ wire. wire.faults };

    ghost made_for = { λ wire. wire.wire.made_for };

    fn begin(&mut self) -> Result<(), Failed> {
        match self.wire.begin() {
            Ok(()) => Ok(()),
            Err(Failed) => {
                self.faults = raise(self.faults);
                Err(Failed)
            }
        }
    }

    fn send(&mut self, piece: &[u8]) -> Result<usize, Failed> {
        if let Some(gate) = self.gate.take() {
            if !gate.passes() {
                self.faults = raise(self.faults);
                return Err(Failed);
            }
        }
        match self.wire.send(piece) {
            Ok(count) => Ok(count),
            Err(Failed) => {
                self.faults = raise(self.faults);
                Err(Failed)
            }
        }
    }
}

/// A site in memory that makes two wires, which wait for each other. A third `wire` fails.
#[derive(Drop)]
pub struct GatedSite {
    site: MemSite,
    first: Arc<AtomicBool>,
    second: Arc<AtomicBool>,
    calls: u64,
    wire_faults: u64,
}

impl Model for GatedSite {
    ghost use Rattle.ug_edge.specs.GatedState.{GatedSiteState};

    ghost Value = { GatedSiteState };

    ghost view = { λ s. record { site = s.site; calls = s.calls; wire_faults = s.wire_faults } };
}

impl GatedSite {
    /// A site with these files.
    pub fn new(alloc: Global, files: FileList) -> Result<GatedSite, NoMemory>
        ensures { IfOk result (λ site. site ≡ fresh_gated_site (file_texts files.items)) }
    {
        Ok(GatedSite {
            site: MemSite::new(alloc, files, Sequence::new(alloc), Sequence::new(alloc))?,
            first: Arc::new(alloc, AtomicBool::new(false))?,
            second: Arc::new(alloc, AtomicBool::new(false))?,
            calls: 0,
            wire_faults: 0,
        })
    }
}

impl Source for GatedSite {
    ghost left = { λ site. Some site.site.left };

    ghost faults = { λ site. site.site.faults };

    ghost files = { λ site. Some site.site.files };

    ghost picks = { λ site. record { is_open = site.site.is_picked; names = Some site.site.picked } };

    ghost made = { λ site. record { count = length site.site.made; names = Some site.site.made } };

    ghost wire_faults = { λ site. site.wire_faults };

    fn read(&mut self, buf: &mut [u8]) -> Result<usize, Failed> {
        match self.site.read(buf) {
            Ok(count) => Ok(count),
            Err(Failed) => Err(Failed),
        }
    }
}

impl Site for GatedSite {
    type Wire = GatedWire;

    fn pick(&mut self, name: &str) -> Result<(), SiteFault> {
        match self.site.pick(name) {
            Ok(()) => Ok(()),
            Err(fault) => Err(fault),
        }
    }

    fn wire(&mut self, dir: &str, peer: &str) -> Result<GatedWire, SiteFault> {
        self.calls = raise(self.calls);
        if self.calls > 2 {
            self.wire_faults = raise(self.wire_faults);
            return Err(SiteFault::Failed);
        }
        let Ok(gate) = gate_for(&self.first, &self.second, self.calls == 1) else {
            return Err(SiteFault::NoMemory);
        };
        match self.site.wire(dir, peer) {
            Ok(wire) => Ok(GatedWire {
                wire,
                gate: Some(gate),
                faults: 0,
            }),
            Err(SiteFault::Failed) => {
                self.wire_faults = raise(self.wire_faults);
                Err(SiteFault::Failed)
            }
            Err(SiteFault::NoMemory) => Err(SiteFault::NoMemory),
        }
    }
}

/// The gate of the first wire, or of the second.
fn gate_for(
    first: &Arc<AtomicBool>,
    second: &Arc<AtomicBool>,
    is_first: bool,
) -> Result<Gate, NoMemory> {
    let first = Arc::try_clone(first)?;
    let second = Arc::try_clone(second)?;
    Ok(if is_first {
        Gate {
            mine: first,
            theirs: second,
        }
    } else {
        Gate {
            mine: second,
            theirs: first,
        }
    })
}
