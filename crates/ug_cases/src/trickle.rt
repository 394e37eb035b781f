//! A site that hands out few bytes a call.

ghost use Rattle.std.specs.Prelude.{◌≡◌, ◌<◌, ◌≤◌};

use ug_edge::{Failed, MemSite, MemWire, Site, SiteFault, Source};

/// A site in memory of which a read gives at most so many bytes.
#[derive(Drop)]
pub struct Trickle {
    pub site: MemSite,
    pub most: usize,
    ghost some: { 1 ≤ most },
}

impl Trickle {
    /// A site of which a read gives at most so many bytes, and one where that is none.
    pub fn new(site: MemSite, most: usize) -> Trickle
        ensures site { result.site ≡ site }
        ensures most { 1 ≤ most → result.most ≡ most }
    {
        Trickle {
            site,
            most: most.max(1),
        }
    }
}

impl Source for Trickle {
    ghost left = { λ t. ⟦<MemSite as Source>⟧.left t.site };

    ghost faults = { λ t. ⟦<MemSite as Source>⟧.faults t.site };

    ghost files = { λ t. ⟦<MemSite as Source>⟧.files t.site };

    ghost picks = { λ t. ⟦<MemSite as Source>⟧.picks t.site };

    ghost made = { λ t. ⟦<MemSite as Source>⟧.made t.site };

    ghost wire_faults = { λ t. ⟦<MemSite as Source>⟧.wire_faults t.site };

    fn read(&mut self, buf: &mut [u8]) -> Result<usize, Failed> {
        let room = self.most.min(buf.len());
        let (front, _) = buf.split_at_mut(room);
        match self.site.read(front) {
            Ok(count) => Ok(count),
            Err(Failed) => Err(Failed),
        }
    }
}

impl Site for Trickle {
    type Wire = MemWire;

    fn pick(&mut self, name: &str) -> Result<(), SiteFault> {
        match self.site.pick(name) {
            Ok(()) => Ok(()),
            Err(fault) => Err(fault),
        }
    }

    fn wire(&mut self, dir: &str, peer: &str) -> Result<MemWire, SiteFault> {
        match self.site.wire(dir, peer) {
            Ok(wire) => Ok(wire),
            Err(fault) => Err(fault),
        }
    }
}
