//! A site whose files and wires are in memory.

ghost use Rattle.std.specs.Prelude.{◌≡◌, ◌<◌, ◌≤◌, [], ◌∷◌, ◌++◌, min, length, take, drop, true, false, Some, None, OnOk, OnErr, IfOk, IsOk, IsErrOf, Err};
ghost use Rattle.ug_edge.specs.SiteState.{SiteState, file_texts, peer_cuts, peer_begins, wire_names, bytes_left, fresh_site, totals_to, begins_to, next_read_fails, next_wire_fails, picked_bytes, site_picked, site_unpicked, site_unnamed, site_read, site_unread, site_wired, site_unmade, site_unwired, site_with_begins};
ghost use Rattle.ug_edge.specs.WireState.{fresh_wire};
ghost use Rattle.ug_edge.specs.Told.{Rose};

use crate::counts::{is_listed, raise};
use crate::lists::{BeginFails, CallKind, CallList, CutList, FileList, Made};
use crate::outside::{Failed, Site, SiteFault, Source};
use crate::places::{begins_of, copy_front, kept, made_for, place_of, rest_of, totals_of};
use crate::wire::MemWire;
use std::alloc::Global;
use std::marker::Model;
use ug_types::{ByteList, NoMemory, NumberList, Sequence};

/// A site that tells its files and what is left to read. A call fails where its number is listed, and a pick also
/// where no file has the name. Each wire has the cuts of its peer.
#[derive(Drop)]
pub struct MemSite {
    alloc: Global,
    files: FileList,
    place: Option<usize>,
    picked: Sequence<ByteList>,
    offset: usize,
    made: Sequence<Made>,
    fails: CallList,
    cuts: CutList,
    begins: Sequence<BeginFails>,
    picks: u64,
    reads: u64,
    wires: u64,
    faults: u64,
    wire_faults: u64,
}

impl Model for MemSite {
    ghost use Rattle.std.specs.Prelude.{is_some, map};
    ghost use Rattle.ug_edge.specs.SiteState.{SiteState, file_texts, peer_cuts, peer_begins, wire_names, bytes_left};

    ghost Value = { SiteState };

    ghost view = { λ s. record {
      files = file_texts s.files.items;
      is_picked = is_some s.place;
      picked = map (λ name. name.items) s.picked.items;
      left = bytes_left s.files.items s.place s.offset;
      made = wire_names s.made.items;
      fails = s.fails.items;
      cuts = peer_cuts s.cuts.items;
      begins = peer_begins s.begins.items;
      picks = s.picks;
      reads = s.reads;
      wires = s.wires;
      faults = s.faults;
      wire_faults = s.wire_faults;
    } };
}

impl MemSite {
    /// A site with these files, the calls that are to fail, and the cuts of its wires. The first file of a name
    /// counts.
    pub fn new(
        alloc: Global,
        files: FileList,
        fails: CallList,
        cuts: CutList,
    ) -> Result<MemSite, NoMemory>
        ensures made { IsOk result }
        ensures fresh { IfOk result (λ site. site ≡ fresh_site (file_texts files.items) fails.items (peer_cuts cuts.items)) }
    {
        Ok(MemSite {
            alloc,
            files,
            place: None,
            picked: Sequence::new(alloc),
            offset: 0,
            made: Sequence::new(alloc),
            fails,
            cuts,
            begins: Sequence::new(alloc),
            picks: 0,
            reads: 0,
            wires: 0,
            faults: 0,
            wire_faults: 0,
        })
    }

    /// Has `begin` of these sessions, numbered from 1, fail on the wires to that peer that are made from now on.
    pub fn fail_begins(&mut self, peer: &str, sessions: NumberList) -> Result<(), NoMemory>
        ensures ok { OnOk result (self.new ≡ site_with_begins peer.now sessions.items self.old) }
        ensures err { OnErr result (self.new ≡ self.old) }
    {
        let peer = Sequence::from_vec(Vec::from_slice(self.alloc, peer.as_bytes())?);
        match self.begins.push(BeginFails { peer, sessions }) {
            Ok(()) => Ok(()),
            Err(_) => Err(NoMemory),
        }
    }
}

impl Source for MemSite {
    ghost left = { λ site. Some site.left };

    ghost faults = { λ site. site.faults };

    ghost files = { λ site. Some site.files };

    ghost picks = { λ site. record { is_open = site.is_picked; names = Some site.picked } };

    ghost made = { λ site. record { count = length site.made; names = Some site.made } };

    ghost wire_faults = { λ site. site.wire_faults };

    fn read(&mut self, buf: &mut [u8]) -> Result<usize, Failed>
        ensures count { IfOk result (λ n. n ≡ min (length buf.old) (length self.old.left)) }
        ensures bytes { IfOk result (λ n. buf.new ≡ take n self.old.left ++ drop n buf.old) }
        ensures read { IfOk result (λ n. self.new ≡ site_read n self.old) }
        ensures unlisted { OnOk result (next_read_fails self.old ≡ false) }
        ensures listed { OnErr result (next_read_fails self.old ≡ true) }
        ensures unread { OnErr result (self.new ≡ site_unread self.old) }
        ensures taken { IfOk result (λ n. self.old.left ≡ take n buf.new ++ self.new.left) }
        ensures end { IfOk result (λ n. n ≡ 0 → 0 < length buf.old → self.old.left ≡ []) }
        ensures failed { OnErr result (Rose self.old.faults self.new.faults) }
        ensures faults { self.old.faults ≤ self.new.faults }
    {
        self.reads = raise(self.reads);
        if is_listed(&self.fails, CallKind::Read, self.reads) {
            self.faults = raise(self.faults);
            return Err(Failed);
        }
        let count = copy_front(rest_of(&self.files, self.place, self.offset), buf);
        self.offset += count;
        Ok(count)
    }
}

impl Site for MemSite {
    type Wire = MemWire;

    fn pick(&mut self, name: &str) -> Result<(), SiteFault>
        ensures ok { OnOk result (picked_bytes name.now self.old ≡ Some self.new.left) }
        ensures picked { OnOk result (self.new ≡ site_picked name.now self.new.left self.old) }
        ensures listed { IsErrOf result SiteFault.Failed → (picked_bytes name.now self.old ≡ None) × (self.new ≡ site_unpicked name.now self.old) }
        ensures no_memory { IsErrOf result SiteFault.NoMemory → self.new ≡ site_unnamed self.old }
        ensures failed { IsErrOf result SiteFault.Failed → Rose self.old.faults self.new.faults }
        ensures faults { self.old.faults ≤ self.new.faults }
    {
        self.picks = raise(self.picks);
        self.place = None;
        let Ok(named) = kept(self.alloc, name) else {
            return Err(SiteFault::NoMemory);
        };
        let Ok(()) = self.picked.push(named) else {
            return Err(SiteFault::NoMemory);
        };
        if is_listed(&self.fails, CallKind::Pick, self.picks) {
            self.faults = raise(self.faults);
            return Err(SiteFault::Failed);
        }
        match place_of(&self.files, name) {
            Some(place) => {
                self.place = Some(place);
                self.offset = 0;
                Ok(())
            }
            None => {
                self.faults = raise(self.faults);
                Err(SiteFault::Failed)
            }
        }
    }

    fn wire(&mut self, dir: &str, peer: &str) -> Result<MemWire, SiteFault>
        ensures wire { IfOk result (λ wire. wire ≡ fresh_wire (record { dir = dir.now; peer = peer.now }) (totals_to peer.now self.old.cuts) (begins_to peer.now self.old.begins)) }
        ensures ok { OnOk result ((next_wire_fails self.old ≡ false) × (self.new ≡ site_wired dir.now peer.now self.old)) }
        ensures listed { IsErrOf result SiteFault.Failed → (next_wire_fails self.old ≡ true) × (self.new ≡ site_unwired self.old) }
        ensures no_memory { IsErrOf result SiteFault.NoMemory → (next_wire_fails self.old ≡ false) × (self.new ≡ site_unmade self.old) }
        ensures failed { IsErrOf result SiteFault.Failed → Rose self.old.wire_faults self.new.wire_faults }
        ensures wire_faults { self.old.wire_faults ≤ self.new.wire_faults }
    {
        self.wires = raise(self.wires);
        if is_listed(&self.fails, CallKind::Wire, self.wires) {
            self.wire_faults = raise(self.wire_faults);
            return Err(SiteFault::Failed);
        }
        let Ok(cuts) = totals_of(self.alloc, &self.cuts, peer) else {
            return Err(SiteFault::NoMemory);
        };
        let Ok(failing) = begins_of(self.alloc, &self.begins, peer) else {
            return Err(SiteFault::NoMemory);
        };
        let Ok(made) = made_for(self.alloc, dir, peer) else {
            return Err(SiteFault::NoMemory);
        };
        let Ok(told) = made_for(self.alloc, dir, peer) else {
            return Err(SiteFault::NoMemory);
        };
        let Ok(()) = self.made.push(told) else {
            return Err(SiteFault::NoMemory);
        };
        Ok(MemWire::new(self.alloc, made, cuts, failing))
    }
}
