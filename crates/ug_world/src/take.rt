//! What an event makes of a world.

ghost use Rattle.std.specs.Prelude.{◌≡◌, ◌<◌, None, false, List, map, OnOk, OnErr, IfOk};
ghost use Rattle.std.specs.BTreeMap.{insert_entry};
ghost use Rattle.ug_types.specs.Keys.{prefix_cmp};
ghost use Rattle.ug_policy.specs.Order.{ascending};
ghost use Rattle.ug_policy.specs.Lists.{list_refusal, seq_of};
ghost use Rattle.ug_events.specs.Events.{ComesUp, GoesDown, HasPaths, HasNone, HasPolicy, HasEntries, AsksAgain, SendsRequest, SendsList, IsEvent, GivenPath};
ghost use Rattle.ug_events.specs.Views.{event_of};
ghost use Rattle.ug_policy.specs.OrfViews.{orf_seen};
ghost use Rattle.ug_world.specs.Verdicts.{path_of, learned_of, sender, with_paths, is_overfull, verdict};
ghost use Rattle.ug_world.specs.World.{learned_from};
ghost use Rattle.ug_world.specs.After.{after, told_row};

use crate::best::Best;
use crate::lists::relist;
use crate::peer_state::PeerState;
use crate::world::World;
use std::alloc::Global;
use ug_events::{Event, Given};
use ug_outbound::Local;
use ug_policy::{EntryList, ListRefusal, OrfMessage, PrefixList};
use ug_types::{Learned, Name, NoMemory, Path, Prefix};

impl World {
    /// The world after an event that it accepts. Running out of memory changes nothing.
    pub fn take(&mut self, alloc: Global, event: &Event) -> Result<(), NoMemory>
        requires accepted { verdict self.old (event_of event.now) ≡ None }
        requires kept { IsEvent (event_of event.now) }
        requires version { self.old.version < 4294967295 }
        ensures ok { OnOk result (self.new ≡ after self.old (event_of event.now)) }
        ensures err { OnErr result (self.new ≡ self.old) }
    {
        match event {
            Event::Up { peer } => {
                self.come_up(alloc, peer);
                Ok(())
            }
            Event::Down { peer } => {
                self.go_down(peer);
                Ok(())
            }
            Event::Refresh { peer } => self.refilter(alloc, peer),
            Event::Receive { peer } => self.refilter(alloc, peer),
            Event::Orf { peer, message } => self.apply_message(alloc, peer, message),
            Event::Policy { peer, policy } => self.set_policy(alloc, peer, policy),
            Event::List { name, entries } => self.relist(alloc, name, entries),
            Event::Paths { prefix, paths } => {
                self.set_paths(alloc, *prefix, paths.get().as_slice())
            },
            Event::Withdraw { prefix } => {
                self.remove_paths(prefix);
                Ok(())
            }
        }
    }

    /// The paths that a prefix has after an event that tells them, and none after any other. They share the attributes with
    /// the event.
    pub fn row_of(&self, alloc: Global, event: &Event) -> Result<Best, NoMemory>
        ensures { IfOk result (λ row. row ≡ told_row self.now (event_of event.now)) }
    {
        match event {
            Event::Paths { paths, .. } => self.row_of_given(alloc, paths.get().as_slice()),
            _ => Ok(Best::new(alloc, Vec::new(alloc))),
        }
    }

    /// The world after an event that it accepts, where the paths that it tells are made already. Running out of memory
    /// changes nothing.
    pub fn take_row(&mut self, alloc: Global, event: &Event, row: Best) -> Result<(), NoMemory>
        requires accepted { verdict self.old (event_of event.now) ≡ None }
        requires kept { IsEvent (event_of event.now) }
        requires version { self.old.version < 4294967295 }
        requires row { row ≡ told_row self.old (event_of event.now) }
        ensures ok { OnOk result (self.new ≡ after self.old (event_of event.now)) }
        ensures err { OnErr result (self.new ≡ self.old) }
    {
        match event {
            Event::Paths { prefix, .. } => self.set_row(*prefix, row),
            _ => self.take(alloc, event),
        }
    }

    #[tactic(auto, unfolding(crate::specs::After::after))]
    fn come_up(&mut self, alloc: Global, name: &Name)
        requires { self.old.version < 4294967295 }
        ensures { self.new ≡ after self.old (ComesUp name.now) }
    {
        self.peers.come_up(alloc, name);
        self.version += 1;
    }

    #[tactic(auto, unfolding(crate::specs::After::after))]
    fn go_down(&mut self, name: &Name)
        requires { self.old.version < 4294967295 }
        ensures { self.new ≡ after self.old (GoesDown name.now) }
    {
        self.peers.go_down(name);
        self.version += 1;
    }

    #[tactic(auto, unfolding(crate::specs::After::after))]
    fn refilter(&mut self, alloc: Global, name: &Name) -> Result<(), NoMemory>
        requires { self.old.version < 4294967295 }
        ensures asked { OnOk result (self.new ≡ after self.old (AsksAgain name.now)) }
        ensures sent { OnOk result (self.new ≡ after self.old (SendsRequest name.now)) }
        ensures err { OnErr result (self.new ≡ self.old) }
    {
        self.peers.refilter(alloc, name)?;
        self.version += 1;
        Ok(())
    }

    #[tactic(auto, unfolding(crate::specs::After::after))]
    fn apply_message(
        &mut self,
        alloc: Global,
        name: &Name,
        message: &OrfMessage,
    ) -> Result<(), NoMemory>
        requires { self.old.version < 4294967295 }
        ensures ok { OnOk result (self.new ≡ after self.old (SendsList name.now (orf_seen message.entry.now))) }
        ensures err { OnErr result (self.new ≡ self.old) }
    {
        self.peers.apply_message(alloc, name, message)?;
        self.version += 1;
        Ok(())
    }

    #[tactic(auto, unfolding(crate::specs::After::after))]
    fn set_policy(
        &mut self,
        alloc: Global,
        name: &Name,
        policy: &Option<Name>,
    ) -> Result<(), NoMemory>
        requires { self.old.version < 4294967295 }
        ensures ok { OnOk result (self.new ≡ after self.old (HasPolicy name.now policy.now)) }
        ensures err { OnErr result (self.new ≡ self.old) }
    {
        let policy = copy_name(alloc, policy)?;
        self.peers.set_policy(name, policy);
        self.version += 1;
        Ok(())
    }

    #[tactic(auto, unfolding(crate::specs::After::after))]
    fn relist(&mut self, alloc: Global, name: &Name, entries: &EntryList) -> Result<(), NoMemory>
        requires version { self.old.version < 4294967295 }
        requires entries { list_refusal entries.now.items ≡ None }
        ensures ok { OnOk result (self.new ≡ after self.old (HasEntries name.now entries.now.items)) }
        ensures err { OnErr result (self.new ≡ self.old) }
    {
        let list = made_list(alloc, entries)?;
        relist(&mut self.policies, name, list);
        self.version += 1;
        Ok(())
    }

    fn set_paths(&mut self, alloc: Global, prefix: Prefix, given: &[Given]) -> Result<(), NoMemory>
        requires version { self.old.version < 4294967295 }
        requires room { is_overfull (with_paths self.old prefix given.now) ≡ false }
        ensures ok { OnOk result (self.new ≡ after self.old (HasPaths prefix given.now)) }
        ensures err { OnErr result (self.new ≡ self.old) }
    {
        let row = self.row_of_given(alloc, given)?;
        self.set_row(prefix, row)
    }

    /// A prefix has these paths from now on.
    #[tactic(auto, unfolding(crate::specs::After::after))]
    fn set_row(&mut self, prefix: Prefix, row: Best) -> Result<(), NoMemory>
        requires version { self.old.version < 4294967295 }
        requires room { is_overfull (insert_entry prefix_cmp self.old.routes prefix row) ≡ false }
        ensures ok { OnOk result ((given : List GivenPath) → row ≡ map (path_of self.old) given → self.new ≡ after self.old (HasPaths prefix given)) }
        ensures err { OnErr result (self.new ≡ self.old) }
    {
        self.routes.set(prefix, row)?;
        self.version += 1;
        Ok(())
    }

    #[tactic(auto, unfolding(crate::specs::After::after))]
    fn remove_paths(&mut self, prefix: &Prefix)
        requires { self.old.version < 4294967295 }
        ensures { self.new ≡ after self.old (HasNone prefix.now) }
    {
        self.routes.remove(prefix);
        self.version += 1;
    }

    /// The paths as they stand among the routes.
    fn row_of_given(&self, alloc: Global, given: &[Given]) -> Result<Best, NoMemory>
        ensures { IfOk result (λ row. row ≡ map (path_of self.now) given.now) }
    {
        match given {
            [only] => Ok(Best::one(alloc, self.path_of(only)?)),
            _ => Ok(Best::new(alloc, self.paths_of(alloc, given)?)),
        }
    }

    /// The same as a list of its own, where there is more than one, or none.
    fn paths_of(&self, alloc: Global, given: &[Given]) -> Result<Vec<Path>, NoMemory>
        ensures { IfOk result (λ paths. paths.items ≡ map (path_of self.now) given.now) }
    {
        let mut paths = Vec::with_capacity(alloc, given.len())?;
        for path in given {
            paths.push(self.path_of(path)?)?;
        }
        Ok(paths)
    }

    /// The path as it stands among the routes, which shares the attributes.
    fn path_of(&self, given: &Given) -> Result<Path, NoMemory>
        ensures { IfOk result (λ path. path ≡ path_of self.now given.now) }
    {
        Ok(Path {
            id: given.id,
            learned: self.learned_of(&given.from),
            attrs: given.attrs.share()?,
        })
    }

    /// Where a path is learned from.
    fn learned_of(&self, from: &Option<Name>) -> Learned
        ensures { result ≡ learned_of self.now.local (sender self.now.peers from.now) }
    {
        let Some(name) = from else {
            return Learned::Local;
        };
        match self.peers.find(name) {
            None => Learned::Local,
            Some(seat) => learned_from(&self.local, seat),
        }
    }
}

fn learned_from(local: &Local, seat: &PeerState) -> Learned
    ensures { result ≡ learned_from local.now seat.now }
{
    if seat.peer.asn != local.asn {
        return Learned::External;
    }
    Learned::Internal {
        client: seat.peer.client,
        router: seat.peer.router_id,
    }
}

fn copy_name(alloc: Global, name: &Option<Name>) -> Result<Option<Name>, NoMemory>
    ensures { IfOk result (λ copy. copy ≡ name.now) }
{
    match name {
        None => Ok(None),
        Some(name) => Ok(Some(name.copy(alloc)?)),
    }
}

/// The prefix list of entries that nothing refuses.
fn made_list(alloc: Global, entries: &EntryList) -> Result<PrefixList, NoMemory>
    requires { list_refusal entries.now.items ≡ None }
    ensures { IfOk result (λ list. list ≡ ascending seq_of entries.now.items) }
{
    match PrefixList::new(entries.copy(alloc)?) {
        Ok(list) => Ok(list),
        Err(ListRefusal::NoMemory) => Err(NoMemory),
        Err(ListRefusal::Refused { .. }) => unreachable!(),
    }
}
