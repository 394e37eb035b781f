//! The peers in configured order.

ghost use Rattle.std.specs.Prelude.{◌≡◌, true, None, map, OnOk, OnErr, MatchOption};
ghost use Rattle.std.specs.Option.{option_map};
ghost use Rattle.ug_policy.specs.OrfViews.{orf_seen};
ghost use Rattle.ug_world.specs.World.{peer_named};
ghost use Rattle.ug_world.specs.After.{come_up, gone_down, with_policy, refiltered, with_orf, changed_peer};
ghost use Rattle.ug_world.specs.Kept.{ArePeers, IsPlaceOf, are_sessions_within};

use crate::peer_state::PeerState;
use crate::seats;
use std::alloc::Global;
use std::marker::Model;
use ug_policy::OrfMessage;
use ug_types::{Name, NoMemory};

/// At most 64 peers, each of another name, in configured order. Contracts see the list of them.
#[derive(Drop)]
pub struct Peers {
    seats: Vec<PeerState>,
}

impl Model for Peers {
    ghost use Rattle.std.specs.Prelude.{List};
    ghost use Rattle.ug_world.specs.declared.peer_state.PeerState.{PeerState};
    ghost use Rattle.ug_world.specs.Kept.{ArePeers};

    ghost Value = { List PeerState };

    ghost view = { λ p. p.seats.items };

    ghost invariant = { λ p. ArePeers p.seats.items };
}

impl Peers {
    /// These peers, in their memory.
    pub fn new(seats: Vec<PeerState>) -> Peers
        requires named { ArePeers seats.items }
        ensures { result ≡ seats.items }
    {
        Peers { seats }
    }

    /// The peers in order.
    pub fn as_slice(&self) -> &[PeerState]
        ensures peers { result.now ≡ self.now }
        ensures named { ArePeers self.now }
    {
        self.seats.as_slice()
    }

    /// The peer of that name; None exactly where there is none.
    pub fn find(&self, name: &Name) -> Option<&PeerState>
        ensures { option_map (λ s. s.now) result ≡ peer_named self.now name.now }
    {
        for seat in self.seats.as_slice() {
            if seat.peer.name == *name {
                return Some(seat);
            }
        }
        None
    }

    /// The peer of that name comes up.
    pub fn come_up(&mut self, alloc: Global, name: &Name)
        requires sessions { are_sessions_within 4294967294 self.old ≡ true }
        ensures { self.new ≡ map (changed_peer name.now come_up) self.old }
    {
        if let Some(place) = place_of(&self.seats, name) {
            seats::come_up(alloc, &mut self.seats[place]);
        }
    }

    /// It goes down.
    pub fn go_down(&mut self, name: &Name)
        ensures { self.new ≡ map (changed_peer name.now gone_down) self.old }
    {
        if let Some(place) = place_of(&self.seats, name) {
            seats::go_down(&mut self.seats[place]);
        }
    }

    /// It has this policy, or none.
    pub fn set_policy(&mut self, name: &Name, policy: Option<Name>)
        ensures { self.new ≡ map (changed_peer name.now (with_policy policy)) self.old }
    {
        if let Some(place) = place_of(&self.seats, name) {
            seats::set_policy(&mut self.seats[place], policy);
        }
    }

    /// The filter that waits is in force at it. Running out of memory changes nothing.
    pub fn refilter(&mut self, alloc: Global, name: &Name) -> Result<(), NoMemory>
        ensures ok { OnOk result (self.new ≡ map (changed_peer name.now refiltered) self.old) }
        ensures err { OnErr result (self.new ≡ self.old) }
    {
        let Some(place) = place_of(&self.seats, name) else {
            return Ok(());
        };
        seats::refilter(alloc, &mut self.seats[place])?;
        Ok(())
    }

    /// Its filter is changed by a message. Running out of memory changes nothing.
    pub fn apply_message(
        &mut self,
        alloc: Global,
        name: &Name,
        message: &OrfMessage,
    ) -> Result<(), NoMemory>
        ensures ok { OnOk result (self.new ≡ map (changed_peer name.now (with_orf (orf_seen message.entry.now))) self.old) }
        ensures err { OnErr result (self.new ≡ self.old) }
    {
        let Some(place) = place_of(&self.seats, name) else {
            return Ok(());
        };
        seats::apply_message(alloc, &mut self.seats[place], message)?;
        Ok(())
    }
}

/// The place of the peer of that name.
pub fn place_of(seats: &[PeerState], name: &Name) -> Option<usize>
    ensures { MatchOption result (peer_named seats.now name.now ≡ None) (IsPlaceOf seats.now name.now) }
{
    for place in 0..seats.len() {
        if seats[place].peer.name == *name {
            return Some(place);
        }
    }
    None
}
