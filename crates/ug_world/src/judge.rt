//! Which events a world refuses, and why.

ghost use Rattle.std.specs.Prelude.{◌≡◌, Some, None, is_some, MatchResult, ◌==◌};
ghost use Rattle.std.specs.Option.{option_map};
ghost use Rattle.std.specs.List.{list_all, list_any};
ghost use Rattle.ug_policy.specs.Order.{repeats};
ghost use Rattle.ug_events.specs.Events.{GivenPath};
ghost use Rattle.ug_events.specs.Views.{event_of};
ghost use Rattle.ug_policy.specs.OrfViews.{orf_seen};
ghost use Rattle.ug_world.specs.Verdicts.{of_peer, unless_down, unless_up, unless_known, policy_refusal, orf_refusal, paths_refusal, is_sender_known, given_id, verdict};

use crate::orf_length::length_after;
use crate::peer_state::PeerState;
use crate::world::World;
use ug_events::{Event, Given};
use ug_policy::{OrfMessage, find_named};
use ug_types::{Name, Prefix};

/// Why an event is refused.
#[derive(Clone, Copy, PartialEq, Eq)]
pub struct Refusal {
    pub number: u8,
}

impl World {
    /// Whether an event is accepted. The lowest number answers: 1 unknown-peer, 2 already-up, 3 not-up,
    /// 4 no-such-prefix, 5 unknown-policy, 6 unknown-list, 7 same-path-id, 8 too-many-paths, 9 table-full, 11 no-orf,
    /// 12 orf-full. It takes no memory.
    pub fn judge(&self, event: &Event) -> Result<(), Refusal>
        ensures { MatchResult result (λ _. verdict self.now (event_of event.now) ≡ None) (λ e. verdict self.now (event_of event.now) ≡ Some e.number) }
    {
        match self.verdict(event) {
            None => Ok(()),
            Some(number) => Err(Refusal { number }),
        }
    }

    #[tactic(auto, unfolding(crate::specs::Verdicts::verdict))]
    fn verdict(&self, event: &Event) -> Option<u8>
        ensures { result ≡ verdict self.now (event_of event.now) }
    {
        match event {
            Event::Up { peer } => unless_down(self.peers.find(peer)),
            Event::Down { peer } => unless_up(self.peers.find(peer)),
            Event::Refresh { peer } => unless_up(self.peers.find(peer)),
            Event::Receive { peer } => unless_up(self.peers.find(peer)),
            Event::Orf { peer, message } => orf_refusal(self.peers.find(peer), message),
            Event::Policy { peer, policy } => self.policy_refusal(self.peers.find(peer), policy),
            Event::List { name, .. } => {
                unless_known(
                    find_named(self.policies.lists.as_slice(), name).is_some(),
                    6,
                )
            }
            Event::Paths { prefix, paths } => {
                self.paths_refusal(prefix, paths.get().as_slice())
            },
            Event::Withdraw { prefix } => unless_known(self.routes.contains(prefix), 4),
        }
    }

    fn policy_refusal(&self, seat: Option<&PeerState>, policy: &Option<Name>) -> Option<u8>
        ensures { result ≡ of_peer (option_map (λ s. s.now) seat.entry) (λ _. policy_refusal self.now policy.now) }
    {
        if seat.is_none() {
            return Some(1);
        }
        let Some(name) = policy else {
            return None;
        };
        unless_known(find_named(self.named.as_slice(), name).is_some(), 5)
    }

    fn paths_refusal(&self, prefix: &Prefix, given: &[Given]) -> Option<u8>
        ensures { result ≡ paths_refusal self.now prefix.now given.now }
    {
        if !self.are_senders_known(given) {
            return Some(1);
        }
        if ids_repeat(given) {
            return Some(7);
        }
        if given.len() > 8 {
            return Some(8);
        }
        if self.routes.is_overfull_with(prefix, given.len()) {
            return Some(9);
        }
        None
    }

    fn are_senders_known(&self, given: &[Given]) -> bool
        ensures { result ≡ list_all (is_sender_known self.now.peers) given.now }
    {
        for path in given {
            if !self.is_sender_known(path) {
                return false;
            }
        }
        true
    }

    fn is_sender_known(&self, path: &Given) -> bool
        ensures { result ≡ is_sender_known self.now.peers path.now }
    {
        match &path.from {
            None => true,
            Some(name) => self.peers.find(name).is_some(),
        }
    }
}

fn unless_known(known: bool, number: u8) -> Option<u8>
    ensures { result ≡ unless_known known number }
{
    if known { None } else { Some(number) }
}

fn unless_down(seat: Option<&PeerState>) -> Option<u8>
    ensures { result ≡ of_peer (option_map (λ s. s.now) seat.entry) unless_down }
{
    let Some(seat) = seat else {
        return Some(1);
    };
    if seat.up { Some(2) } else { None }
}

fn unless_up(seat: Option<&PeerState>) -> Option<u8>
    ensures { result ≡ of_peer (option_map (λ s. s.now) seat.entry) unless_up }
{
    let Some(seat) = seat else {
        return Some(1);
    };
    if seat.up { None } else { Some(3) }
}

fn orf_refusal(seat: Option<&PeerState>, message: &OrfMessage) -> Option<u8>
    ensures { result ≡ of_peer (option_map (λ s. s.now) seat.entry) (orf_refusal (orf_seen message.entry.now)) }
{
    let Some(seat) = seat else {
        return Some(1);
    };
    if !seat.up {
        return Some(3);
    }
    if !seat.peer.orf {
        return Some(11);
    }
    if length_after(&seat.waiting, message.entries.as_slice()) > 1024 {
        return Some(12);
    }
    None
}

/// Whether two of these paths have one identifier.
fn ids_repeat(given: &[Given]) -> bool
    ensures { result ≡ repeats given_id given.now }
{
    for i in 0..given.len() {
        let path = &given[i];
        if has_id(&given[i + 1..], path.id) {
            return true;
        }
    }
    false
}

fn has_id(given: &[Given], id: u32) -> bool
    ensures { result ≡ list_any (λ (g : GivenPath). given_id g == id) given.now }
{
    for path in given {
        if path.id == id {
            return true;
        }
    }
    false
}
