//! What a world tells of itself.

ghost use Rattle.std.specs.Prelude.{◌≡◌, ◌<◌, Some, None, length, slice_get, IsSome, IfSome, IfNone, MatchOption, option_copied};
ghost use Rattle.std.specs.Option.{option_map};
ghost use Rattle.std.specs.List.Sorted.{IsStrictlySortedBy};
ghost use Rattle.std.specs.Map.{lookup, keys_of};
ghost use Rattle.ug_types.specs.Ip.{IpPrefix};
ghost use Rattle.ug_types.specs.Keys.{prefix_cmp, same_prefix};
ghost use Rattle.ug_policy.specs.Filters.{IsFilter};
ghost use Rattle.ug_world.specs.World.{paths_to, peer_named, policy_named};
ghost use Rattle.ug_world.specs.Orders.{IsAfter, IsNotAfter};
ghost use Rattle.ug_world.specs.Kept.{IsPlaceOf};
ghost use Rattle.ug_world.specs.Rows.{rows_behind};

use crate::peer_state::PeerState;
use crate::peers::place_of;
use crate::rows::Rows;
use crate::world::World;
use ug_outbound::{Local, Peer, Policies, Policy};
use ug_policy::{EntryList, find_named};
use ug_types::{Name, Path, PeerId, Prefix};

impl World {
    /// The speaker's own settings.
    pub fn local(&self) -> &Local
        ensures { result.now ≡ self.now.local }
    {
        &self.local
    }

    /// The prefix lists and the route maps, by name.
    pub fn policies(&self) -> &Policies
        ensures { result.now ≡ self.now.tables }
    {
        &self.policies
    }

    /// How many events were accepted.
    pub fn version(&self) -> u64
        ensures { result ≡ self.now.version }
    {
        self.version
    }

    /// The number of peers.
    pub fn peers(&self) -> u32
        ensures { result ≡ length self.now.peers }
    {
        let count = self.peers.as_slice().len();
        count as u32
    }

    /// A peer with what its sessions made of it.
    fn seat(&self, id: PeerId) -> &PeerState
        requires { id < length self.now.peers }
        ensures { slice_get self.now.peers id ≡ Some result.now }
    {
        &self.peers.as_slice()[id as usize]
    }

    /// The peer at a place, counted from 0 in configured order.
    pub fn peer(&self, id: PeerId) -> &Peer
        requires { id < length self.now.peers }
        ensures { option_map (λ s. s.peer) (slice_get self.now.peers id) ≡ Some result.now }
    {
        &self.seat(id).peer
    }

    /// Its present policy, which names no list and no map where it has none.
    pub fn policy(&self, id: PeerId) -> &Policy
        requires { id < length self.now.peers }
        ensures { option_map (λ s. policy_named self.now.policies s.peer.policy) (slice_get self.now.peers id) ≡ Some result.now }
    {
        let seat = self.seat(id);
        self.policy_named(&seat.peer.policy)
    }

    fn policy_named(&self, name: &Option<Name>) -> &Policy
        ensures { result.now ≡ policy_named self.now.policies name.now }
    {
        let Some(name) = name else {
            return &self.none;
        };
        match find_named(self.named.as_slice(), name) {
            Some(policy) => policy,
            None => &self.none,
        }
    }

    /// Whether it is up.
    pub fn is_up(&self, id: PeerId) -> bool
        requires { id < length self.now.peers }
        ensures { option_map (λ s. s.up) (slice_get self.now.peers id) ≡ Some result }
    {
        self.seat(id).up
    }

    /// How many sessions it has had: the number of its present or last one, and 0 before the first.
    pub fn session(&self, id: PeerId) -> u32
        requires { id < length self.now.peers }
        ensures { option_map (λ s. s.sessions) (slice_get self.now.peers id) ≡ Some result }
    {
        self.seat(id).sessions
    }

    /// The entries of the filter that is in force at it.
    pub fn filter(&self, id: PeerId) -> &EntryList
        requires { id < length self.now.peers }
        ensures entries { option_map (λ s. s.filter) (slice_get self.now.peers id) ≡ Some result.now.items }
        ensures rising { IsFilter result.now.items }
    {
        self.seat(id).filter.entries()
    }

    /// The place of the peer of that name; None exactly where there is none.
    pub fn peer_named(&self, name: &Name) -> Option<PeerId>
        ensures { MatchOption result (peer_named self.now.peers name.now ≡ None) (IsPlaceOf self.now.peers name.now) }
    {
        match place_of(self.peers.as_slice(), name) {
            Some(place) => Some(place as u32),
            None => None,
        }
    }

    /// The paths of a prefix, the best first; empty exactly where it has none.
    pub fn paths(&self, prefix: &Prefix) -> &[Path]
        ensures { result.now ≡ paths_to self.now.routes prefix.now }
    {
        self.routes.paths(prefix)
    }

    /// The least prefix with paths above the given one, or the first; None exactly where there is none.
    pub fn prefix_after(&self, prefix: Option<&Prefix>) -> Option<Prefix>
        ensures there { IfSome result (λ p. IsSome (lookup (same_prefix p) self.now.routes)) }
        ensures above { IfSome result (λ p. IsAfter (option_copied prefix.entry) p) }
        ensures least { IfSome result (λ p. (q : IpPrefix) → IsAfter (option_copied prefix.entry) q → IsSome (lookup (same_prefix q) self.now.routes) → IsNotAfter p q) }
        ensures none { IfNone result ((q : IpPrefix) → IsAfter (option_copied prefix.entry) q → lookup (same_prefix q) self.now.routes ≡ None) }
    {
        self.routes.prefix_after(prefix)
    }

    /// The rows behind a prefix, or all of them, in the order of their prefixes, each as its prefix and its paths. No list of
    /// them is made: the first takes one search, and each further one a step.
    pub fn rows_behind(&self, prefix: Option<&Prefix>) -> Rows<'_>
        ensures rows { result ≡ rows_behind (option_copied prefix.entry) self.now.routes }
        ensures ascending { IsStrictlySortedBy prefix_cmp (keys_of self.now.routes) }
    {
        self.routes.rows_behind(prefix)
    }
}
