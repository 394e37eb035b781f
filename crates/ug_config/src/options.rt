//! Names that are used, and options that are not for every peer.

ghost use Rattle.ug_config.specs.Checks.{unknown_list, unknown_in_map, unknown_in_policy, unknown_policy, wrong_as, wrong_client};

use crate::checking::{Check, check_each, refuse_where, way_into};
use crate::items::Items;
use crate::names::is_one_of;
use crate::refusals::ConfigRefusal;
use crate::rule::Rule;
use std::alloc::Global;
use ug_outbound::{NamedPolicy, Peer};
use ug_types::{Name, Named};

/// The list that an entry of a route map names is there.
#[derive(Drop)]
pub struct KnownList<'a> {
    pub array: &'a str,
    pub lists: &'a [Name],
}

impl<'a> Check for KnownList<'a> {
    type Item = Rule;

    ghost fault = { λ c. unknown_list c.array.now c.lists.now };

    #[tactic(auto, unfolding(crate::specs::Checks::unknown_list))]
    fn check(&self, alloc: Global, place: usize, rule: &Rule) -> Result<(), ConfigRefusal> {
        let fails = !is_one_of(self.lists, &rule.entry.match_prefix_list);
        refuse_where(fails, alloc, 6, self.array, place, "match_prefix_list")
    }
}

/// The lists that a route map names are there.
#[derive(Drop)]
pub struct KnownLists<'a> {
    pub lists: &'a [Name],
}

impl<'a> Check for KnownLists<'a> {
    type Item = Named<Items<Rule>>;

    ghost fault = { λ c. unknown_in_map c.lists.now };

    #[tactic(auto, unfolding(crate::specs::Checks::unknown_in_map))]
    fn check(
        &self,
        alloc: Global,
        place: usize,
        map: &Named<Items<Rule>>,
    ) -> Result<(), ConfigRefusal> {
        let way = way_into(alloc, "route_map", place)?;
        let array = format!(in alloc; "{way}entry")?;
        let known = KnownList {
            array: array.as_str(),
            lists: self.lists,
        };
        check_each(alloc, &known, map.value.as_slice())
    }
}

/// The list and the map that a policy names are there.
#[derive(Drop)]
pub struct KnownParts<'a> {
    pub lists: &'a [Name],
    pub maps: &'a [Name],
}

impl<'a> Check for KnownParts<'a> {
    type Item = NamedPolicy;

    ghost fault = { λ c. unknown_in_policy c.lists.now c.maps.now };

    #[tactic(auto, using(crate::proofs::Faults::none_first), unfolding(crate::specs::Checks::unknown_in_policy))]
    fn check(
        &self,
        alloc: Global,
        place: usize,
        policy: &NamedPolicy,
    ) -> Result<(), ConfigRefusal> {
        let no_list = !is_one_of(self.lists, &policy.value.list);
        refuse_where(no_list, alloc, 6, "policy", place, "prefix_list")?;
        let no_map = !is_one_of(self.maps, &policy.value.map);
        refuse_where(no_map, alloc, 6, "policy", place, "route_map")
    }
}

/// The policy that a peer names is there.
#[derive(Drop)]
pub struct KnownPolicy<'a> {
    pub policies: &'a [Name],
}

impl<'a> Check for KnownPolicy<'a> {
    type Item = Peer;

    ghost fault = { λ c. unknown_policy c.policies.now };

    #[tactic(auto, unfolding(crate::specs::Checks::unknown_policy))]
    fn check(&self, alloc: Global, place: usize, peer: &Peer) -> Result<(), ConfigRefusal> {
        let fails = !is_one_of(self.policies, &peer.policy);
        refuse_where(fails, alloc, 6, "peer", place, "policy")
    }
}

/// An internal peer has neither `as_override` nor `remove_private_as`.
#[derive(Drop)]
pub struct InternalOptions {
    pub local_as: u32,
}

impl Check for InternalOptions {
    type Item = Peer;

    ghost fault = { λ c. wrong_as c.local_as };

    #[tactic(auto, using(crate::proofs::Faults::none_first), unfolding(crate::specs::Checks::wrong_as))]
    fn check(&self, alloc: Global, place: usize, peer: &Peer) -> Result<(), ConfigRefusal> {
        if peer.asn != self.local_as {
            return Ok(());
        }
        refuse_where(peer.as_override, alloc, 8, "peer", place, "as_override")?;
        refuse_where(
            peer.remove_private_as,
            alloc,
            8,
            "peer",
            place,
            "remove_private_as",
        )
    }
}

/// An external peer is no client (RFC 4456).
#[derive(Drop)]
pub struct ExternalOptions {
    pub local_as: u32,
}

impl Check for ExternalOptions {
    type Item = Peer;

    ghost fault = { λ c. wrong_client c.local_as };

    #[tactic(auto, unfolding(crate::specs::Checks::wrong_client))]
    fn check(&self, alloc: Global, place: usize, peer: &Peer) -> Result<(), ConfigRefusal> {
        let fails = peer.client && peer.asn != self.local_as;
        refuse_where(fails, alloc, 9, "peer", place, "client")
    }
}
