//! Whether a world can be made of some parts.

ghost use Rattle.std.specs.Prelude.{◌≡◌, map};
ghost use Rattle.std.specs.List.{list_all};
ghost use Rattle.ug_policy.specs.Rules.{rule_of, MapRule};
ghost use Rattle.ug_world.specs.Names.{is_name_among, are_distinct};
ghost use Rattle.ug_world.specs.Parts.{is_between, is_ipv4, is_local_good, are_few, names_of, peer_names, is_one_of, may_filter, is_peer_good, is_policy_good, is_map_good, is_good};

use crate::parts::WorldParts;
use ug_outbound::{Local, NamedPolicy, Peer};
use ug_policy::{MapEntry, NamedList, NamedMap};
use ug_types::{Addr, Family, Name, Named};

impl WorldParts {
    /// Whether a world can be made of them, which `World::new` wants: names are distinct, every name that is used is
    /// there, each value lies in its range, and there are at most 64 each of lists, maps, policies and peers. It takes
    /// no memory.
    pub fn is_good(&self) -> bool
        ensures { result ≡ is_good self.now }
    {
        let lists = self.lists.as_slice();
        let maps = self.maps.as_slice();
        let policies = self.policies.as_slice();
        let peers = self.peers.as_slice();
        is_local_good(&self.local)
            && are_few(lists)
            && are_few(maps)
            && are_few(policies)
            && are_peers_few(peers)
            && are_maps_good(lists, maps)
            && are_policies_good(lists, maps, policies)
            && are_peers_good(policies, peers)
    }
}

/// Whether the speaker's AS is not 0, its identifiers are IPv4 addresses, and its numbers lie in their ranges.
fn is_local_good(local: &Local) -> bool
    ensures { result ≡ is_local_good local.now }
{
    local.asn >= 1
        && is_ipv4(local.router_id)
        && is_ipv4(local.cluster_id)
        && is_between(20, 100, local.queue_limit)
        && is_between(1, 4096, local.coalesce)
        && is_between(1, 1000, local.slow_after)
}

fn is_between(low: u32, high: u32, n: u32) -> bool
    ensures { result ≡ is_between low high n }
{
    low <= n && n <= high
}

fn is_ipv4(address: Addr) -> bool
    ensures { result ≡ is_ipv4 address }
{
    address.family == Family::V4
}

/// Whether there are at most 64, each of another name.
fn are_few<T>(values: &[Named<T>]) -> bool
    ensures { result ≡ are_few (names_of values.now) }
{
    are_distinct(values) && values.len() <= 64
}

fn are_distinct<T>(values: &[Named<T>]) -> bool
    ensures { result ≡ are_distinct (names_of values.now) }
{
    for i in 0..values.len() {
        let value = &values[i];
        if is_among(&values[i + 1..], &value.name) {
            return false;
        }
    }
    true
}

/// Whether one has that name.
fn is_among<T>(values: &[Named<T>], name: &Name) -> bool
    ensures { result ≡ is_name_among (names_of values.now) name.now }
{
    for value in values {
        if value.name == *name {
            return true;
        }
    }
    false
}

/// Whether there are at most 64 peers, each of another name.
fn are_peers_few(peers: &[Peer]) -> bool
    ensures { result ≡ are_few (peer_names peers.now) }
{
    are_peers_distinct(peers) && peers.len() <= 64
}

fn are_peers_distinct(peers: &[Peer]) -> bool
    ensures { result ≡ are_distinct (peer_names peers.now) }
{
    for i in 0..peers.len() {
        let peer = &peers[i];
        if is_peer_among(&peers[i + 1..], &peer.name) {
            return false;
        }
    }
    true
}

/// Whether a peer has that name.
fn is_peer_among(peers: &[Peer], name: &Name) -> bool
    ensures { result ≡ is_name_among (peer_names peers.now) name.now }
{
    for peer in peers {
        if peer.name == *name {
            return true;
        }
    }
    false
}

/// Whether no name is given, or that of one of these.
fn is_one_of<T>(values: &[Named<T>], name: &Option<Name>) -> bool
    ensures { result ≡ is_one_of (names_of values.now) name.now }
{
    match name {
        None => true,
        Some(name) => is_among(values, name),
    }
}

/// Whether each list that a map names is there.
fn are_maps_good(lists: &[NamedList], maps: &[NamedMap]) -> bool
    ensures { result ≡ list_all (is_map_good (names_of lists.now)) maps.now }
{
    for map in maps {
        if !are_lists_there(lists, map.value.entries()) {
            return false;
        }
    }
    true
}

/// Whether each list that the entries name is there.
fn are_lists_there(lists: &[NamedList], entries: &[MapEntry]) -> bool
    ensures { result ≡ list_all (λ (r : MapRule). is_one_of (names_of lists.now) r.match_prefix_list) (map rule_of entries.now) }
{
    for entry in entries {
        if !is_one_of(lists, &entry.match_prefix_list) {
            return false;
        }
    }
    true
}

/// Whether each list and each map that a policy names is there.
fn are_policies_good(lists: &[NamedList], maps: &[NamedMap], policies: &[NamedPolicy]) -> bool
    ensures { result ≡ list_all (is_policy_good (names_of lists.now) (names_of maps.now)) policies.now }
{
    for policy in policies {
        if !(is_one_of(lists, &policy.value.list) && is_one_of(maps, &policy.value.map)) {
            return false;
        }
    }
    true
}

fn are_peers_good(policies: &[NamedPolicy], peers: &[Peer]) -> bool
    ensures { result ≡ list_all (is_peer_good (names_of policies.now)) peers.now }
{
    for peer in peers {
        if !is_peer_good(policies, peer) {
            return false;
        }
    }
    true
}

/// Whether a peer isn't named `local`, its AS is not 0, its router id is an IPv4 address, its addresses and subnet are of
/// its family, only an IPv4 peer may filter, and its policy is there.
fn is_peer_good(policies: &[NamedPolicy], peer: &Peer) -> bool
    ensures { result ≡ is_peer_good (names_of policies.now) peer.now }
{
    peer.name.text() != "local"
        && peer.asn >= 1
        && is_ipv4(peer.router_id.address())
        && peer.address.family == peer.family
        && peer.local_address.family == peer.family
        && peer.subnet.family == peer.family
        && may_filter(peer.family, peer.orf)
        && is_one_of(policies, &peer.policy)
}

fn may_filter(family: Family, orf: bool) -> bool
    ensures { result ≡ may_filter family orf }
{
    match family {
        Family::V4 => true,
        Family::V6 => !orf,
    }
}
