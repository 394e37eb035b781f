//! An equal world, in memory of its own.

ghost use Rattle.std.specs.Prelude.{◌≡◌, IfOk};

use crate::peer_state::PeerState;
use crate::peers::Peers;
use crate::world::World;
use std::alloc::Global;
use ug_outbound::{NamedPolicy, Peer, Policies, Policy, PolicyTable};
use ug_policy::{ListTable, MapTable, NamedList, NamedMap};
use ug_types::{Name, NoMemory, Sequence};

impl World {
    /// An equal world, in memory of its own.
    pub fn copy(&self, alloc: Global) -> Result<World, NoMemory>
        ensures { IfOk result (λ copy. copy ≡ self.now) }
    {
        let policies = copy_tables(alloc, &self.policies)?;
        let named = copy_policies(alloc, &self.named)?;
        let none = copy_policy(alloc, &self.none)?;
        let peers = self.peers.copy(alloc)?;
        let routes = self.routes.copy()?;
        Ok(World {
            local: self.local,
            policies,
            named,
            none,
            peers,
            routes,
            version: self.version,
        })
    }
}

impl Peers {
    /// Equal peers, in memory of their own.
    fn copy(&self, alloc: Global) -> Result<Peers, NoMemory>
        ensures { IfOk result (λ copy. copy ≡ self.now) }
    {
        Ok(Peers::new(copy_peers(alloc, self.as_slice())?))
    }
}

fn copy_tables(alloc: Global, policies: &Policies) -> Result<Policies, NoMemory>
    ensures { IfOk result (λ copy. copy ≡ policies.now) }
{
    let lists = copy_lists(alloc, &policies.lists)?;
    let maps = copy_maps(alloc, &policies.maps)?;
    Ok(Policies { lists, maps })
}

fn copy_name(alloc: Global, name: &Option<Name>) -> Result<Option<Name>, NoMemory>
    ensures { IfOk result (λ copy. copy ≡ name.now) }
{
    match name {
        None => Ok(None),
        Some(name) => Ok(Some(name.copy(alloc)?)),
    }
}

fn copy_lists(alloc: Global, lists: &ListTable) -> Result<ListTable, NoMemory>
    ensures { IfOk result (λ copy. copy.items ≡ lists.now.items) }
{
    let mut copy = Vec::with_capacity(alloc, lists.len())?;
    for list in lists.as_slice() {
        copy.push(NamedList {
            name: list.name.copy(alloc)?,
            value: list.value.copy(alloc)?,
        })?;
    }
    Ok(Sequence::from_vec(copy))
}

fn copy_maps(alloc: Global, maps: &MapTable) -> Result<MapTable, NoMemory>
    ensures { IfOk result (λ copy. copy.items ≡ maps.now.items) }
{
    let mut copy = Vec::with_capacity(alloc, maps.len())?;
    for map in maps.as_slice() {
        copy.push(NamedMap {
            name: map.name.copy(alloc)?,
            value: map.value.copy(alloc)?,
        })?;
    }
    Ok(Sequence::from_vec(copy))
}

fn copy_policies(alloc: Global, policies: &PolicyTable) -> Result<PolicyTable, NoMemory>
    ensures { IfOk result (λ copy. copy.items ≡ policies.now.items) }
{
    let mut copy = Vec::with_capacity(alloc, policies.len())?;
    for policy in policies.as_slice() {
        copy.push(NamedPolicy {
            name: policy.name.copy(alloc)?,
            value: copy_policy(alloc, &policy.value)?,
        })?;
    }
    Ok(Sequence::from_vec(copy))
}

fn copy_policy(alloc: Global, policy: &Policy) -> Result<Policy, NoMemory>
    ensures { IfOk result (λ copy. copy ≡ policy.now) }
{
    Ok(Policy {
        list: copy_name(alloc, &policy.list)?,
        map: copy_name(alloc, &policy.map)?,
    })
}

fn copy_peers(alloc: Global, seats: &[PeerState]) -> Result<Vec<PeerState>, NoMemory>
    ensures { IfOk result (λ copy. copy.items ≡ seats.now) }
{
    let mut copy = Vec::with_capacity(alloc, seats.len())?;
    for seat in seats {
        copy.push(PeerState {
            peer: copy_peer(alloc, &seat.peer)?,
            up: seat.up,
            sessions: seat.sessions,
            filter: seat.filter.copy(alloc)?,
            waiting: seat.waiting.copy(alloc)?,
        })?;
    }
    Ok(copy)
}

fn copy_peer(alloc: Global, peer: &Peer) -> Result<Peer, NoMemory>
    ensures { IfOk result (λ copy. copy ≡ peer.now) }
{
    Ok(Peer {
        name: peer.name.copy(alloc)?,
        asn: peer.asn,
        router_id: peer.router_id,
        family: peer.family,
        address: peer.address,
        local_address: peer.local_address,
        subnet: peer.subnet,
        policy: copy_name(alloc, &peer.policy)?,
        client: peer.client,
        next_hop_self: peer.next_hop_self,
        as_override: peer.as_override,
        remove_private_as: peer.remove_private_as,
        send_community: peer.send_community,
        add_path: peer.add_path,
        extended: peer.extended,
        enhanced_refresh: peer.enhanced_refresh,
        orf: peer.orf,
    })
}
