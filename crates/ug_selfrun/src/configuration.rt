//! The configuration of the workload.

ghost use Rattle.std.specs.Prelude.{◌≡◌, ◌+◌, ◌%◌, ◌==◌, ◌≤◌, ◌∷◌, [], true, codes, IfOk, if◌then◌else◌};
ghost use Rattle.ug_types.specs.Names.{is_name};
ghost use Rattle.ug_selfrun.specs.Configuration.{workload_local, workload_peer, workload_world, peer_name, peers_from, on_link, list_entry, list_gl, policy_gp};

use crate::drawing::slash24;
use std::alloc::Global;
use ug_outbound::{Local, NamedPolicy, Peer, Policy};
use ug_policy::{EntryList, ListEntry, ListRefusal, NamedList, PrefixList};
use ug_types::{Addr, Family, Name, NoMemory, Prefix, RouterId, Sequence};
use ug_world::{World, WorldParts};

/// The world of so many peers, before any event.
#[tactic(auto, unfolding(crate::specs::Configuration::workload_world))]
pub(crate) fn world_of(alloc: Global, peers: u32) -> Result<World, NoMemory>
    requires { peers ≤ 16 }
    ensures { IfOk result (λ w. w ≡ workload_world peers) }
{
    let mut lists = Vec::new(alloc);
    lists.push(list_gl(alloc)?)?;
    let mut policies = Vec::new(alloc);
    policies.push(policy_gp(alloc)?)?;
    let parts = WorldParts {
        local: local(),
        lists: Sequence::from_vec(lists),
        maps: Sequence::new(alloc),
        policies: Sequence::from_vec(policies),
        peers: Sequence::from_vec(peers_of(alloc, peers)?),
    };
    World::new(alloc, parts)
}

fn local() -> Local
    ensures { result ≡ workload_local }
{
    Local {
        asn: 65001,
        router_id: Addr::v4(0x0AFF_0001),
        cluster_id: Addr::v4(0x0AFF_0001),
        queue_limit: 20,
        coalesce: 4,
        slow_after: 8,
    }
}

/// The name that bytes are.
fn name_of(alloc: Global, bytes: &[u8]) -> Result<Name, NoMemory>
    requires { is_name bytes.now ≡ true }
    ensures { IfOk result (λ name. name ≡ bytes.now) }
{
    let Some(name) = Name::read(alloc, bytes)? else {
        unreachable!()
    };
    Ok(name)
}

/// The name of a peer, counted from 1.
#[tactic(auto, using(crate::proofs::Names::peer_name_is), unfolding(crate::specs::Configuration::peer_name))]
pub(crate) fn peer_name(alloc: Global, number: u32) -> Result<Name, NoMemory>
    requires { number ≤ 16 }
    ensures { IfOk result (λ name. name ≡ peer_name number) }
{
    let text = format!(in alloc; "g{number}")?;
    name_of(alloc, text.as_bytes())
}

/// The name of the list.
pub(crate) fn name_gl(alloc: Global) -> Result<Name, NoMemory>
    ensures { IfOk result (λ name. name ≡ codes "gl") }
{
    name_of(alloc, b"gl")
}

/// The name of the policy.
pub(crate) fn name_gp(alloc: Global) -> Result<Name, NoMemory>
    ensures { IfOk result (λ name. name ≡ codes "gp") }
{
    name_of(alloc, b"gp")
}

/// The list by which peers with a policy are filtered.
fn list_gl(alloc: Global) -> Result<NamedList, NoMemory>
    ensures { IfOk result (λ list. list ≡ list_gl) }
{
    match PrefixList::new(entries_up_to(alloc, 24)?) {
        Ok(value) => Ok(NamedList {
            name: name_gl(alloc)?,
            value,
        }),
        Err(ListRefusal::NoMemory) => Err(NoMemory),
        Err(ListRefusal::Refused { number: _ }) => unreachable!(),
    }
}

/// The entries of the list: one, up to this length.
pub(crate) fn entries_up_to(alloc: Global, le: u8) -> Result<EntryList, NoMemory>
    ensures { IfOk result (λ entries. entries.items ≡ list_entry le ∷ []) }
{
    let mut entries = Vec::new(alloc);
    entries.push(ListEntry {
        seq: 10,
        permit: true,
        prefix: Prefix {
            family: Family::V4,
            bits: 10 << 120,
            len: 8,
        },
        ge: None,
        le: Some(le),
    })?;
    Ok(Sequence::from_vec(entries))
}

fn policy_gp(alloc: Global) -> Result<NamedPolicy, NoMemory>
    ensures { IfOk result (λ policy. policy ≡ policy_gp) }
{
    Ok(NamedPolicy {
        name: name_gp(alloc)?,
        value: Policy {
            list: Some(name_gl(alloc)?),
            map: None,
        },
    })
}

/// So many peers.
fn peers_of(alloc: Global, count: u32) -> Result<Vec<Peer>, NoMemory>
    requires { count ≤ 16 }
    ensures { IfOk result (λ peers. peers.items ≡ peers_from 1 count) }
{
    let mut peers = Vec::new(alloc);
    for i in 0..count {
        peers.push(peer(alloc, i + 1)?)?;
    }
    Ok(peers)
}

/// The peer of this number.
#[tactic(auto, unfolding(crate::specs::Configuration::workload_peer))]
fn peer(alloc: Global, number: u32) -> Result<Peer, NoMemory>
    requires { number ≤ 16 }
    ensures { IfOk result (λ p. p ≡ workload_peer number) }
{
    let link = 0x0AC8_0000 + number * 256;
    Ok(Peer {
        name: peer_name(alloc, number)?,
        asn: asn_of(number),
        router_id: RouterId::new(link + 2),
        family: Family::V4,
        address: Addr::v4(link + 2),
        local_address: Addr::v4(link + 1),
        subnet: slash24(0x0A_C800 + number),
        policy: None,
        client: false,
        next_hop_self: false,
        as_override: false,
        remove_private_as: false,
        send_community: false,
        add_path: number % 3 == 0,
        extended: false,
        enhanced_refresh: false,
        orf: false,
    })
}

/// The AS of a peer: the speaker's own where its number is even.
fn asn_of(number: u32) -> u32
    requires { number ≤ 16 }
    ensures { result ≡ (if number % 2 == 0 then 65001 else 65100 + number) }
{
    if number % 2 == 0 {
        65001
    } else {
        65100 + number
    }
}
