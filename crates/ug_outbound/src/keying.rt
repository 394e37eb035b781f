//! The group key of a peer.

ghost use Rattle.std.specs.Prelude.{◌≡◌, Some, None, IfOk, if◌then◌else◌};
ghost use Rattle.ug_policy.specs.Filters.{IsFilter};
ghost use Rattle.ug_outbound.specs.Keys.{kind_of, group_key_of, limit_of};

use crate::key::GroupKey;
use crate::kind::Kind;
use crate::peer::Peer;
use crate::policy::Policy;
use crate::settings::Local;
use std::alloc::Global;
use ug_policy::{EntryList, Filter};
use ug_types::{Name, NoMemory};

impl GroupKey {
    /// How many bytes a message may have: 65,535 where extended messages are in use, and 4,096 otherwise.
    pub fn limit(&self) -> usize
        ensures { result ≡ limit_of self.now }
    {
        if self.extended { 65535 } else { 4096 }
    }

    /// An equal key of its own.
    pub fn copy(&self, alloc: Global) -> Result<GroupKey, NoMemory>
        ensures { IfOk result (λ copy. copy ≡ self.now) }
    {
        Ok(GroupKey {
            kind: self.kind,
            family: self.family,
            list: copy_name(alloc, &self.list)?,
            map: copy_name(alloc, &self.map)?,
            next_hop_self: self.next_hop_self,
            as_override: self.as_override,
            remove_private_as: self.remove_private_as,
            send_community: self.send_community,
            add_path: self.add_path,
            extended: self.extended,
            enhanced_refresh: self.enhanced_refresh,
            filter: self.filter.copy(alloc)?,
        })
    }
}

/// The group key of a peer with a policy and a filter of its own, whose entries stand in ascending order of their
/// sequence numbers.
pub fn key_of(
    alloc: Global,
    local: &Local,
    peer: &Peer,
    policy: &Policy,
    filter: &EntryList,
) -> Result<GroupKey, NoMemory>
    requires rising { IsFilter filter.now.items }
    ensures { IfOk result (λ key. key ≡ group_key_of local.now peer.now policy.now filter.now.items) }
{
    Ok(GroupKey {
        kind: kind_of(local, peer),
        family: peer.family,
        list: copy_name(alloc, &policy.list)?,
        map: copy_name(alloc, &policy.map)?,
        next_hop_self: peer.next_hop_self,
        as_override: overridden_as(peer),
        remove_private_as: peer.remove_private_as,
        send_community: peer.send_community,
        add_path: peer.add_path,
        extended: peer.extended,
        enhanced_refresh: peer.enhanced_refresh,
        filter: Filter::new(filter.copy(alloc)?),
    })
}

fn kind_of(local: &Local, peer: &Peer) -> Kind
    ensures { result ≡ kind_of local.now peer.now }
{
    if peer.asn != local.asn {
        return Kind::External;
    }
    if peer.client {
        Kind::Client
    } else {
        Kind::Internal
    }
}

/// The AS that the local one replaces, where the peer is configured so.
fn overridden_as(peer: &Peer) -> Option<u32>
    ensures { result ≡ (if peer.now.as_override then Some peer.now.asn else None) }
{
    if peer.as_override {
        Some(peer.asn)
    } else {
        None
    }
}

fn copy_name(alloc: Global, name: &Option<Name>) -> Result<Option<Name>, NoMemory>
    ensures { IfOk result (λ copy. copy ≡ name.now) }
{
    match name {
        None => Ok(None),
        Some(name) => Ok(Some(name.copy(alloc)?)),
    }
}
