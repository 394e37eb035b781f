//! The world of a speaker.

ghost use Rattle.std.specs.Prelude.{◌≡◌, IfOk};
ghost use Rattle.ug_world.specs.Parts.{IsGood, first_world};

use crate::fresh::fresh_peers;
use crate::loc_rib::LocRib;
use crate::parts::WorldParts;
use crate::peers::Peers;
use std::alloc::Global;
use std::marker::Model;
use ug_outbound::{Local, Policies, Policy, PolicyTable};
use ug_types::NoMemory;

/// A speaker's settings, its lists, maps and policies by name, its peers in configured order, and the routes that it has.
#[derive(Drop)]
pub struct World {
    pub(crate) local: Local,
    pub(crate) policies: Policies,
    pub(crate) named: PolicyTable,
    /// What stands for the policy of a peer that has none.
    pub(crate) none: Policy,
    pub(crate) peers: Peers,
    pub(crate) routes: LocRib,
    pub(crate) version: u64,
}

impl Model for World {
    ghost use Rattle.ug_world.specs.World.{World};
    ghost use Rattle.ug_world.specs.Kept.{IsWorld};

    ghost Value = { World };

    ghost view = { λ w. record { local = w.local; tables = w.policies; policies = w.named.items; peers = w.peers; routes = w.routes; version = w.version } };

    ghost invariant = { λ w. IsWorld w.none w.version w.peers w.policies.lists };
}

impl World {
    /// The world at the start: nobody is up, and there are no routes.
    pub fn new(alloc: Global, parts: WorldParts) -> Result<World, NoMemory>
        requires good { IsGood parts }
        ensures { IfOk result (λ w. w ≡ first_world parts) }
    {
        let peers = fresh_peers(alloc, parts.peers.into_vec())?;
        Ok(World {
            local: parts.local,
            policies: Policies {
                lists: parts.lists,
                maps: parts.maps,
            },
            named: parts.policies,
            none: Policy {
                list: None,
                map: None,
            },
            peers: Peers::new(peers),
            routes: LocRib::new(alloc),
            version: 0,
        })
    }
}
