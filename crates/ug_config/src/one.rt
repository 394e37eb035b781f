//! The fixed configuration of the command `one`.

ghost use Rattle.std.specs.Prelude.{◌≡◌, IfOk};
ghost use Rattle.ug_config.specs.One.{p1, one_local, one_world};

use std::alloc::Global;
use ug_outbound::{Local, Peer};
use ug_types::{Addr, Family, Name, NoMemory, Prefix, RouterId, Sequence};
use ug_world::{World, WorldParts};

/// The world of a speaker of AS 65001 with one external peer, p1, and neither lists, maps nor policies. Nobody is up,
/// and there are no routes.
pub fn one_world(alloc: Global) -> Result<World, NoMemory>
    ensures { IfOk result (λ w. w ≡ one_world) }
{
    let mut peers = Vec::with_capacity(alloc, 1)?;
    peers.push(p1(alloc)?)?;
    let parts = WorldParts {
        local: one_local(),
        lists: Sequence::new(alloc),
        maps: Sequence::new(alloc),
        policies: Sequence::new(alloc),
        peers: Sequence::from_vec(peers),
    };
    World::new(alloc, parts)
}

fn one_local() -> Local
    ensures { result ≡ one_local }
{
    Local {
        asn: 65001,
        router_id: Addr::v4(0xC000_02FE),
        cluster_id: Addr::v4(0xC000_02FE),
        queue_limit: 40,
        coalesce: 1,
        slow_after: 16,
    }
}

fn p1(alloc: Global) -> Result<Peer, NoMemory>
    ensures { IfOk result (λ p. p ≡ p1) }
{
    let Some(name) = Name::read(alloc, b"p1")? else {
        unreachable!()
    };
    Ok(Peer {
        name,
        asn: 65002,
        router_id: RouterId::new(0xC000_0202),
        family: Family::V4,
        address: Addr::v4(0xC000_0202),
        local_address: Addr::v4(0xC000_0201),
        subnet: Prefix {
            family: Family::V4,
            bits: 0xC000_0200 << 96,
            len: 24,
        },
        policy: None,
        client: false,
        next_hop_self: false,
        as_override: false,
        remove_private_as: false,
        send_community: false,
        add_path: false,
        extended: false,
        enhanced_refresh: false,
        orf: false,
    })
}
