//! Peers.

ghost use Rattle.std.specs.Prelude.{◌≡◌, codes, IfOk};
ghost use Rattle.ug_types.specs.declared.family.Family.TheVariants.{V4};
ghost use Rattle.ug_config.specs.Readings.{address, peer, peer_of};

use crate::document::family_at;
use crate::each::TableReader;
use crate::fields::{Field, name_at};
use crate::local::{address, flag, number, prefix};
use crate::named::own_name;
use crate::refusals::ConfigRefusal;
use crate::rows::peer_fields;
use std::alloc::Global;
use toml::Value;
use ug_outbound::Peer;
use ug_types::{Family, Name, NoMemory, RouterId};

/// The peers.
pub struct Peers;

impl TableReader for Peers {
    type Item = Peer;

    ghost reading = { peer };

    #[tactic(auto, using(crate::proofs::Sound::router_read), unfolding(crate::specs::Readings::peer))]
    fn read(alloc: Global, way: &str, table: &Value) -> Result<Peer, ConfigRefusal> {
        let family = family_at(table);
        let fields = peer_fields(alloc, family, way, table)?;
        let name = own_name(alloc, way, fields.as_slice())?;
        let peer = peer_of(alloc, family, fields.as_slice(), name)?;
        Ok(peer)
    }
}

fn peer_of(alloc: Global, family: Family, fields: &[Field], name: Name) -> Result<Peer, NoMemory>
    requires router { (address (codes "router_id") fields.now).family ≡ V4 }
    ensures { IfOk result (λ peer. peer ≡ peer_of family fields.now name) }
{
    Ok(Peer {
        name,
        asn: number(fields, "as"),
        router_id: RouterId::of(address(fields, "router_id")),
        family,
        address: address(fields, "address"),
        local_address: address(fields, "local_address"),
        subnet: prefix(fields, "subnet"),
        policy: name_at(alloc, fields, "policy")?,
        client: flag(fields, "client"),
        next_hop_self: flag(fields, "next_hop_self"),
        as_override: flag(fields, "as_override"),
        remove_private_as: flag(fields, "remove_private_as"),
        send_community: flag(fields, "send_community"),
        add_path: flag(fields, "add_path"),
        extended: flag(fields, "extended"),
        enhanced_refresh: flag(fields, "enhanced_refresh"),
        orf: flag(fields, "orf"),
    })
}
