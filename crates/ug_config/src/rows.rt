//! Which fields each table has, in the order in which they are checked.

ghost use Rattle.std.specs.Prelude.{[], codes};
ghost use Rattle.toml.specs.View.{view};
ghost use Rattle.ug_config.specs.Gives.{GivesItems};
ghost use Rattle.ug_config.specs.Tables.{fields};
ghost use Rattle.ug_config.specs.Rows.{document_rows, local_rows, named_rows, list_entry_rows, map_entry_rows, policy_rows, peer_rows};

use crate::fields::Field;
use crate::kind::{Kind, Need, Row};
use crate::refusals::ConfigRefusal;
use crate::table::read_table;
use std::alloc::Global;
use toml::Value;
use ug_types::Family;

/// The document itself.
const DOCUMENT: [Row; 5] = [
    Row {
        name: "local",
        kind: Kind::Table,
        need: Need::Required,
    },
    Row {
        name: "prefix_list",
        kind: Kind::Tables,
        need: Need::Optional,
    },
    Row {
        name: "route_map",
        kind: Kind::Tables,
        need: Need::Optional,
    },
    Row {
        name: "policy",
        kind: Kind::Tables,
        need: Need::Optional,
    },
    Row {
        name: "peer",
        kind: Kind::Tables,
        need: Need::Optional,
    },
];

/// The speaker's own settings.
const LOCAL: [Row; 6] = [
    Row {
        name: "as",
        kind: Kind::Number(1, 4294967295),
        need: Need::Required,
    },
    Row {
        name: "router_id",
        kind: Kind::Ipv4,
        need: Need::Required,
    },
    Row {
        name: "cluster_id",
        kind: Kind::Ipv4,
        need: Need::Optional,
    },
    Row {
        name: "queue_limit",
        kind: Kind::Number(20, 100),
        need: Need::Number(40),
    },
    Row {
        name: "coalesce",
        kind: Kind::Number(1, 4096),
        need: Need::Number(1),
    },
    Row {
        name: "slow_after",
        kind: Kind::Number(1, 1000),
        need: Need::Number(16),
    },
];

/// A prefix list, and a route map.
const NAMED: [Row; 2] = [
    Row {
        name: "name",
        kind: Kind::Name,
        need: Need::Required,
    },
    Row {
        name: "entry",
        kind: Kind::Tables,
        need: Need::Optional,
    },
];

/// An entry of a prefix list.
const LIST_ENTRY: [Row; 5] = [
    Row {
        name: "seq",
        kind: Kind::Number(1, 4294967295),
        need: Need::Required,
    },
    Row {
        name: "action",
        kind: Kind::Action,
        need: Need::Required,
    },
    Row {
        name: "prefix",
        kind: Kind::Ipv4Prefix,
        need: Need::Required,
    },
    Row {
        name: "ge",
        kind: Kind::Length,
        need: Need::Optional,
    },
    Row {
        name: "le",
        kind: Kind::Length,
        need: Need::Optional,
    },
];

/// An entry of a route map.
const MAP_ENTRY: [Row; 15] = [
    Row {
        name: "seq",
        kind: Kind::Number(1, 4294967295),
        need: Need::Required,
    },
    Row {
        name: "action",
        kind: Kind::Action,
        need: Need::Required,
    },
    Row {
        name: "on_match",
        kind: Kind::OnMatch,
        need: Need::Optional,
    },
    Row {
        name: "match_prefix_list",
        kind: Kind::Name,
        need: Need::Optional,
    },
    Row {
        name: "match_community",
        kind: Kind::Community,
        need: Need::Optional,
    },
    Row {
        name: "match_origin",
        kind: Kind::Origin,
        need: Need::Optional,
    },
    Row {
        name: "match_med",
        kind: Kind::Number(0, 4294967295),
        need: Need::Optional,
    },
    Row {
        name: "match_local_pref",
        kind: Kind::Number(0, 4294967295),
        need: Need::Optional,
    },
    Row {
        name: "set_origin",
        kind: Kind::Origin,
        need: Need::Optional,
    },
    Row {
        name: "set_next_hop",
        kind: Kind::Ipv4,
        need: Need::Optional,
    },
    Row {
        name: "set_med",
        kind: Kind::Number(0, 4294967295),
        need: Need::Optional,
    },
    Row {
        name: "set_local_pref",
        kind: Kind::Number(0, 4294967295),
        need: Need::Optional,
    },
    Row {
        name: "set_prepend",
        kind: Kind::Numbers,
        need: Need::Optional,
    },
    Row {
        name: "set_communities",
        kind: Kind::Communities,
        need: Need::Optional,
    },
    Row {
        name: "add_communities",
        kind: Kind::Communities,
        need: Need::Optional,
    },
];

/// A policy.
const POLICY: [Row; 3] = [
    Row {
        name: "name",
        kind: Kind::Name,
        need: Need::Required,
    },
    Row {
        name: "prefix_list",
        kind: Kind::Name,
        need: Need::Optional,
    },
    Row {
        name: "route_map",
        kind: Kind::Name,
        need: Need::Optional,
    },
];

/// A peer.
const PEER: [Row; 17] = [
    Row {
        name: "name",
        kind: Kind::PeerName,
        need: Need::Required,
    },
    Row {
        name: "as",
        kind: Kind::Number(1, 4294967295),
        need: Need::Required,
    },
    Row {
        name: "router_id",
        kind: Kind::Ipv4,
        need: Need::Required,
    },
    Row {
        name: "family",
        kind: Kind::Family,
        need: Need::Ipv4,
    },
    Row {
        name: "address",
        kind: Kind::Address,
        need: Need::Required,
    },
    Row {
        name: "local_address",
        kind: Kind::Address,
        need: Need::Required,
    },
    Row {
        name: "subnet",
        kind: Kind::Subnet,
        need: Need::Required,
    },
    Row {
        name: "policy",
        kind: Kind::Name,
        need: Need::Optional,
    },
    Row {
        name: "client",
        kind: Kind::Flag,
        need: Need::False,
    },
    Row {
        name: "next_hop_self",
        kind: Kind::Flag,
        need: Need::False,
    },
    Row {
        name: "as_override",
        kind: Kind::Flag,
        need: Need::False,
    },
    Row {
        name: "remove_private_as",
        kind: Kind::Flag,
        need: Need::False,
    },
    Row {
        name: "send_community",
        kind: Kind::Flag,
        need: Need::False,
    },
    Row {
        name: "add_path",
        kind: Kind::Flag,
        need: Need::False,
    },
    Row {
        name: "extended",
        kind: Kind::Flag,
        need: Need::False,
    },
    Row {
        name: "enhanced_refresh",
        kind: Kind::Flag,
        need: Need::False,
    },
    Row {
        name: "orf",
        kind: Kind::Ipv4Flag,
        need: Need::False,
    },
];

/// The fields of the document itself.
#[tactic(auto, unfolding(crate::specs::Rows::document_rows))]
pub fn document_fields(alloc: Global, table: &Value) -> Result<Vec<Field>, ConfigRefusal>
    ensures { GivesItems result (fields Family.V4 [] document_rows (view table.now)) }
{
    read_table(alloc, Family::V4, "", &DOCUMENT, table)
}

/// The fields of the speaker's own settings.
#[tactic(auto, unfolding(crate::specs::Rows::local_rows))]
pub fn local_fields(alloc: Global, table: &Value) -> Result<Vec<Field>, ConfigRefusal>
    ensures { GivesItems result (fields Family.V4 (codes "local.") local_rows (view table.now)) }
{
    read_table(alloc, Family::V4, "local.", &LOCAL, table)
}

/// The fields of a prefix list or a route map.
#[tactic(auto, unfolding(crate::specs::Rows::named_rows))]
pub fn named_fields(alloc: Global, way: &str, table: &Value) -> Result<Vec<Field>, ConfigRefusal>
    ensures { GivesItems result (fields Family.V4 way.now named_rows (view table.now)) }
{
    read_table(alloc, Family::V4, way, &NAMED, table)
}

/// The fields of an entry of a prefix list.
#[tactic(auto, unfolding(crate::specs::Rows::list_entry_rows))]
pub fn list_entry_fields(
    alloc: Global,
    way: &str,
    table: &Value,
) -> Result<Vec<Field>, ConfigRefusal>
    ensures { GivesItems result (fields Family.V4 way.now list_entry_rows (view table.now)) }
{
    read_table(alloc, Family::V4, way, &LIST_ENTRY, table)
}

/// The fields of an entry of a route map.
#[tactic(auto, unfolding(crate::specs::Rows::map_entry_rows))]
pub fn map_entry_fields(
    alloc: Global,
    way: &str,
    table: &Value,
) -> Result<Vec<Field>, ConfigRefusal>
    ensures { GivesItems result (fields Family.V4 way.now map_entry_rows (view table.now)) }
{
    read_table(alloc, Family::V4, way, &MAP_ENTRY, table)
}

/// The fields of a policy.
#[tactic(auto, unfolding(crate::specs::Rows::policy_rows))]
pub fn policy_fields(alloc: Global, way: &str, table: &Value) -> Result<Vec<Field>, ConfigRefusal>
    ensures { GivesItems result (fields Family.V4 way.now policy_rows (view table.now)) }
{
    read_table(alloc, Family::V4, way, &POLICY, table)
}

/// The fields of a peer of that family.
#[tactic(auto, unfolding(crate::specs::Rows::peer_rows))]
pub fn peer_fields(
    alloc: Global,
    family: Family,
    way: &str,
    table: &Value,
) -> Result<Vec<Field>, ConfigRefusal>
    ensures { GivesItems result (fields family way.now peer_rows (view table.now)) }
{
    read_table(alloc, family, way, &PEER, table)
}
