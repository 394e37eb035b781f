//! What the tables of a configuration say.

ghost use Rattle.toml.specs.View.{view};
ghost use Rattle.ug_config.specs.Gives.{Gives, GivesItems};
ghost use Rattle.ug_config.specs.Readings.{tables, lists, maps, policies, peers};

use crate::document::tables_at;
use crate::each::read_each;
use crate::items::Items;
use crate::local::read_local;
use crate::named::{Lists, Maps};
use crate::peers::Peers;
use crate::policies::PolicyTables;
use crate::refusals::{ConfigRefusal, refusal};
use crate::rows::document_fields;
use crate::rule::Rule;
use std::alloc::Global;
use std::marker::Model;
use toml::Value;
use ug_outbound::{Local, NamedPolicy, Peer};
use ug_policy::ListEntry;
use ug_types::Named;

/// What the tables of a configuration say, in their order.
#[derive(Drop)]
pub struct Setup {
    pub local: Local,
    pub lists: Vec<Named<Items<ListEntry>>>,
    pub maps: Vec<Named<Items<Rule>>>,
    pub policies: Vec<NamedPolicy>,
    pub peers: Vec<Peer>,
}

impl Model for Setup {
    ghost use Rattle.ug_config.specs.Readings.{Tables};

    ghost Value = { Tables };

    ghost view = { λ s. record { local = s.local; lists = s.lists.items; maps = s.maps.items; policies = s.policies.items; peers = s.peers.items } };
}

/// Reads the tables of a document, as far as each can be read by itself.
#[tactic(auto, unfolding(crate::specs::Readings::tables))]
pub fn read_tables(alloc: Global, document: &Value) -> Result<Setup, ConfigRefusal>
    ensures { Gives result (tables (view document.now)) }
{
    document_fields(alloc, document)?;
    let Some(own) = document.get("local") else {
        return Err(refusal(alloc, 2, "", "local"));
    };
    let local = read_local(alloc, own)?;
    let lists = read_lists(alloc, document)?;
    let maps = read_maps(alloc, document)?;
    let policies = read_policies(alloc, document)?;
    let peers = read_peers(alloc, document)?;
    Ok(Setup {
        local,
        lists,
        maps,
        policies,
        peers,
    })
}

#[tactic(auto, unfolding(crate::specs::Readings::lists))]
fn read_lists(
    alloc: Global,
    document: &Value,
) -> Result<Vec<Named<Items<ListEntry>>>, ConfigRefusal>
    ensures { GivesItems result (lists (view document.now)) }
{
    read_each::<Lists>(alloc, "prefix_list", tables_at(document, "prefix_list"))
}

#[tactic(auto, unfolding(crate::specs::Readings::maps))]
fn read_maps(alloc: Global, document: &Value) -> Result<Vec<Named<Items<Rule>>>, ConfigRefusal>
    ensures { GivesItems result (maps (view document.now)) }
{
    read_each::<Maps>(alloc, "route_map", tables_at(document, "route_map"))
}

#[tactic(auto, unfolding(crate::specs::Readings::policies))]
fn read_policies(alloc: Global, document: &Value) -> Result<Vec<NamedPolicy>, ConfigRefusal>
    ensures { GivesItems result (policies (view document.now)) }
{
    read_each::<PolicyTables>(alloc, "policy", tables_at(document, "policy"))
}

#[tactic(auto, unfolding(crate::specs::Readings::peers))]
fn read_peers(alloc: Global, document: &Value) -> Result<Vec<Peer>, ConfigRefusal>
    ensures { GivesItems result (peers (view document.now)) }
{
    read_each::<Peers>(alloc, "peer", tables_at(document, "peer"))
}
