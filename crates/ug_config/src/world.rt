//! The world that a configuration stands for.

ghost use Rattle.std.specs.Prelude.{◌≡◌, true, map, IfOk};
ghost use Rattle.std.specs.List.{list_all};
ghost use Rattle.ug_policy.specs.Lists.{seq_of};
ghost use Rattle.ug_policy.specs.Rules.{rule_of, rule_seq};
ghost use Rattle.ug_config.specs.Gives.{Gives};
ghost use Rattle.ug_config.specs.Checks.{setup};
ghost use Rattle.ug_config.specs.Worlds.{IsSound, in_order, is_list, is_map, world_of, config};

use crate::items::Items;
use crate::names::names_of;
use crate::read::read_setup;
use crate::refusals::ConfigRefusal;
use crate::rule::Rule;
use crate::setup::Setup;
use std::alloc::Global;
use ug_policy::{
    ListEntry, ListRefusal, ListTable, MapEntryList, MapRefusal, MapTable, PrefixList, RouteMap,
};
use ug_types::{NameList, Named, NoMemory, Sequence};
use ug_world::{World, WorldParts};

/// The world that a text stands for, or the first refusal.
#[tactic(auto, unfolding(crate::specs::Worlds::config))]
pub fn read_config(alloc: Global, bytes: &[u8]) -> Result<World, ConfigRefusal>
    ensures { Gives result (config bytes.now) }
{
    let setup = read_setup(alloc, bytes)?;
    let world = world_of(alloc, setup)?;
    Ok(world)
}

fn world_of(alloc: Global, setup: Setup) -> Result<World, NoMemory>
    requires { IsSound setup }
    ensures { IfOk result (λ world. world ≡ world_of setup) }
{
    let names = names_of(alloc, setup.lists.as_slice())?;
    let lists = lists_of(alloc, setup.lists)?;
    let maps = maps_of(alloc, setup.maps, &names)?;
    let parts = WorldParts {
        local: setup.local,
        lists,
        maps,
        policies: Sequence::from_vec(setup.policies),
        peers: Sequence::from_vec(setup.peers),
    };
    World::new(alloc, parts)
}

/// The prefix lists of entries that may come in any order.
fn lists_of(alloc: Global, read: Vec<Named<Items<ListEntry>>>) -> Result<ListTable, NoMemory>
    requires { list_all is_list read.items ≡ true }
    ensures { IfOk result (λ lists. lists.items ≡ map (in_order seq_of) read.items) }
{
    let mut lists = Vec::with_capacity(alloc, read.len())?;
    for list in read {
        lists.push(list_of(list)?)?;
    }
    Ok(Sequence::from_vec(lists))
}

fn list_of(read: Named<Items<ListEntry>>) -> Result<Named<PrefixList>, NoMemory>
    requires { is_list read ≡ true }
    ensures { IfOk result (λ list. list ≡ in_order seq_of read) }
{
    match PrefixList::new(Sequence::from_vec(read.value.into_vec())) {
        Ok(value) => Ok(Named {
            name: read.name,
            value,
        }),
        Err(ListRefusal::NoMemory) => Err(NoMemory),
        Err(ListRefusal::Refused { .. }) => unreachable!(),
    }
}

/// The route maps of entries that may come in any order.
fn maps_of(
    alloc: Global,
    read: Vec<Named<Items<Rule>>>,
    names: &NameList,
) -> Result<MapTable, NoMemory>
    requires { list_all (is_map names.now.items) read.items ≡ true }
    ensures { IfOk result (λ maps. maps.items ≡ map (in_order rule_seq) read.items) }
{
    let mut maps = Vec::with_capacity(alloc, read.len())?;
    for map in read {
        maps.push(map_of(alloc, map, names)?)?;
    }
    Ok(Sequence::from_vec(maps))
}

fn map_of(
    alloc: Global,
    read: Named<Items<Rule>>,
    names: &NameList,
) -> Result<Named<RouteMap>, NoMemory>
    requires { is_map names.now.items read ≡ true }
    ensures { IfOk result (λ map. map ≡ in_order rule_seq read) }
{
    let entries = entries_of(alloc, read.value.into_vec())?;
    match RouteMap::new(entries, names) {
        Ok(value) => Ok(Named {
            name: read.name,
            value,
        }),
        Err(MapRefusal::NoMemory) => Err(NoMemory),
        Err(MapRefusal::Refused { .. }) => unreachable!(),
    }
}

fn entries_of(alloc: Global, rules: Vec<Rule>) -> Result<MapEntryList, NoMemory>
    ensures { IfOk result (λ entries. map rule_of entries.items ≡ rules.items) }
{
    let mut entries = Vec::with_capacity(alloc, rules.len())?;
    for rule in rules {
        entries.push(rule.entry)?;
    }
    Ok(Sequence::from_vec(entries))
}
