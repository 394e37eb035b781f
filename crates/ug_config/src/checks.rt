//! What is asked of all tables together, once each could be read.

ghost use Rattle.ug_world.specs.Parts.{names_of};
ghost use Rattle.ug_config.specs.Checks.{Passes, first_fault, repeated_name, repeated_in, repeated, unknown, over_limit, misplaced, fault};

use crate::checking::{check_each, refuse_array};
use crate::items::Items;
use crate::limits::{LongList, LongMap};
use crate::names::{names_of, peer_names};
use crate::options::{ExternalOptions, InternalOptions, KnownLists, KnownParts, KnownPolicy};
use crate::refusals::ConfigRefusal;
use crate::repeats::{NameCheck, RepeatCheck};
use crate::setup::Setup;
use std::alloc::Global;
use std::marker::PhantomData;
use ug_policy::Numbered;
use ug_types::{NameList, Named};

/// 5 over all tables, then 6, then 7, then 8, then 9.
#[tactic(auto, using(crate::proofs::Faults::none_first), unfolding(crate::specs::Checks::fault))]
pub fn check_all(alloc: Global, setup: &Setup) -> Result<(), ConfigRefusal>
    ensures { Passes result (fault setup.now) }
{
    check_repeated(alloc, setup)?;
    check_unknown(alloc, setup)?;
    check_limits(alloc, setup)?;
    check_options(alloc, setup)
}

#[tactic(auto, using(crate::proofs::Faults::none_first), unfolding(crate::specs::Checks::repeated))]
fn check_repeated(alloc: Global, setup: &Setup) -> Result<(), ConfigRefusal>
    ensures { Passes result (repeated setup.now) }
{
    check_tables(alloc, "prefix_list", setup.lists.as_slice())?;
    check_tables(alloc, "route_map", setup.maps.as_slice())?;
    let policies = names_of(alloc, setup.policies.as_slice())?;
    check_names(alloc, "policy", &policies)?;
    let peers = peer_names(alloc, setup.peers.as_slice())?;
    check_names(alloc, "peer", &peers)
}

fn check_names(alloc: Global, array: &str, names: &NameList) -> Result<(), ConfigRefusal>
    ensures { Passes result (first_fault (repeated_name array.now names.now.items) 0 names.now.items) }
{
    let names = names.as_slice();
    let check = NameCheck { array, names };
    check_each(alloc, &check, names)
}

fn check_tables<E: Numbered>(
    alloc: Global,
    array: &str,
    tables: &[Named<Items<E>>],
) -> Result<(), ConfigRefusal>
    ensures { Passes result (first_fault (repeated_in E.number_of array.now (names_of tables.now)) 0 tables.now) }
{
    let names = names_of(alloc, tables)?;
    let check = RepeatCheck {
        array,
        names: names.as_slice(),
        entries: PhantomData,
    };
    check_each(alloc, &check, tables)
}

#[tactic(auto, using(crate::proofs::Faults::none_first), unfolding(crate::specs::Checks::unknown))]
fn check_unknown(alloc: Global, setup: &Setup) -> Result<(), ConfigRefusal>
    ensures { Passes result (unknown setup.now) }
{
    let lists = names_of(alloc, setup.lists.as_slice())?;
    let maps = names_of(alloc, setup.maps.as_slice())?;
    let policies = names_of(alloc, setup.policies.as_slice())?;
    let known = KnownLists {
        lists: lists.as_slice(),
    };
    check_each(alloc, &known, setup.maps.as_slice())?;
    let known = KnownParts {
        lists: lists.as_slice(),
        maps: maps.as_slice(),
    };
    check_each(alloc, &known, setup.policies.as_slice())?;
    let known = KnownPolicy {
        policies: policies.as_slice(),
    };
    check_each(alloc, &known, setup.peers.as_slice())
}

#[tactic(auto, using(crate::proofs::Faults::none_first), unfolding(crate::specs::Checks::over_limit))]
fn check_limits(alloc: Global, setup: &Setup) -> Result<(), ConfigRefusal>
    ensures { Passes result (over_limit setup.now) }
{
    refuse_array(setup.lists.len() > 64, alloc, 7, "", "prefix_list")?;
    check_each(alloc, &LongList, setup.lists.as_slice())?;
    refuse_array(setup.maps.len() > 64, alloc, 7, "", "route_map")?;
    check_each(alloc, &LongMap, setup.maps.as_slice())?;
    refuse_array(setup.policies.len() > 64, alloc, 7, "", "policy")?;
    refuse_array(setup.peers.len() > 64, alloc, 7, "", "peer")
}

#[tactic(auto, using(crate::proofs::Faults::none_first), unfolding(crate::specs::Checks::misplaced))]
fn check_options(alloc: Global, setup: &Setup) -> Result<(), ConfigRefusal>
    ensures { Passes result (misplaced setup.now) }
{
    let local_as = setup.local.asn;
    check_each(alloc, &InternalOptions { local_as }, setup.peers.as_slice())?;
    check_each(alloc, &ExternalOptions { local_as }, setup.peers.as_slice())
}
