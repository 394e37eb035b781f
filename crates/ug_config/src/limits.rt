//! Limits.

ghost use Rattle.std.specs.Prelude.{◌≡◌};
ghost use Rattle.ug_policy.specs.Refusals.{has_few_sets, count_in};
ghost use Rattle.ug_policy.specs.Rules.{numbers_of};
ghost use Rattle.ug_config.specs.Checks.{long_list, long_map};

use crate::checking::{Check, refuse_where};
use crate::items::Items;
use crate::refusals::ConfigRefusal;
use crate::rule::Rule;
use std::alloc::Global;
use ug_policy::ListEntry;
use ug_types::{Named, NumberList};

/// A prefix list has at most 1,024 entries.
#[derive(Drop)]
pub struct LongList;

impl Check for LongList {
    type Item = Named<Items<ListEntry>>;

    ghost fault = { λ c. long_list };

    #[tactic(auto, unfolding(crate::specs::Checks::long_list))]
    fn check(
        &self,
        alloc: Global,
        place: usize,
        list: &Named<Items<ListEntry>>,
    ) -> Result<(), ConfigRefusal> {
        let fails = list.value.as_slice().len() > 1024;
        refuse_where(fails, alloc, 7, "prefix_list", place, "entry")
    }
}

/// A route map has at most 256 entries, which prepend at most 16 numbers, and set and add at most 16 communities.
#[derive(Drop)]
pub struct LongMap;

impl Check for LongMap {
    type Item = Named<Items<Rule>>;

    ghost fault = { λ c. long_map };

    #[tactic(auto, unfolding(crate::specs::Checks::long_map))]
    fn check(
        &self,
        alloc: Global,
        place: usize,
        map: &Named<Items<Rule>>,
    ) -> Result<(), ConfigRefusal> {
        let rules = map.value.as_slice();
        let fails = rules.len() > 256 || !has_few_sets(rules);
        refuse_where(fails, alloc, 7, "route_map", place, "entry")
    }
}

fn has_few_sets(rules: &[Rule]) -> bool
    ensures { result ≡ has_few_sets rules.now }
{
    let mut prepends: usize = 0;
    let mut communities: usize = 0;
    for rule in rules {
        let entry = &rule.entry;
        prepends = prepends.saturating_add(count_in(&entry.set_prepend));
        communities = communities
            .saturating_add(count_in(&entry.set_communities))
            .saturating_add(count_in(&entry.add_communities));
    }
    prepends <= 16 && communities <= 16
}

/// How many numbers are given.
fn count_in(given: &Option<NumberList>) -> usize
    ensures { result ≡ count_in (numbers_of given.now) }
{
    match given {
        None => 0,
        Some(numbers) => numbers.len(),
    }
}
