//! Route maps.

ghost use Rattle.std.specs.Prelude.{◌≡◌, None, map, IfOk, MatchResult};
ghost use Rattle.ug_policy.specs.Order.{ascending};
ghost use Rattle.ug_policy.specs.Rules.{rule_of, rule_seq};
ghost use Rattle.ug_policy.specs.Maps.{is_met, so_far, goes_to, map_result};
ghost use Rattle.ug_policy.specs.Refusals.{SetOrigins, map_refusal, IsRouteMap, IsRefusal};

use crate::checks::refusal_in_order;
use crate::conditions::is_met;
use crate::copies::copy_entries;
use crate::map_entry::{MapEntry, MapEntryList, OnMatch};
use crate::map_refusal::MapRefusal;
use crate::mapped::Mapped;
use crate::named_lists::ListTable;
use crate::numbered::{Numbered, in_order};
use crate::sets::mapped_by;
use std::alloc::Global;
use std::marker::Model;
use ug_types::{Attrs, NameList, Named, NoMemory, Prefix, Sequence};

/// A route map and its name.
pub type NamedMap = Named<RouteMap>;

pub type MapTable = Sequence<NamedMap>;

/// A route map: at most 256 entries, in ascending order of their sequence numbers, which are all different, with
/// gotos that lead ahead. Contracts see the entries in that order.
#[derive(Drop)]
pub struct RouteMap {
    entries: MapEntryList,
}

impl Model for RouteMap {
    ghost use Rattle.std.specs.Prelude.{List, map};
    ghost use Rattle.ug_policy.specs.Rules.{MapRule, rule_of};
    ghost use Rattle.ug_policy.specs.Refusals.{IsRouteMap};

    ghost Value = { List MapRule };

    ghost view = { λ m. map rule_of m.entries.items };

    ghost invariant = { λ m. IsRouteMap (map rule_of m.entries.items) };
}

impl Numbered for MapEntry {
    ghost number_of = { λ e. e.seq };

    fn number(&self) -> u32 {
        self.seq
    }
}

impl RouteMap {
    /// The map of some entries, which may come in any order; `lists` are the names of the prefix lists that there
    /// are. Each ORIGIN that is set must be at most 2 (`set_known_origins` tells). The lowest number answers: 1 two
    /// entries have one sequence number, 2 a goto isn't ahead of its entry, 3 there are over 256, 4 an unknown list is
    /// named, 5 over 16 numbers are prepended, or over 16 communities set and added, in the whole map.
    pub fn new(entries: MapEntryList, lists: &NameList) -> Result<RouteMap, MapRefusal>
        requires origins { SetOrigins (map rule_of entries.items) }
        ensures { MatchResult result (λ made. (map_refusal lists.now.items (map rule_of entries.items) ≡ None) × (made ≡ ascending rule_seq (map rule_of entries.items)))
            (λ e. IsRefusal e (map_refusal lists.now.items (map rule_of entries.items))) }
    {
        let Ok(sorted) = in_order(entries.into_vec()) else {
            return Err(MapRefusal::NoMemory);
        };
        if let Some(number) = refusal_in_order(sorted.as_slice(), lists) {
            return Err(MapRefusal::Refused { number });
        }
        Ok(RouteMap {
            entries: Sequence::from_vec(sorted),
        })
    }

    /// The entries in ascending order of their sequence numbers.
    pub fn entries(&self) -> &[MapEntry]
        ensures { map rule_of result.now ≡ self.now }
    {
        self.entries.as_slice()
    }

    /// What the map makes of a path's attributes to a prefix; None exactly where it gives none. A list that isn't in
    /// the table permits nothing.
    pub fn apply(
        &self,
        alloc: Global,
        lists: &ListTable,
        attrs: &Attrs,
        prefix: &Prefix,
    ) -> Result<Option<Mapped>, NoMemory>
        ensures exact { IfOk result (λ mapped. mapped ≡ map_result lists.now.items self.now attrs.now prefix.now) }
        ensures map { IsRouteMap self.now }
    {
        walk(alloc, self.entries.as_slice(), lists, attrs, prefix)
    }

    /// An equal map of its own.
    pub fn copy(&self, alloc: Global) -> Result<RouteMap, NoMemory>
        ensures { IfOk result (λ copy. copy ≡ self.now) }
    {
        Ok(RouteMap {
            entries: copy_entries(alloc, self.entries.as_slice())?,
        })
    }
}

/// The walk over the entries. The attributes are copied at the first permit entry that is met.
fn walk(
    alloc: Global,
    entries: &[MapEntry],
    lists: &ListTable,
    attrs: &Attrs,
    prefix: &Prefix,
) -> Result<Option<Mapped>, NoMemory>
    requires { SetOrigins (map rule_of entries.now) }
    ensures { IfOk result (λ mapped. mapped ≡ map_result lists.now.items (map rule_of entries.now) attrs.now prefix.now) }
{
    let mut least = 0;
    let mut mapped = None;
    for entry in entries {
        if entry.seq < least || !is_met(entry, lists, attrs_so_far(attrs, &mapped), prefix) {
            continue;
        }
        if !entry.permit {
            return Ok(None);
        }
        let now = mapped_by(alloc, entry, so_far(alloc, attrs, mapped)?)?;
        let Some(next) = goes_to(entry.on_match, least) else {
            return Ok(Some(now));
        };
        least = next;
        mapped = Some(now);
    }
    Ok(mapped)
}

/// From which sequence number on the walk goes on after a permit entry that is met, or nowhere.
fn goes_to(on_match: OnMatch, least: u32) -> Option<u32>
    ensures { result ≡ goes_to on_match least }
{
    match on_match {
        OnMatch::End => None,
        OnMatch::Next => Some(least),
        OnMatch::Goto(n) => Some(n),
    }
}

/// The attributes that the entries see: what was made so far, or those given.
fn attrs_so_far<'a>(attrs: &'a Attrs, mapped: &'a Option<Mapped>) -> &'a Attrs
    ensures { result.now ≡ (so_far attrs.now mapped.now).attrs }
{
    match mapped {
        None => attrs,
        Some(mapped) => &mapped.attrs,
    }
}

/// What was made so far, or a copy of the attributes given.
fn so_far(alloc: Global, attrs: &Attrs, mapped: Option<Mapped>) -> Result<Mapped, NoMemory>
    ensures { IfOk result (λ m. m ≡ so_far attrs.now mapped) }
{
    match mapped {
        Some(mapped) => Ok(mapped),
        None => Ok(Mapped {
            attrs: attrs.copy(alloc)?,
            set_next_hop: false,
            set_med: false,
        }),
    }
}
