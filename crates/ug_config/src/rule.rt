//! Entries of route maps.

ghost use Rattle.std.specs.Prelude.{◌≡◌, IfOk};
ghost use Rattle.toml.specs.View.{view};
ghost use Rattle.ug_policy.specs.Rules as rules;
ghost use Rattle.ug_policy.specs.Refusals.{leads_ahead};
ghost use Rattle.ug_config.specs.Gives.{Gives};
ghost use Rattle.ug_config.specs.Readings.{rule, rule_of, where_ahead};

use crate::each::TableReader;
use crate::fields::{Field, address_at, name_at, number_at, numbers_at, octet_at, on_match_at};
use crate::local::{flag, number};
use crate::refusals::{ConfigRefusal, refusal};
use crate::rows::map_entry_fields;
use std::alloc::Global;
use std::marker::Model;
use toml::Value;
use ug_policy::{MapEntry, OnMatch};
use ug_types::NoMemory;

/// An entry of a route map. Contracts see what it says.
#[derive(Drop)]
pub struct Rule {
    pub entry: MapEntry,
}

impl Model for Rule {
    ghost use Rattle.ug_policy.specs.Rules.{MapRule, rule_of};

    ghost Value = { MapRule };

    ghost view = { λ r. rule_of r.entry };
}

/// The entries of a route map.
pub struct Rules;

impl TableReader for Rules {
    type Item = Rule;

    ghost reading = { rule };

    #[tactic(auto, unfolding(crate::specs::Readings::rule))]
    fn read(alloc: Global, way: &str, table: &Value) -> Result<Rule, ConfigRefusal> {
        let fields = map_entry_fields(alloc, way, table)?;
        let rule = rule_of(alloc, fields.as_slice())?;
        where_ahead(alloc, way, rule)
    }
}

fn rule_of(alloc: Global, fields: &[Field]) -> Result<Rule, NoMemory>
    ensures { IfOk result (λ rule. rule ≡ rule_of fields.now) }
{
    let on_match = match on_match_at(fields, "on_match") {
        Some(on_match) => on_match,
        None => OnMatch::End,
    };
    Ok(Rule {
        entry: MapEntry {
            seq: number(fields, "seq"),
            permit: flag(fields, "action"),
            on_match,
            match_prefix_list: name_at(alloc, fields, "match_prefix_list")?,
            match_community: number_at(fields, "match_community"),
            match_origin: octet_at(fields, "match_origin"),
            match_med: number_at(fields, "match_med"),
            match_local_pref: number_at(fields, "match_local_pref"),
            set_origin: octet_at(fields, "set_origin"),
            set_next_hop: address_at(fields, "set_next_hop"),
            set_med: number_at(fields, "set_med"),
            set_local_pref: number_at(fields, "set_local_pref"),
            set_prepend: numbers_at(alloc, fields, "set_prepend")?,
            set_communities: numbers_at(alloc, fields, "set_communities")?,
            add_communities: numbers_at(alloc, fields, "add_communities")?,
        },
    })
}

/// An entry whose goto is ahead: 3 at `on_match` where it isn't.
fn where_ahead(alloc: Global, way: &str, rule: Rule) -> Result<Rule, ConfigRefusal>
    ensures { Gives result (where_ahead way.now rule) }
{
    if leads_ahead(rule.entry.seq, rule.entry.on_match) {
        return Ok(rule);
    }
    Err(refusal(alloc, 3, way, "on_match"))
}

fn leads_ahead(seq: u32, on_match: OnMatch) -> bool
    ensures { result ≡ leads_ahead seq on_match }
{
    match on_match {
        OnMatch::End | OnMatch::Next => true,
        OnMatch::Goto(n) => seq < n,
    }
}
