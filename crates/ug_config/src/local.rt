//! The speaker's own settings.

ghost use Rattle.std.specs.Prelude.{◌≡◌};
ghost use Rattle.toml.specs.View.{view};
ghost use Rattle.ug_config.specs.Gives.{Gives};
ghost use Rattle.ug_config.specs.Readings.{number, flag, address, prefix, local, local_of};

use crate::fields::{Field, address_at, flag_at, number_at, prefix_at};
use crate::refusals::ConfigRefusal;
use crate::rows::local_fields;
use std::alloc::Global;
use toml::Value;
use ug_outbound::Local;
use ug_types::{Addr, Family, Prefix};

/// A number that is required or has a default.
pub fn number(fields: &[Field], name: &str) -> u32
    ensures { result ≡ number name.now fields.now }
{
    match number_at(fields, name) {
        Some(n) => n,
        None => 0,
    }
}

/// A flag that is required or has a default.
pub fn flag(fields: &[Field], name: &str) -> bool
    ensures { result ≡ flag name.now fields.now }
{
    match flag_at(fields, name) {
        Some(flag) => flag,
        None => false,
    }
}

/// An address that is required.
pub fn address(fields: &[Field], name: &str) -> Addr
    ensures { result ≡ address name.now fields.now }
{
    match address_at(fields, name) {
        Some(address) => address,
        None => Addr::v4(0),
    }
}

/// A prefix that is required.
pub fn prefix(fields: &[Field], name: &str) -> Prefix
    ensures { result ≡ prefix name.now fields.now }
{
    match prefix_at(fields, name) {
        Some(prefix) => prefix,
        None => Prefix {
            family: Family::V4,
            bits: 0,
            len: 0,
        },
    }
}

/// Reads the settings.
#[tactic(auto, unfolding(crate::specs::Readings::local))]
pub fn read_local(alloc: Global, table: &Value) -> Result<Local, ConfigRefusal>
    ensures { Gives result (local (view table.now)) }
{
    let fields = local_fields(alloc, table)?;
    Ok(local_of(fields.as_slice()))
}

fn local_of(fields: &[Field]) -> Local
    ensures { result ≡ local_of fields.now }
{
    let router_id = address(fields, "router_id");
    let cluster_id = match address_at(fields, "cluster_id") {
        Some(id) => id,
        None => router_id,
    };
    Local {
        asn: number(fields, "as"),
        router_id,
        cluster_id,
        queue_limit: number(fields, "queue_limit"),
        coalesce: number(fields, "coalesce"),
        slow_after: number(fields, "slow_after"),
    }
}
