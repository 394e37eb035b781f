//! Policies.

ghost use Rattle.std.specs.Prelude.{◌≡◌, IfOk};
ghost use Rattle.ug_config.specs.Readings.{policy, policy_of};

use crate::each::TableReader;
use crate::fields::{Field, name_at};
use crate::named::own_name;
use crate::refusals::ConfigRefusal;
use crate::rows::policy_fields;
use std::alloc::Global;
use toml::Value;
use ug_outbound::{NamedPolicy, Policy};
use ug_types::{Named, NoMemory};

/// The policies.
pub struct PolicyTables;

impl TableReader for PolicyTables {
    type Item = NamedPolicy;

    ghost reading = { policy };

    #[tactic(auto, unfolding(crate::specs::Readings::policy))]
    fn read(alloc: Global, way: &str, table: &Value) -> Result<NamedPolicy, ConfigRefusal> {
        let fields = policy_fields(alloc, way, table)?;
        let name = own_name(alloc, way, fields.as_slice())?;
        let value = policy_of(alloc, fields.as_slice())?;
        Ok(Named { name, value })
    }
}

fn policy_of(alloc: Global, fields: &[Field]) -> Result<Policy, NoMemory>
    ensures { IfOk result (λ policy. policy ≡ policy_of fields.now) }
{
    let list = name_at(alloc, fields, "prefix_list")?;
    let map = name_at(alloc, fields, "route_map")?;
    Ok(Policy { list, map })
}
