//! All subgroups, or those of one class, are changed alike.

ghost use Rattle.std.specs.Prelude.{◌≡◌, ℕ, Option, Some, IsSome, OnOk};
ghost use Rattle.ug_types.specs.declared.route.OutAttrs as values;
ghost use Rattle.ug_outbound.specs.declared.key.GroupKey as groups;
ghost use Rattle.ug_intern.specs.Pools.{Pooled};
ghost use Rattle.ug_pack.specs.Ready.{IsKeyOf};
ghost use Rattle.ug_queue.specs.Spread.{value_of};
ghost use Rattle.ug_groups.specs.Values.{valued_by};
ghost use Rattle.ug_groups.specs.Standings.{desiring};
ghost use Rattle.ug_groups.specs.Rows.{with_row, each_row, of_key, counted_row};
ghost use Rattle.ug_groups.specs.Entries.{rows_in, IsKept};
ghost use Rattle.ug_groups.specs.Sweeps.{IsClassOf};

use crate::classes::first_of_class;
use crate::entry::Entry;
use crate::points;
use ug_intern::{AttrId, Pool};
use ug_queue::Live;
use ug_types::{Key, NoMemory, OutAttrs};

/// Another event has passed, for each.
pub fn count_all(live: &mut Live<Entry>) -> Result<(), NoMemory>
    ensures kept { (next : ℕ) (hand : Option ℕ) (pool : Pooled values.OutAttrs) → IsKept next hand pool live.old → IsKept next hand pool live.new }
    ensures rows { OnOk result ((pool : Pooled values.OutAttrs) → rows_in pool live.new ≡ each_row counted_row (rows_in pool live.old)) }
{
    let mut from = 0;
    while let Some(g) = live.first_from(from) {
        points::count(live, g)?;
        from = g + 1;
    }
    Ok(())
}

/// A key is desired with what the id in hand stands for, or no more, if this one is of the class.
fn desire_if(
    live: &mut Live<Entry>,
    pool: &mut Pool<OutAttrs>,
    g: u32,
    class: u64,
    key: &Key,
    id: Option<AttrId>,
) -> Result<(), NoMemory>
    requires there { IsSome (value_of g live.old) }
    requires kept { (next : ℕ) × IsKept next id pool.old live.old }
    requires class { (group : groups.GroupKey) × IsClassOf live.old class group × IsKeyOf group.family group.add_path key.now }
    ensures kept { (next : ℕ) → IsKept next id pool.old live.old → IsKept next id pool.new live.new }
    ensures class { (group : groups.GroupKey) → IsClassOf live.old class group → IsClassOf live.new class group }
    ensures value { valued_by pool.new id ≡ valued_by pool.old id }
    ensures rows { OnOk result ((group : groups.GroupKey) → IsClassOf live.old class group → rows_in pool.new live.new ≡ with_row g (of_key group (desiring key.now (valued_by pool.old id))) (rows_in pool.old live.old)) }
{
    if live.at(g).class != class {
        return Ok(());
    }
    points::desire(live, pool, g, key, id)
}

/// A key is desired with what the id in hand stands for, or no more, by all that are of the class.
pub fn desire_each(
    live: &mut Live<Entry>,
    pool: &mut Pool<OutAttrs>,
    class: u64,
    key: &Key,
    id: Option<AttrId>,
) -> Result<(), NoMemory>
    requires kept { (next : ℕ) × IsKept next id pool.old live.old }
    requires class { (group : groups.GroupKey) × IsClassOf live.old class group × IsKeyOf group.family group.add_path key.now }
    ensures kept { (next : ℕ) → IsKept next id pool.old live.old → IsKept next id pool.new live.new }
    ensures rows { OnOk result ((group : groups.GroupKey) → IsClassOf live.old class group → rows_in pool.new live.new ≡ each_row (of_key group (desiring key.now (valued_by pool.old id))) (rows_in pool.old live.old)) }
{
    let mut from = 0;
    while let Some(g) = first_of_class(live, class, from) {
        desire_if(live, pool, g, class, key, id)?;
        from = g + 1;
    }
    Ok(())
}
