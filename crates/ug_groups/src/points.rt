//! One subgroup is changed, beside its members.

ghost use Rattle.std.specs.Prelude.{◌≡◌, ◌<◌, length, IsSome, IfSome, OnOk, OnErr};
ghost use Rattle.ug_types.specs.declared.route.OutAttrs as values;
ghost use Rattle.ug_intern.specs.Pools.{Pooled};
ghost use Rattle.ug_pack.specs.Ready.{IsKeyOf};
ghost use Rattle.ug_queue.specs.Spread.{value_of};
ghost use Rattle.ug_group_rules.specs.Machine.{asked, unstuck};
ghost use Rattle.ug_groups.specs.Values.{valued_by};
ghost use Rattle.ug_groups.specs.Holders.{IsUsed};
ghost use Rattle.ug_groups.specs.Standings.{IsFit, seen, desiring};
ghost use Rattle.ug_groups.specs.Rows.{with_sub, formatted_row, counted_row};
ghost use Rattle.ug_groups.specs.Entries.{key_of, AreKept, IsDone};

use crate::entry::Entry;
use ug_intern::{AttrId, Pool};
use ug_queue::Live;
use ug_types::{Key, NoMemory, OutAttrs};

/// Formats one packet, for each member to take.
pub fn format(
    live: &mut Live<Entry>,
    pool: &mut Pool<OutAttrs>,
    g: u32,
    made: u64,
) -> Result<(), NoMemory>
    requires there { IsSome (value_of g live.old) }
    requires kept { AreKept pool.old live.old }
    requires room { IfSome (value_of g live.old) (λ e. length e.subgroup.queue.packets < e.subgroup.queue.limit) }
    requires members { IfSome (value_of g live.old) (λ e. 0 < length e.subgroup.queue.places) }
    requires fit { IfSome (value_of g live.old) (λ e. IsFit (seen pool.old e.subgroup.point)) }
    ensures { OnOk result (IsDone pool.old pool.new live.old live.new g (formatted_row made)) }
{
    let entry = live.at_mut(g);
    entry.subgroup.format(pool, made)?;
    let _rows = entry.subgroup.row_count();
    Ok(())
}

/// All routes are to be told again.
pub fn refresh(live: &mut Live<Entry>, pool: &Pool<OutAttrs>, g: u32) -> Result<(), NoMemory>
    requires there { IsSome (value_of g live.old) }
    requires kept { AreKept pool.now live.old }
    ensures { OnOk result (IsDone pool.now pool.now live.old live.new g (with_sub asked)) }
{
    let entry = live.at_mut(g);
    entry.subgroup.refresh(pool)?;
    let _rows = entry.subgroup.row_count();
    Ok(())
}

/// Its queue was never full with keys pending.
pub fn unstick(live: &mut Live<Entry>, g: u32)
    requires { IsSome (value_of g live.old) }
    ensures { (pool : Pooled values.OutAttrs) → IsDone pool pool live.old live.new g (with_sub unstuck) }
{
    let entry = live.at_mut(g);
    entry.subgroup.unstick();
}

/// Another event has passed.
pub fn count(live: &mut Live<Entry>, g: u32) -> Result<(), NoMemory>
    requires { IsSome (value_of g live.old) }
    ensures ok { OnOk result ((pool : Pooled values.OutAttrs) → IsDone pool pool live.old live.new g counted_row) }
    ensures err { OnErr result (live.new ≡ live.old) }
{
    let entry = live.at_mut(g);
    entry.subgroup.count()
}

/// A key is desired with what the id stands for from now on, or no more. Running out of memory changes nothing.
pub fn desire(
    live: &mut Live<Entry>,
    pool: &mut Pool<OutAttrs>,
    g: u32,
    key: &Key,
    id: Option<AttrId>,
) -> Result<(), NoMemory>
    requires there { IsSome (value_of g live.old) }
    requires kept { AreKept pool.old live.old }
    requires own { IfSome (value_of g live.old) (λ e. IsKeyOf (key_of e).family (key_of e).add_path key.now) }
    requires used { IsUsed pool.old id }
    ensures ok { OnOk result (IsDone pool.old pool.new live.old live.new g (with_sub (desiring key.now (valued_by pool.old id)))) }
    ensures err { OnErr result (live.new ≡ live.old) }
    ensures pool { OnErr result (pool.new ≡ pool.old) }
{
    let entry = live.at_mut(g);
    entry.subgroup.desire(pool, key, id)?;
    let _rows = entry.subgroup.row_count();
    Ok(())
}
