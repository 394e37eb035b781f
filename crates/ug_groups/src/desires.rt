//! A key is desired with a value, which the pool has once.

ghost use Rattle.std.specs.Prelude.{◌≡◌, ◌+◌, ℕ, Some, None, IsSome, IfSome, IfOk, OnOk, OnErr};
ghost use Rattle.ug_intern.specs.Pools.{held, uses_of, IsSame};
ghost use Rattle.ug_pack.specs.Ready.{IsKeyOf};
ghost use Rattle.ug_queue.specs.Spread.{value_of};
ghost use Rattle.ug_groups.specs.Values.{value_in, valued_by};
ghost use Rattle.ug_groups.specs.Holders.{one_at, IsUsed, HasRoom};
ghost use Rattle.ug_groups.specs.Standings.{desiring};
ghost use Rattle.ug_groups.specs.declared.entry.Entry as entries;
ghost use Rattle.ug_groups.specs.Rows.{with_sub, with_row, each_row, of_key};
ghost use Rattle.ug_groups.specs.Entries.{key_of, rows_in, IsKept};

use crate::account::{hold_value, release};
use crate::entry::Entry;
use crate::{points, sweeps};
use ug_intern::{AttrId, Pool};
use ug_queue::Live;
use ug_types::{Key, NoMemory, OutAttrs};

/// Takes the id of the value in hand, where there is one.
fn take(pool: &mut Pool<OutAttrs>, value: Option<OutAttrs>) -> Result<Option<AttrId>, NoMemory>
    requires { HasRoom 1 pool.old }
    ensures uses { IfOk result (λ id. (q : ℕ) → uses_of (held pool.new q) ≡ uses_of (held pool.old q) + one_at q id) }
    ensures value { IfOk result (λ id. valued_by pool.new id ≡ value) }
    ensures others { OnOk result ((q : ℕ) → IsSome (held pool.old q) → value_in pool.new q ≡ value_in pool.old q) }
    ensures err { OnErr result (IsSame pool.old pool.new) }
{
    let Some(value) = value else {
        return Ok(None);
    };
    let id = hold_value(pool, value)?;
    Ok(Some(id))
}

/// Lets it go.
fn let_go(pool: &mut Pool<OutAttrs>, id: Option<AttrId>)
    requires { IsUsed pool.old id }
    ensures uses { (q : ℕ) → uses_of (held pool.new q) + one_at q id ≡ uses_of (held pool.old q) }
    ensures values { (q : ℕ) → IsSome (held pool.new q) → value_in pool.new q ≡ value_in pool.old q }
{
    if let Some(id) = id {
        release(pool, id);
    }
}

/// A key is desired with this value from now on, or no more, by this one alone.
pub fn desire_alone(
    live: &mut Live<Entry>,
    pool: &mut Pool<OutAttrs>,
    g: u32,
    key: &Key,
    value: Option<OutAttrs>,
) -> Result<(), NoMemory>
    requires there { IsSome (value_of g live.old) }
    requires kept { (next : ℕ) × IsKept next None pool.old live.old }
    requires own { IfSome (value_of g live.old) (λ e. IsKeyOf (key_of e).family (key_of e).add_path key.now) }
    ensures kept { (next : ℕ) → IsKept next None pool.old live.old → IsKept next None pool.new live.new }
    ensures rows { OnOk result (rows_in pool.new live.new ≡ with_row g (with_sub (desiring key.now value)) (rows_in pool.old live.old)) }
{
    let id = take(pool, value)?;
    let done = points::desire(live, pool, g, key, id);
    let_go(pool, id);
    done
}

/// A key is desired with this value from now on, or no more, by all that have the key of this one.
pub fn desire_class(
    live: &mut Live<Entry>,
    pool: &mut Pool<OutAttrs>,
    g: u32,
    key: &Key,
    value: Option<OutAttrs>,
) -> Result<(), NoMemory>
    requires there { IsSome (value_of g live.old) }
    requires kept { (next : ℕ) × IsKept next None pool.old live.old }
    requires own { IfSome (value_of g live.old) (λ e. IsKeyOf (key_of e).family (key_of e).add_path key.now) }
    ensures kept { (next : ℕ) → IsKept next None pool.old live.old → IsKept next None pool.new live.new }
    ensures rows { OnOk result ((e : entries.Entry) → value_of g live.old ≡ Some e → rows_in pool.new live.new ≡ each_row (of_key (key_of e) (desiring key.now value)) (rows_in pool.old live.old)) }
{
    let class = live.at(g).class;
    let id = take(pool, value)?;
    let done = sweeps::desire_each(live, pool, class, key, id);
    let_go(pool, id);
    done
}
