//! Holders of ids beside the rows: who says with what a key is desired holds it first, and lets it go when all is said.

ghost use Rattle.std.specs.Prelude.{◌≡◌, ◌==◌, ◌+◌, ◌≤◌, ℕ, true, false, Some, IsSome, IfSome, IfNone, IfOk, OnErr};
ghost use Rattle.ug_intern.specs.Pools.{held, uses_of, IsSame};
ghost use Rattle.ug_group_rules.specs.Packets.{same_out};
ghost use Rattle.ug_groups.specs.Values.{value_in};
ghost use Rattle.ug_groups.specs.Holders.{one_at, HasRoom};

use ug_intern::{AttrId, Pool};
use ug_types::{NoMemory, OutAttrs};

/// The id of the value, held once more: that of an equal value, or a new one.

pub fn hold_value(pool: &mut Pool<OutAttrs>, value: OutAttrs) -> Result<AttrId, NoMemory>
    requires room { HasRoom 1 pool.old }
    ensures uses { IfOk result (λ id. (q : ℕ) → uses_of (held pool.new q) ≡ uses_of (held pool.old q) + one_at q (Some id)) }
    ensures known { IfOk result (λ id. IfSome (held pool.old id) (λ x. (same_out value x.value ≡ true) × (value_in pool.new id ≡ Some x.value))) }
    ensures fresh { IfOk result (λ id. IfNone (held pool.old id) (value_in pool.new id ≡ Some value)) }
    ensures others { IfOk result (λ id. (q : ℕ) → (q == id) ≡ false → held pool.new q ≡ held pool.old q) }
    ensures err { OnErr result (IsSame pool.old pool.new) }
{
    let id = pool.hold(value)?;
    Ok(id)
}

/// An id is held once less: where nobody holds it any more its value goes.
pub fn release(pool: &mut Pool<OutAttrs>, id: AttrId)
    requires { 1 ≤ uses_of (held pool.old id) }
    ensures uses { (q : ℕ) → uses_of (held pool.new q) + one_at q (Some id) ≡ uses_of (held pool.old q) }
    ensures values { (q : ℕ) → IsSome (held pool.new q) → value_in pool.new q ≡ value_in pool.old q }
{
    pool.drop_one(id);
}
