//! Laws over the definitions, each on a function that does nothing.

ghost use Rattle.std.specs.Prelude.{◌≡◌, ℕ, nat_eq, Bool, true, Option, IfSome};
ghost use Rattle.ug_types.specs.declared.family.Family as families;
ghost use Rattle.ug_types.specs.declared.key.Key as keys;
ghost use Rattle.ug_types.specs.declared.route.OutAttrs as values;
ghost use Rattle.ug_adjout.specs.Tables.{has, IsTable};
ghost use Rattle.ug_adjout.specs.Pending.{AdjRibOut, with_desired, with_formatted};
ghost use Rattle.ug_intern.specs.Pools.{Pooled, held};
ghost use Rattle.ug_pack.specs.Ready.{key_order, IsKeyOf, IsLive, IsReady};

/// What is ready for its next packet stays so where a key of the session is desired with a live value, or with none, and
/// where a key is formatted.
pub fn ready_laws()
    ensures desired { (family : families.Family) (add_path : Bool) (pool : Pooled values.OutAttrs) (a : AdjRibOut keys.Key ℕ) (key : keys.Key) (value : Option ℕ) →
        IsTable key_order a.desired → IsReady family add_path pool a → IsKeyOf family add_path key → IfSome value (λ id. IsLive family (held pool id)) →
        IsReady family add_path pool (with_desired key_order nat_eq a key value) }
    ensures formatted { (family : families.Family) (add_path : Bool) (pool : Pooled values.OutAttrs) (a : AdjRibOut keys.Key ℕ) (key : keys.Key) →
        IsReady family add_path pool a → has key_order a.pending key ≡ true → IsReady family add_path pool (with_formatted key_order nat_eq a key) }
{}
