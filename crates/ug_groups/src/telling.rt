//! The keys of a packet are formatted.

ghost use Rattle.std.specs.Prelude.{◌≡◌, ◌≤◌, ◌+◌, ℕ, nat_eq, true, length};
ghost use Rattle.ug_intern.specs.Pools.{held, uses_of};
ghost use Rattle.ug_adjout.specs.Tables.{has};
ghost use Rattle.ug_adjout.specs.Pending.{IsExact, with_formatted, with_all_formatted};
ghost use Rattle.ug_pack.specs.Ready.{key_order};
ghost use Rattle.ug_groups.specs.Holders.{IsCounted, IsMoved, HasRoom};
ghost use Rattle.ug_groups.specs.FamilyRibs.{AreDue};

use crate::holding::exchange;
use crate::rib_out::RibOut;
use ug_intern::Pool;
use ug_types::{Key, OutAttrs};

/// A key that waits is formatted, and the pool counts its value in place of the one that it had. It takes no memory.
#[tactic(auto, using(crate::proofs::Holders::moved_formatted, crate::proofs::Holders::formatted_used, crate::proofs::Holders::desired_used))]
fn tell_one(out: &mut RibOut, pool: &mut Pool<OutAttrs>, key: &Key)
    requires exact { IsExact key_order nat_eq out.old.adj }
    requires family { key.now.prefix.family ≡ out.old.family }
    requires pending { has key_order out.old.adj.pending key.now ≡ true }
    requires counted { IsCounted pool.old out.old.adj }
    requires room { HasRoom 1 pool.old }
    ensures adj { out.new.adj ≡ with_formatted key_order nat_eq out.old.adj key.now }
    ensures family { out.new.family ≡ out.old.family }
    ensures moved { IsMoved pool.old pool.new out.old.adj (with_formatted key_order nat_eq out.old.adj key.now) }
    ensures most { (id : ℕ) → uses_of (held pool.new id) ≤ uses_of (held pool.old id) + 1 }
{
    let marked = out.mark(key);
    exchange(pool, marked.was, marked.now);
}

/// The keys of a packet are formatted, and the pool counts their values. It takes no memory.
pub fn tell(out: &mut RibOut, pool: &mut Pool<OutAttrs>, keys: &[Key])
    requires exact { IsExact key_order nat_eq out.old.adj }
    requires keys { AreDue out.old keys.now }
    requires counted { IsCounted pool.old out.old.adj }
    requires room { HasRoom (length keys.now) pool.old }
    ensures adj { out.new.adj ≡ with_all_formatted key_order nat_eq out.old.adj keys.now }
    ensures family { out.new.family ≡ out.old.family }
    ensures moved { IsMoved pool.old pool.new out.old.adj out.new.adj }
{
    for key in keys {
        tell_one(out, pool, key);
    }
}
