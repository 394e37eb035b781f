//! Subgroups that come, go, part and meet.

ghost use Rattle.std.specs.Prelude.{◌≡◌, ◌==◌, ℕ, Option, false, length, None, IsSome, IfSome, IfOk, OnOk, OnErr};
ghost use Rattle.ug_queue.specs.Queues.{IsMember, place_of};
ghost use Rattle.ug_queue.specs.Spread.{value_of};
ghost use Rattle.ug_groups.specs.Sent.{session_of};
ghost use Rattle.ug_groups.specs.Subgroups.{StandTogether};
ghost use Rattle.ug_groups.specs.Entries.{key_of, AreClassed, IsKept, AreKept, IsAdded, IsRekeyed, IsGone, IsSplit, IsMerged};

use crate::classes::class_of;
use crate::entry::Entry;
use crate::subgroup::Subgroup;
use std::alloc::Global;
use ug_intern::Pool;
use ug_outbound::GroupKey;
use ug_queue::Live;
use ug_types::{NoMemory, OutAttrs, PeerList};

/// One more, of which nothing was formatted and nothing is desired, without members. Running out of memory, or of
/// numbers, changes nothing.
pub fn add(
    live: &mut Live<Entry>,
    next: u64,
    alloc: Global,
    key: GroupKey,
    limit: usize,
) -> Result<u32, NoMemory>
    requires { AreClassed next live.old }
    ensures number { IfOk result (λ g. g ≡ length live.old) }
    ensures ok { OnOk result (IsAdded next live.old live.new key limit) }
    ensures err { OnErr result (live.new ≡ live.old) }
{
    let class = class_of(live, &key, next);
    let subgroup = Subgroup::new(alloc, key, limit);
    let Ok(g) = live.push(Entry { class, subgroup }) else {
        return Err(NoMemory);
    };
    Ok(g)
}

/// It has another key, whose sessions are the same.
pub fn rekey(live: &mut Live<Entry>, next: u64, g: u32, key: GroupKey)
    requires there { IsSome (value_of g live.old) }
    requires classed { AreClassed next live.old }
    requires session { IfSome (value_of g live.old) (λ e. session_of key ≡ session_of (key_of e)) }
    ensures { IsRekeyed next live.old live.new g key }
{
    let class = class_of(live, &key, next);
    let entry = live.at_mut(g);
    entry.class = class;
    entry.subgroup.rekey(key);
}

/// It ends. It takes no memory.
pub fn retire(live: &mut Live<Entry>, pool: &mut Pool<OutAttrs>, g: u32)
    requires there { IsSome (value_of g live.old) }
    requires kept { AreKept pool.old live.old }
    ensures { IsGone pool.old pool.new live.old live.new g }
{
    let Entry { class: _, subgroup } = live.remove(g);
    subgroup.retire(pool);
}

/// Members that stand at one point of the queue leave it together, for a subgroup of their own.
pub fn split(
    live: &mut Live<Entry>,
    pool: &mut Pool<OutAttrs>,
    g: u32,
    members: &PeerList,
) -> Result<u32, NoMemory>
    requires there { IsSome (value_of g live.old) }
    requires kept { AreKept pool.old live.old }
    requires together { IfSome (value_of g live.old) (λ e. StandTogether e.subgroup.queue members.now.items) }
    ensures number { IfOk result (λ n. n ≡ length live.old) }
    ensures ok { OnOk result (IsSplit pool.old pool.new live.old live.new g members.now.items) }
    ensures err { OnErr result ((next : ℕ) (hand : Option ℕ) → IsKept next hand pool.old live.old → IsKept next hand pool.new live.new) }
{
    let entry = live.at_mut(g);
    let class = entry.class;
    let subgroup = entry.subgroup.split(pool, members)?;
    match live.push(Entry { class, subgroup }) {
        Ok(n) => Ok(n),
        Err(back) => {
            let Entry { class: _, subgroup } = back;
            subgroup.retire(pool);
            Err(NoMemory)
        }
    }
}

/// The members of the second move to the end of the first one's queue, and the second ends.
pub fn merge(
    live: &mut Live<Entry>,
    pool: &mut Pool<OutAttrs>,
    g: u32,
    h: u32,
) -> Result<(), NoMemory>
    requires other { (g == h) ≡ false }
    requires there { IsSome (value_of g live.old) }
    requires with { IsSome (value_of h live.old) }
    requires kept { AreKept pool.old live.old }
    requires apart { IfSome (value_of h live.old) (λ f. IfSome (value_of g live.old) (λ e. (m : ℕ) → IsMember f.subgroup.queue m → place_of e.subgroup.queue m ≡ None)) }
    ensures ok { OnOk result (IsMerged pool.old pool.new live.old live.new g h) }
    ensures err { OnErr result ((next : ℕ) (hand : Option ℕ) → IsKept next hand pool.old live.old → IsKept next hand pool.new live.new) }
{
    let Entry { class: _, subgroup } = live.remove(h);
    let entry = live.at_mut(g);
    let Err(back) = entry.subgroup.absorb(pool, subgroup) else {
        return Ok(());
    };
    back.retire(pool);
    Err(NoMemory)
}
