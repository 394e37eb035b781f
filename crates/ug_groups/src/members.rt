//! Members of one subgroup that come, take packets and go.

ghost use Rattle.std.specs.Prelude.{◌≡◌, ◌≤◌, [], length, true, Some, None, IsSome, IfSome, IfNone, OnOk, OnErr};
ghost use Rattle.ug_types.specs.declared.route.OutAttrs as values;
ghost use Rattle.ug_intern.specs.Pools.{Pooled};
ghost use Rattle.ug_board.specs.Rules.{buffer_size};
ghost use Rattle.ug_message.specs.Spellable.{is_address};
ghost use Rattle.ug_queue.specs.Queues.{place_of, rest_of, IsMember, shed, past_next};
ghost use Rattle.ug_queue.specs.Spread.{value_of};
ghost use Rattle.ug_groups.specs.Subgroups.{IsHanded};
ghost use Rattle.ug_groups.specs.declared.entry.Entry as entries;
ghost use Rattle.ug_groups.specs.Rows.{with_queue, joined_row, left_row};
ghost use Rattle.ug_groups.specs.Entries.{key_of, IsDone};

use crate::entry::Entry;
use crate::handed::Handed;
use ug_queue::Live;
use ug_types::{NoMemory, PeerEnds, PeerId};

/// Takes a member in, whose cursor is at the end. Running out of memory changes nothing.
pub fn join(live: &mut Live<Entry>, g: u32, member: PeerId) -> Result<(), NoMemory>
    requires there { IsSome (value_of g live.old) }
    requires new { IfSome (value_of g live.old) (λ e. place_of e.subgroup.queue member ≡ None) }
    ensures ok { OnOk result ((pool : Pooled values.OutAttrs) → IsDone pool pool live.old live.new g (joined_row member)) }
    ensures err { OnErr result (live.new ≡ live.old) }
{
    let entry = live.at_mut(g);
    entry.subgroup.join(member)
}

/// A member goes: what it hasn't taken isn't sent. It takes no memory.
pub fn leave(live: &mut Live<Entry>, g: u32, member: PeerId)
    requires there { IsSome (value_of g live.old) }
    requires member { IfSome (value_of g live.old) (λ e. IsMember e.subgroup.queue member) }
    ensures { (pool : Pooled values.OutAttrs) → IsDone pool pool live.old live.new g (left_row member) }
{
    let entry = live.at_mut(g);
    entry.subgroup.leave(member);
}

/// The member takes its next packet; None exactly where its cursor is at the end. It takes no memory.
pub fn take(
    live: &mut Live<Entry>,
    g: u32,
    member: PeerId,
    ends: &PeerEnds,
    buf: &mut [u8],
) -> Option<Handed>
    requires there { IsSome (value_of g live.old) }
    requires member { IfSome (value_of g live.old) (λ e. IsMember e.subgroup.queue member) }
    requires own { IfSome (value_of g live.old) (λ e. is_address (key_of e).family ends.now.local ≡ true) }
    requires room { buffer_size ≤ length buf.old }
    ensures none { IfNone result ((e : entries.Entry) → value_of g live.old ≡ Some e → rest_of e.subgroup.queue member ≡ []) }
    ensures same { IfNone result (live.new ≡ live.old) }
    ensures some { IfSome result (λ h. (e : entries.Entry) → value_of g live.old ≡ Some e → IsHanded (key_of e) ends.now (rest_of e.subgroup.queue member) buf.new h) }
    ensures done { IfSome result (λ _. (pool : Pooled values.OutAttrs) → IsDone pool pool live.old live.new g (with_queue (λ q. shed (past_next q member)))) }
{
    let entry = live.at_mut(g);
    entry.subgroup.take(member, ends, buf)
}
