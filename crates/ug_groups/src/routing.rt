//! The packet of the routes that are due.

ghost use Rattle.std.specs.Prelude.{◌≡◌, ◌≤◌, ◌<◌, nat_eq, true, Some, None, slice_get, IfOk};
ghost use Rattle.ug_types.specs.declared.key.Key as keys;
ghost use Rattle.ug_types.specs.Keys.{weight_of};
ghost use Rattle.ug_message.specs.Spellable.{is_address};
ghost use Rattle.ug_intern.specs.Pools.{held, value_of, IsOneId};
ghost use Rattle.ug_adjout.specs.Tables.{value_at};
ghost use Rattle.ug_adjout.specs.Pending.{IsExact};
ghost use Rattle.ug_adjout.specs.Formatting.{withdrawals, announcements, alike, value_of_first};
ghost use Rattle.ug_pack.specs.Ready.{key_order, IsReady};
ghost use Rattle.ug_group_rules.specs.Packets.{same_out, routes_due};
ghost use Rattle.ug_groups.specs.Values.{AreLive, out_in};
ghost use Rattle.ug_groups.specs.Sent.{IsRouted, IsPaired};

use crate::packet::Packet;
use crate::rib_out::RibOut;
use crate::routed::Routed;
use crate::saying::Saying;
use std::alloc::Global;
use ug_intern::{AttrId, Pool};
use ug_outbound::GroupKey;
use ug_pack::{Built, Routes, build};
use ug_types::{Addr, Key, NoMemory, OutAttrs};

/// The packet of the routes that are due, as many as fit, and their keys; None exactly where none are.
pub fn routed(
    alloc: Global,
    key: &GroupKey,
    out: &RibOut,
    pool: &Pool<OutAttrs>,
    made: u64,
) -> Result<Option<Routed>, NoMemory>
    requires family { out.now.family ≡ key.now.family }
    requires exact { IsExact key_order nat_eq out.now.adj }
    requires live { AreLive pool.now out.now.adj.desired }
    requires ready { IsReady key.now.family key.now.add_path pool.now out.now.adj }
    ensures { IfOk result (IsRouted key.now made out.now (routes_due key.now (out_in pool.now out.now.adj))) }
{
    know_ids(pool);
    if let Some(first) = out.first_withdrawal() {
        return withdrawing(alloc, key, out, pool, made, &first);
    }
    if let Some((first, id)) = out.first_announcement() {
        return announcing(alloc, key, out, pool, made, &first, id);
    }
    Ok(None)
}

fn withdrawing(
    alloc: Global,
    key: &GroupKey,
    out: &RibOut,
    pool: &Pool<OutAttrs>,
    made: u64,
    first: &Key,
) -> Result<Option<Routed>, NoMemory>
    requires family { out.now.family ≡ key.now.family }
    requires exact { IsExact key_order nat_eq out.now.adj }
    requires live { AreLive pool.now out.now.adj.desired }
    requires ready { IsReady key.now.family key.now.add_path pool.now out.now.adj }
    requires one { IsOneId same_out pool.now }
    requires first { slice_get (withdrawals key_order out.now.adj) 0 ≡ Some first.now }
    ensures { IfOk result (IsRouted key.now made out.now (routes_due key.now (out_in pool.now out.now.adj))) }
{
    know_weight(first);
    let limit = key.limit();
    let Some(built) = build(alloc, out, pool, limit)? else {
        return Ok(None);
    };
    let Built { packet, keys } = built;
    let saying = Saying::Withdrawn(keys);
    let packet = Packet::new(alloc, made, packet, &saying)?;
    Ok(routed_as(packet, saying))
}

fn announcing(
    alloc: Global,
    key: &GroupKey,
    out: &RibOut,
    pool: &Pool<OutAttrs>,
    made: u64,
    first: &Key,
    id: AttrId,
) -> Result<Option<Routed>, NoMemory>
    requires family { out.now.family ≡ key.now.family }
    requires exact { IsExact key_order nat_eq out.now.adj }
    requires live { AreLive pool.now out.now.adj.desired }
    requires ready { IsReady key.now.family key.now.add_path pool.now out.now.adj }
    requires one { IsOneId same_out pool.now }
    requires none { slice_get (withdrawals key_order out.now.adj) 0 ≡ None }
    requires first { slice_get (alike key_order nat_eq out.now.adj) 0 ≡ Some first.now }
    requires value { value_of_first (value_at key_order out.now.adj.desired) (announcements key_order out.now.adj) ≡ Some id }
    ensures { IfOk result (IsRouted key.now made out.now (routes_due key.now (out_in pool.now out.now.adj))) }
{
    know_weight(first);
    let limit = key.limit();
    let Some(built) = build(alloc, out, pool, limit)? else {
        return Ok(None);
    };
    let Built { packet, keys } = built;
    know_raw(&packet);
    let attrs = pool.get(id).copy(alloc)?;
    let saying = Saying::Announced(attrs, keys);
    let packet = Packet::new(alloc, made, packet, &saying)?;
    Ok(routed_as(packet, saying))
}

/// The packet with the keys of which it tells; None where it tells none.
fn routed_as(packet: Packet, saying: Saying) -> Option<Routed>
    ensures { IsPaired packet saying result }
{
    match saying {
        Saying::Withdrawn(keys) => Some(Routed { packet, keys }),
        Saying::Announced(_, keys) => Some(Routed { packet, keys }),
        Saying::EndOfRib | Saying::RefreshBegins | Saying::RefreshEnds => None,
    }
}

/// Equal values have one id.
pub fn know_ids(pool: &Pool<OutAttrs>)
    ensures { IsOneId same_out pool.now }
{
    let _uses = pool.uses(0);
}

/// A route takes 21 bytes at most: a length, a prefix of IPv6, and an identifier.
fn know_weight(key: &Key)
    ensures { weight_of key.now ≤ 21 }
{
    prove!(key.prefix.len <= 128);
}

/// The next hop of a packet is an address of its family.
fn know_raw(packet: &ug_message::Packet)
    ensures { is_address packet.now.raw.family packet.now.raw ≡ true }
{
    know_address(packet.raw);
}

/// An address is one of its family.
fn know_address(address: Addr)
    ensures { is_address address.family address ≡ true }
{
    prove!(address.bits <= u128::MAX);
}
