ghost use Rattle.std.specs.Prelude.{◌≡◌, ◌≤◌, ◌<◌, Bool, nat_eq, slice_get, Some, None, true, IfOk};
ghost use Rattle.ug_types.specs.declared.family.Family as families;
ghost use Rattle.ug_types.specs.declared.key.Key as keys;
ghost use Rattle.ug_types.specs.Keys.{weight_of};
ghost use Rattle.ug_adjout.specs.Tables.{has};
ghost use Rattle.ug_adjout.specs.Formatting.{fitting, withdrawals, alike};
ghost use Rattle.ug_pack.specs.Rooms.{room, room_beside};
ghost use Rattle.ug_pack.specs.Ready.{key_order, IsKeyOf, IsReady, IsSendable};
ghost use Rattle.ug_pack.specs.Packets.{IsWithdrawal, IsAnnouncement, next_due, IsBuilt};

use crate::built::Built;
use crate::rooms::{room, room_beside};
use crate::routes::Routes;
use crate::texts::{announcement, withdrawal};
use crate::whole::plain;
use std::alloc::Global;
use ug_intern::Pool;
use ug_message::Packet;
use ug_types::{Family, Key, NoMemory, OutAttrs};

/// The packet that is owed next, in messages of so many bytes, and its keys; None exactly where nothing is pending.
/// Withdrawals come first, as many as fit, in the order in which they wait. Else it is the first pending key and those
/// after it of equal attributes, until one doesn't fit.
pub fn build<R: Routes>(
    alloc: Global,
    adj: &R,
    pool: &Pool<OutAttrs>,
    limit: usize,
) -> Result<Option<Built>, NoMemory>
    requires least { 4096 ≤ limit }
    requires most { limit ≤ 65535 }
    requires ready { (family : families.Family) × (add_path : Bool) × IsReady family add_path pool.now (R.adj adj.now) }
    ensures built { IfOk result (λ built. (family : families.Family) (add_path : Bool) → IsReady family add_path pool.now (R.adj adj.now) →
        IsBuilt pool.now limit family (next_due pool.now limit family (R.adj adj.now)) built) }
{
    match adj.first_withdrawal() {
        Some(first) => {
            let built = withdrawing(alloc, adj, limit, &first)?;
            Ok(Some(built))
        }
        None => next_announcement(alloc, adj, pool, limit),
    }
}

/// The same where no withdrawal is pending.
fn next_announcement<R: Routes>(
    alloc: Global,
    adj: &R,
    pool: &Pool<OutAttrs>,
    limit: usize,
) -> Result<Option<Built>, NoMemory>
    requires least { 4096 ≤ limit }
    requires most { limit ≤ 65535 }
    requires ready { (family : families.Family) × (add_path : Bool) × IsReady family add_path pool.now (R.adj adj.now) }
    requires none { slice_get (withdrawals key_order (R.adj adj.now)) 0 ≡ None }
    ensures built { IfOk result (λ built. (family : families.Family) (add_path : Bool) → IsReady family add_path pool.now (R.adj adj.now) →
        IsBuilt pool.now limit family (next_due pool.now limit family (R.adj adj.now)) built) }
{
    let Some((first, id)) = adj.first_announcement() else {
        return Ok(None);
    };
    let out = pool.get(id);
    let built = announcing(alloc, adj, limit, &first, out)?;
    Ok(Some(built))
}

/// The packet that withdraws the first pending keys that are to be withdrawn.
fn withdrawing<R: Routes>(
    alloc: Global,
    adj: &R,
    limit: usize,
    first: &Key,
) -> Result<Built, NoMemory>
    requires least { 4096 ≤ limit }
    requires most { limit ≤ 65535 }
    requires first { slice_get (withdrawals key_order (R.adj adj.now)) 0 ≡ Some first.now }
    requires keys { (add_path : Bool) × ((q : keys.Key) → has key_order (R.adj adj.now).pending q ≡ true → IsKeyOf first.now.prefix.family add_path q) }
    ensures keys { IfOk result (λ b. b.keys.items ≡ fitting weight_of (room first.now.prefix.family limit) (withdrawals key_order (R.adj adj.now))) }
    ensures packet { IfOk result (λ b. IsWithdrawal first.now.prefix.family limit b.keys.items b.packet) }
{
    let family = family_of(first);
    know_weight(first);
    let keys = adj.first_withdrawals(alloc, room(family, limit))?;
    let bytes = withdrawal(alloc, family, limit, keys.as_slice())?;
    let packet = plain(alloc, family, bytes);
    Ok(Built { packet, keys })
}

/// The packet that announces the first pending key that is to be announced, and those of its attributes.
fn announcing<R: Routes>(
    alloc: Global,
    adj: &R,
    limit: usize,
    first: &Key,
    out: &OutAttrs,
) -> Result<Built, NoMemory>
    requires least { 4096 ≤ limit }
    requires most { limit ≤ 65535 }
    requires first { slice_get (alike key_order nat_eq (R.adj adj.now)) 0 ≡ Some first.now }
    requires keys { (add_path : Bool) × ((q : keys.Key) → has key_order (R.adj adj.now).pending q ≡ true → IsKeyOf first.now.prefix.family add_path q) }
    requires sendable { IsSendable first.now.prefix.family out.now.attrs }
    ensures keys { IfOk result (λ b. b.keys.items ≡ fitting weight_of (room_beside first.now.prefix.family limit out.now.attrs) (alike key_order nat_eq (R.adj adj.now))) }
    ensures packet { IfOk result (λ b. IsAnnouncement first.now.prefix.family limit b.keys.items out.now b.packet) }
{
    let family = family_of(first);
    know_weight(first);
    let keys = adj.first_alike(alloc, room_beside(family, limit, &out.attrs))?;
    let written = announcement(alloc, family, limit, &out.attrs, keys.as_slice())?;
    let packet = Packet {
        alloc,
        bytes: written.bytes,
        place: Some(written.place),
        raw: out.attrs.parts().next_hop,
        kind: out.nh_kind,
    };
    Ok(Built { packet, keys })
}

/// A route takes 21 bytes at most: a length, a prefix of IPv6, and an identifier.
fn know_weight(key: &Key)
    ensures { weight_of key.now ≤ 21 }
{
    prove!(key.prefix.len <= 128);
}

/// The family of a route.
fn family_of(key: &Key) -> Family
    ensures { result ≡ key.now.prefix.family }
{
    key.prefix.family
}
