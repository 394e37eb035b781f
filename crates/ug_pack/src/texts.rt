//! Messages of either family.

ghost use Rattle.std.specs.Prelude.{◌≡◌, ◌+◌, ◌<◌, ◌≤◌, true, length, IfOk};
ghost use Rattle.ug_types.specs.declared.family.Family.TheVariants.{V4, V6};
ghost use Rattle.ug_message.specs.Spellable.{has_ipv4_addresses, are_of_family};
ghost use Rattle.ug_update.specs.Updates.{AreAlike, weight_of_all};
ghost use Rattle.ug_pack.specs.Rooms.{withdrawal_bytes, announcement_bytes};
ghost use Rattle.ug_pack.specs.Packets.{IsWithdrawalText, IsAnnouncementText};

use std::alloc::Global;
use ug_types::{Attrs, ByteList, Family, Key, NoMemory, Written};
use ug_update::{write_update, write_update6, write_withdraw, write_withdraw6};

/// The message that withdraws these routes, which are within a limit.
pub fn withdrawal(
    alloc: Global,
    family: Family,
    limit: usize,
    keys: &[Key],
) -> Result<ByteList, NoMemory>
    requires some { 0 < length keys.now }
    requires alike { AreAlike keys.now }
    requires family { are_of_family family keys.now ≡ true }
    requires short { withdrawal_bytes family (weight_of_all keys.now) ≤ limit }
    requires limit { limit ≤ 65535 }
    ensures { IfOk result (λ bytes. IsWithdrawalText family limit keys.now bytes.items) }
{
    match family {
        Family::V4 => write_withdraw(alloc, keys),
        Family::V6 => write_withdraw6(alloc, keys),
    }
}

/// The message that announces these routes with these attributes, which are within a limit.
pub fn announcement(
    alloc: Global,
    family: Family,
    limit: usize,
    attrs: &Attrs,
    keys: &[Key],
) -> Result<Written, NoMemory>
    requires some { 0 < length keys.now }
    requires alike { AreAlike keys.now }
    requires family { are_of_family family keys.now ≡ true }
    requires next_hop { attrs.now.next_hop.family ≡ family }
    requires addresses { has_ipv4_addresses attrs.now ≡ true }
    requires short { announcement_bytes family attrs.now (weight_of_all keys.now) ≤ limit }
    requires limit { limit ≤ 65535 }
    ensures { IfOk result (λ w. IsAnnouncementText family limit keys.now attrs.now w.bytes.items w.place) }
{
    match family {
        Family::V4 => announcement4(alloc, limit, attrs, keys),
        Family::V6 => announcement6(alloc, limit, attrs, keys),
    }
}

fn announcement4(
    alloc: Global,
    limit: usize,
    attrs: &Attrs,
    keys: &[Key],
) -> Result<Written, NoMemory>
    requires some { 0 < length keys.now }
    requires alike { AreAlike keys.now }
    requires family { are_of_family V4 keys.now ≡ true }
    requires next_hop { attrs.now.next_hop.family ≡ V4 }
    requires addresses { has_ipv4_addresses attrs.now ≡ true }
    requires short { announcement_bytes V4 attrs.now (weight_of_all keys.now) ≤ limit }
    requires limit { limit ≤ 65535 }
    ensures { IfOk result (λ w. IsAnnouncementText V4 limit keys.now attrs.now w.bytes.items w.place) }
{
    let written = write_update(alloc, attrs, keys)?;
    Ok(written)
}

fn announcement6(
    alloc: Global,
    limit: usize,
    attrs: &Attrs,
    keys: &[Key],
) -> Result<Written, NoMemory>
    requires some { 0 < length keys.now }
    requires alike { AreAlike keys.now }
    requires family { are_of_family V6 keys.now ≡ true }
    requires next_hop { attrs.now.next_hop.family ≡ V6 }
    requires addresses { has_ipv4_addresses attrs.now ≡ true }
    requires short { announcement_bytes V6 attrs.now (weight_of_all keys.now) ≤ limit }
    requires limit { limit ≤ 65535 }
    ensures { IfOk result (λ w. IsAnnouncementText V6 limit keys.now attrs.now w.bytes.items w.place) }
{
    let written = write_update6(alloc, attrs, keys)?;
    Ok(written)
}
