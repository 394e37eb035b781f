//! What one subgroup is, and what may be done with it.

ghost use Rattle.std.specs.Prelude.{◌≡◌, ◌==◌, ◌&&◌, nat_le};
ghost use Rattle.ug_group_rules.specs.Machine.{owes, is_level, is_pending, is_joinable};
ghost use Rattle.ug_groups.specs.Rows.{has_packets, is_full_row, is_parted_row, may_format_row, must_part_row};
ghost use Rattle.ug_groups.specs.Entries.{bare, may_merge_entries};

use crate::entry::Entry;
use ug_outbound::GroupKey;

/// Whether its queue holds as many packets as it may.
pub fn is_full(e: &Entry) -> bool
    ensures { result ≡ is_full_row (bare e.now) }
{
    e.subgroup.is_full()
}

/// Whether its queue holds a packet.
pub fn has_packets(e: &Entry) -> bool
    ensures { result ≡ has_packets (bare e.now) }
{
    0 < e.subgroup.len()
}

/// Whether a packet is owed.
pub fn owes(e: &Entry) -> bool
    ensures { result ≡ owes (bare e.now).sub }
{
    e.subgroup.owes()
}

/// Whether a session of this key that starts may share it.
pub fn is_joinable(e: &Entry, key: &GroupKey) -> bool
    ensures { result ≡ is_joinable key.now (bare e.now).sub }
{
    e.subgroup.is_joinable(key)
}

/// Whether all is told.
pub fn is_level(e: &Entry) -> bool
    ensures { result ≡ is_level (bare e.now).sub }
{
    e.subgroup.is_level()
}

/// Whether keys are pending.
fn is_pending(e: &Entry) -> bool
    ensures { result ≡ is_pending (bare e.now).sub }
{
    e.subgroup.is_pending()
}

/// Whether a packet is owed, and its queue isn't full.
pub fn may_format(e: &Entry) -> bool
    ensures { result ≡ may_format_row (bare e.now) }
{
    owes(e) && !is_full(e)
}

/// Whether some members stand at the front of its queue, and others behind it.
fn is_parted(e: &Entry) -> bool
    ensures { result ≡ is_parted_row (bare e.now) }
{
    let front = e.subgroup.count_at_front();
    0 < front && front < e.subgroup.member_count()
}

/// Whether its queue was full through so many events with keys pending.
fn is_stuck(e: &Entry, after: u64) -> bool
    ensures { result ≡ (is_pending (bare e.now).sub && nat_le after (bare e.now).sub.stuck) }
{
    is_pending(e) && after <= e.subgroup.stuck()
}

/// Whether those at the front of its queue have to leave it.
pub fn must_part(e: &Entry, after: u64) -> bool
    ensures { result ≡ must_part_row after (bare e.now) }
{
    is_stuck(e, after) && (is_full(e) && is_parted(e))
}

/// Whether the second is level, and of the class of the first.
fn is_alike(e: &Entry, other: &Entry) -> bool
    ensures { result ≡ (is_level (bare other.now).sub && (e.now.class == other.now.class)) }
{
    is_level(other) && e.class == other.class
}

/// Whether both are level, and of one class.
fn are_level(e: &Entry, other: &Entry) -> bool
    ensures { result ≡ (is_level (bare e.now).sub && (is_level (bare other.now).sub && (e.now.class == other.now.class))) }
{
    is_level(e) && is_alike(e, other)
}

/// Whether the members of the second may move to the end of the first one's queue, by their classes.
pub fn may_merge(e: &Entry, other: &Entry) -> bool
    ensures { result ≡ may_merge_entries e.now other.now }
{
    are_level(e, other) && other.subgroup.len() == 0
}
