//! Searches among all subgroups, in order of number.

ghost use Rattle.std.specs.Prelude.{◌≡◌, ◌==◌, ◌&&◌, not, position, is_some, IfSome, ◌<◌, length};
ghost use Rattle.ug_group_rules.specs.Machine.{owes, is_joinable};
ghost use Rattle.ug_groups.specs.Rows.{has_packets, may_format_row, must_part_row};
ghost use Rattle.ug_groups.specs.Entries.{bare, may_merge_entries};
ghost use Rattle.ug_groups.specs.Scans.{number_at};

use crate::company::some_alike;
use crate::entry::Entry;
use crate::states;
use ug_outbound::GroupKey;

/// The number of the entry at a place.
pub fn number_of(entries: &[(u32, Entry)], place: Option<usize>) -> Option<u32>
    requires { IfSome place (λ i. i < length entries.now) }
    ensures { result ≡ number_at place entries.now }
{
    match place {
        Some(i) => Some(entries[i].0),
        None => None,
    }
}

/// The first that owes a packet and isn't full.
pub fn place_to_format(entries: &[(u32, Entry)]) -> Option<usize>
    ensures { result ≡ position (λ r. may_format_row (bare r.1)) entries.now }
{
    entries.iter().position(|e| states::may_format(&e.1))
}

/// The first from which members have to part.
pub fn place_to_part(entries: &[(u32, Entry)], after: u64) -> Option<usize>
    ensures { result ≡ position (λ r. must_part_row after (bare r.1)) entries.now }
{
    entries.iter().position(|e| states::must_part(&e.1, after))
}

/// The first that owes a packet.
pub fn place_that_owes(entries: &[(u32, Entry)]) -> Option<usize>
    ensures { result ≡ position (λ r. owes (bare r.1).sub) entries.now }
{
    entries.iter().position(|e| states::owes(&e.1))
}

/// The first whose queue holds a packet.
pub fn place_with_packets(entries: &[(u32, Entry)]) -> Option<usize>
    ensures { result ≡ position (λ r. has_packets (bare r.1)) entries.now }
{
    entries.iter().position(|e| states::has_packets(&e.1))
}

/// The first that a session of this key that starts may share.
pub fn place_to_join(entries: &[(u32, Entry)], key: &GroupKey) -> Option<usize>
    ensures { result ≡ position (λ r. is_joinable key.now (bare r.1).sub) entries.now }
{
    entries.iter().position(|e| states::is_joinable(&e.1, key))
}

/// The first other one whose members may move to the end of the queue of this one.
pub fn place_of_partner(entries: &[(u32, Entry)], e: &(u32, Entry)) -> Option<usize>
    ensures { result ≡ position (λ r. not (e.now.0 == r.0) && may_merge_entries e.now.1 r.1) entries.now }
{
    entries.iter().position(|other| has_partner(e, other))
}

/// Whether the members of the second may move to the end of the queue of the first, another one.
fn has_partner(e: &(u32, Entry), other: &(u32, Entry)) -> bool
    ensures { result ≡ (not (e.now.0 == other.now.0) && may_merge_entries e.now.1 other.now.1) }
{
    e.0 != other.0 && states::may_merge(&e.1, &other.1)
}

/// Whether this one is level, and there is another one whose members may move to the end of its queue.
fn has_any_partner(entries: &[(u32, Entry)], e: &(u32, Entry)) -> bool
    ensures { result ≡ is_some (position (λ r. not (e.now.0 == r.0) && may_merge_entries e.now.1 r.1) entries.now) }
{
    states::is_level(&e.1) && place_of_partner(entries, e).is_some()
}

/// The first that has a partner. Where all classes of those that are level differ, one look at each is enough.
pub fn place_to_merge(entries: &[(u32, Entry)]) -> Option<usize>
    ensures { result ≡ position (λ q. is_some (position (λ r. not (q.0 == r.0) && may_merge_entries q.1 r.1) entries.now)) entries.now }
{
    if !some_alike(entries) {
        return None;
    }
    entries.iter().position(|e| has_any_partner(entries, e))
}
