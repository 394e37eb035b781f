//! What has to be done: subgroups that merge, members that part, and packets that are owed.

ghost use Rattle.std.specs.Prelude.{◌≡◌, ℕ, true, false, not, ◌&&◌, IfSome, IfNone};
ghost use Rattle.ug_group_rules.specs.Machine.{Job, is_turn};
ghost use Rattle.ug_groups.specs.Rows.{may_format_row, must_part_row, some_row, some_merge};
ghost use Rattle.ug_groups.specs.Jobs.{is_work_due};

use crate::Subgroups;
use crate::job::GroupJob;
use ug_world::World;

/// Whether no subgroups have to merge, and none has to part.
pub fn is_ordered(world: &World, subgroups: &Subgroups) -> bool
    ensures { result ≡ (not (some_merge subgroups.now) && not (some_row (must_part_row world.now.local.slow_after) subgroups.now)) }
{
    !some_merge(subgroups) && !some_part(subgroups, world.local().slow_after as u64)
}

#[tactic(auto, using(crate::proofs::WorkDue::some_merge_is))]
fn some_merge(subgroups: &Subgroups) -> bool
    ensures { result ≡ some_merge subgroups.now }
{
    match subgroups.first_to_merge() {
        Some(_) => true,
        None => false,
    }
}

#[tactic(auto, using(crate::proofs::WorkDue::some_row_is))]
fn some_part(subgroups: &Subgroups, after: u64) -> bool
    ensures { result ≡ some_row (must_part_row after) subgroups.now }
{
    match subgroups.first_to_part(after) {
        Some(_) => true,
        None => false,
    }
}

#[tactic(auto, using(crate::proofs::WorkDue::some_row_is))]
fn some_format(subgroups: &Subgroups) -> bool
    ensures { result ≡ some_row may_format_row subgroups.now }
{
    match subgroups.first_to_format() {
        Some(_) => true,
        None => false,
    }
}

/// Whether nothing has to be done before the next event.
pub fn is_settled(world: &World, subgroups: &Subgroups) -> bool
    ensures { result ≡ ((not (some_merge subgroups.now) && not (some_row (must_part_row world.now.local.slow_after) subgroups.now)) && not (is_turn world.now.local.coalesce world.now.version && some_row may_format_row subgroups.now)) }
{
    is_ordered(world, subgroups) && !(is_turn(world) && some_format(subgroups))
}

/// Whether the subgroups have to be formatted after so many events.
fn is_turn(world: &World) -> bool
    ensures { result ≡ is_turn world.now.local.coalesce world.now.version }
{
    let version = world.version();
    let every = world.local().coalesce as u64;
    if every == 0 {
        return false;
    }
    version > 0 && version % every == 0
}

/// The first two subgroups that have to merge, or else the first from which members have to part.
fn next_order(world: &World, subgroups: &Subgroups) -> Option<GroupJob>
    ensures some { IfSome result (λ job. is_work_due world.now.local.slow_after subgroups.now job ≡ true) }
    ensures merged { IfNone result (some_merge subgroups.now ≡ false) }
    ensures parted { IfNone result (some_row (must_part_row world.now.local.slow_after) subgroups.now ≡ false) }
{
    if let Some((sub, other)) = subgroups.first_to_merge() {
        return Some(GroupJob::merge(sub, other));
    }
    match subgroups.first_to_part(world.local().slow_after as u64) {
        Some(sub) => Some(GroupJob::slow(sub)),
        None => None,
    }
}

/// The first that owes a packet, and not behind a full queue.
fn next_format(subgroups: &Subgroups) -> Option<GroupJob>
    ensures some { (after : ℕ) → IfSome result (λ job. is_work_due after subgroups.now job ≡ true) }
    ensures none { IfNone result (some_row may_format_row subgroups.now ≡ false) }
{
    match subgroups.first_to_format() {
        Some(sub) => Some(GroupJob::format(sub)),
        None => None,
    }
}

/// A job that has to be done before the next event.
pub fn next_settling(world: &World, subgroups: &Subgroups) -> Option<GroupJob>
    ensures some { IfSome result (λ job. is_work_due world.now.local.slow_after subgroups.now job ≡ true) }
    ensures none { IfNone result (((not (some_merge subgroups.now) && not (some_row (must_part_row world.now.local.slow_after) subgroups.now)) && not (is_turn world.now.local.coalesce world.now.version && some_row may_format_row subgroups.now)) ≡ true) }
{
    if let Some(job) = next_order(world, subgroups) {
        return Some(job);
    }
    if !is_turn(world) {
        return None;
    }
    next_format(subgroups)
}

/// A job by which more can be told.
#[tactic(auto, using(crate::proofs::WorkDue::no_work))]
pub fn next_draining(world: &World, subgroups: &Subgroups) -> Option<GroupJob>
    ensures some { IfSome result (λ job. is_work_due world.now.local.slow_after subgroups.now job ≡ true) }
    ensures none { IfNone result ((job : Job) → is_work_due world.now.local.slow_after subgroups.now job ≡ false) }
{
    if let Some(job) = next_order(world, subgroups) {
        return Some(job);
    }
    next_format(subgroups)
}
