//! Where a member's cursor stands, so that it is searched for once.
use ug_types::PeerId;

/// Where a member's cursor stands in a queue: the member, the index of its entry among the members, and its place, the number of
/// packets in front of its cursor. It is of use until the queue changes.
#[derive(Clone, Copy)]
pub struct Stand {
    pub member: PeerId,
    pub index: usize,
    pub place: usize,
}
