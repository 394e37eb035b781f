//! The cuts of a wire in memory: the totals of bytes at which a send fails once.

ghost use Rattle.std.specs.Prelude.{◌≡◌, ◌<◌, ◌≤◌, length, nat_le, position, IfSome};
ghost use Rattle.ug_edge.specs.WireState.{room_before_cut, cuts_left};

use ug_types::Sequence;

/// How many of some bytes can be sent before the nearest cut.
pub(crate) fn room_before(cuts: &Sequence<u64>, sent: u64, count: usize) -> usize
    ensures room { result ≡ room_before_cut sent cuts.now.items count }
    ensures within { result ≤ count }
{
    let mut room = count as u64;
    for total in cuts.as_slice() {
        room = room.min(total.saturating_sub(sent));
    }
    room as usize
}

/// The place of the first of the cuts that are reached.
fn reached(cuts: &Sequence<u64>, sent: u64) -> Option<usize>
    ensures place { result ≡ position (λ total. nat_le total sent) cuts.now.items }
    ensures within { IfSome result (λ place. place < length cuts.now.items) }
{
    cuts.as_slice().iter().position(|total| *total <= sent)
}

/// Takes out the first of the cuts that are reached.
pub(crate) fn spend(cuts: &mut Sequence<u64>, sent: u64)
    ensures { cuts.new.items ≡ cuts_left sent cuts.old.items }
{
    if let Some(place) = reached(cuts, sent) {
        let _total = cuts.remove(place);
    }
}
