//! What lies at a handle.
ghost use Rattle.std.specs.Prelude.{◌≡◌, IsSome, Some};
ghost use Rattle.ug_adjout.specs.Seats.{seat_at, key_of, row_of, IsReseated};

use crate::row::Row;
use crate::seat::{Handle, Seat};
use slab::Slab;

/// The key at the handle.
pub fn key_at<K: Copy>(seats: &Slab<Seat<K>>, handle: Handle) -> Option<K>
    ensures { result ≡ key_of (seat_at seats.now.slots handle) }
{
    match seats.get(handle as usize) {
        Some(seat) => Some(seat.key),
        None => None,
    }
}

/// The row at the handle.
pub fn row_at<K>(seats: &Slab<Seat<K>>, handle: Handle) -> Option<Row>
    ensures { result ≡ row_of (seat_at seats.now.slots handle) }
{
    match seats.get(handle as usize) {
        Some(seat) => Some(seat.row.row()),
        None => None,
    }
}

/// This lies at the handle now, where something lay.
pub fn reseat<K: Drop>(seats: &mut Slab<Seat<K>>, handle: Handle, seat: Seat<K>)
    requires { IsSome (seat_at seats.old.slots handle) }
    ensures { IsReseated (seat_at seats.old.slots) (seat_at seats.new.slots) handle seat.key (Some seat.row) }
{
    let Some(place) = seats.get_mut(handle as usize) else {
        unreachable!()
    };
    *place = seat;
}
