//! The rows behind a key.
ghost use Rattle.std.specs.Prelude.{◌≡◌, slice_get, option_copied};
ghost use Rattle.ug_adjout.specs.Tables.{rows_after};
ghost use Rattle.ug_adjout.specs.Stored.{projected, formatted_of, desired_of, of_row, start_at};
ghost use Rattle.ug_adjout.specs.Seats.{seat_at, row_of, rows_by};

use crate::seat::{Handle, Seat};
use crate::seats::row_at;
use slab::Slab;
use std::collections::BTreeMap;
use std::ops::Bound;
use ug_intern::AttrId;

/// Where the rows behind the key begin.
pub fn start_of<K: Copy>(key: Option<&K>) -> Bound<K>
    ensures { result ≡ start_at (option_copied key.entry) }
{
    match key {
        Some(key) => Bound::Excluded(*key),
        None => Bound::Unbounded,
    }
}

/// The least row of a formatted key above this one, or the first.
pub fn first_formatted<K: Ord + Copy + Drop>(
    index: &BTreeMap<K, Handle>,
    seats: &Slab<Seat<K>>,
    key: Option<&K>,
) -> Option<(K, AttrId)>
    ensures { result ≡ slice_get (rows_after K.cmp (option_copied key.entry) (projected formatted_of (rows_by (seat_at seats.now.slots) index.now.entries))) 0 }
{
    for (key, handle) in index.range((start_of(key), Bound::Unbounded)) {
        if let Some(id) = formatted_at(seats, *handle) {
            return Some((*key, id));
        }
    }
    None
}

/// The least row of a desired key above this one, or the first.
pub fn first_desired<K: Ord + Copy + Drop>(
    index: &BTreeMap<K, Handle>,
    seats: &Slab<Seat<K>>,
    key: Option<&K>,
) -> Option<(K, AttrId)>
    ensures { result ≡ slice_get (rows_after K.cmp (option_copied key.entry) (projected desired_of (rows_by (seat_at seats.now.slots) index.now.entries))) 0 }
{
    for (key, handle) in index.range((start_of(key), Bound::Unbounded)) {
        if let Some(id) = desired_at(seats, *handle) {
            return Some((*key, id));
        }
    }
    None
}

/// What was formatted for the key at the handle.
fn formatted_at<K>(seats: &Slab<Seat<K>>, handle: Handle) -> Option<AttrId>
    ensures { result ≡ of_row formatted_of (row_of (seat_at seats.now.slots handle)) }
{
    match row_at(seats, handle) {
        Some(row) => row.formatted,
        None => None,
    }
}

/// What the key at the handle is desired with.
fn desired_at<K>(seats: &Slab<Seat<K>>, handle: Handle) -> Option<AttrId>
    ensures { result ≡ of_row desired_of (row_of (seat_at seats.now.slots handle)) }
{
    match row_at(seats, handle) {
        Some(row) => row.desired(),
        None => None,
    }
}
