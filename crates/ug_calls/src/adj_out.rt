//! The Adj-RIB-Out, call by call (`ug_adjout`).

use ug_adjout::{AdjOut, Desired};
use ug_types::{Family, Key, NoMemory, Prefix};

/// The key of the IPv4 default route with that path identifier: it takes five bytes.
const fn key_of(id: u32) -> Key {
    Key {
        prefix: Prefix {
            family: Family::V4,
            bits: 0,
            len: 0,
        },
        id,
    }
}

/// What a key was formatted with, and what it is.
type Formatted = (Option<u32>, Option<u32>);

/// A call, and what has to come of it for the key.
#[derive(Clone, Copy)]
enum Call {
    /// The key is desired with this value from now on, or no more; what it was desired with.
    Want(u32, Option<u32>, Option<u32>),
    /// It is formatted, where it waits; what it was formatted with, and what it is.
    Mark(u32, Option<Formatted>),
    /// All keys are told again.
    Force,
    /// A copy goes on in its place.
    Copy,
    /// How many wait, the first that wait for a withdrawal in as many bytes, and the first that wait alike.
    Waits(usize, usize, &'static [u32], &'static [u32]),
}

const CALLS: [Call; 23] = [
    Call::Want(1, Some(5), None),
    Call::Want(2, Some(6), None),
    Call::Want(3, Some(5), None),
    Call::Waits(3, 100, &[], &[1, 3]),
    Call::Waits(3, 9, &[], &[1]),
    Call::Want(1, None, Some(5)),
    Call::Waits(2, 100, &[], &[2]),
    Call::Mark(1, None),
    Call::Mark(2, Some((None, Some(6)))),
    Call::Mark(2, None),
    Call::Mark(3, Some((None, Some(5)))),
    Call::Waits(0, 100, &[], &[]),
    // What is desired as it is formatted waits for nothing.
    Call::Want(2, Some(6), Some(6)),
    Call::Want(2, None, Some(6)),
    Call::Waits(1, 100, &[2], &[]),
    Call::Want(2, Some(6), None),
    Call::Waits(0, 100, &[], &[]),
    Call::Want(3, None, Some(5)),
    Call::Force,
    Call::Copy,
    Call::Waits(2, 100, &[3], &[2]),
    Call::Mark(2, Some((Some(6), Some(6)))),
    Call::Mark(3, Some((Some(5), None))),
];

/// Whether the keys have these identifiers.
fn are(keys: &[Key], ids: &[u32]) -> bool {
    for (i, key) in keys.iter().enumerate() {
        if ids.get(i) != Some(&key.id) {
            return false;
        }
    }
    keys.len() == ids.len()
}

/// The key is formatted, by the one call where it is known to wait.
fn marks(adj: &mut AdjOut<Key>, key: Key) -> Result<Option<Formatted>, NoMemory> {
    if adj.is_pending(&key) {
        let marked = adj.mark_formatted(&key)?;
        return Ok(Some((marked.was, marked.now)));
    }
    match adj.mark_if_pending(&key) {
        Some(marked) => Ok(Some((marked.was, marked.now))),
        None => Ok(None),
    }
}

/// Whether what comes of a call is what has to come of it.
fn is_right(adj: &mut AdjOut<Key>, call: Call) -> Result<bool, NoMemory> {
    Ok(match call {
        Call::Want(key, Some(id), was) => adj.set(key_of(key), id)? == was,
        Call::Want(key, None, was) => adj.clear(&key_of(key))? == was,
        Call::Mark(key, marked) => marks(adj, key_of(key))? == marked,
        Call::Force => adj.force_all().is_ok(),
        Call::Copy => {
            *adj = adj.copy()?;
            true
        }
        Call::Waits(count, room, withdrawn, alike) => {
            adj.pending_len() == count
                && are(adj.first_withdrawals(room)?.as_slice(), withdrawn)
                && are(adj.first_alike(room)?.as_slice(), alike)
        }
    })
}

#[test]
fn each_call_does_what_it_says(rt: HostRuntime) {
    let mut adj = AdjOut::new(rt.alloc());
    for (place, call) in CALLS.iter().enumerate() {
        assert!(rt; is_right(&mut adj, *call) == Ok(true), "{place}");
    }
}

#[test]
fn a_value_for_each_key(rt: HostRuntime) {
    let mut desired = Desired::new(rt.alloc());
    for (key, id, was) in [(2, Some(6), None), (1, Some(5), None), (2, None, Some(6))] {
        assert!(rt; desired.put(key_of(key), id) == Ok(was) && desired.get(&key_of(key)) == id);
    }
    assert!(rt; desired.row_after(None).is_some() && desired.row_after(Some(&key_of(1))).is_none());
}
