//! Which prefix lists are refused: the lowest number answers (`ug_policy`).

use std::alloc::Global;
use ug_policy::{Filter, ListEntry, ListRefusal, PrefixList};
use ug_types::{Family, NoMemory, Prefix, Sequence};

const GOOD: ListEntry = ListEntry {
    seq: 5,
    permit: true,
    prefix: Prefix {
        family: Family::V4,
        bits: 0x0A00_0000 << 96,
        len: 8,
    },
    ge: Some(8),
    le: None,
};

/// Of an entry for 10.0.0.0/8: its sequence number, the least and the greatest length that match, how many good ones of rising
/// numbers from 5 on stand behind it, and the number of the refusal of their list, 0 where there is none.
const CASES: [(u32, Option<u8>, Option<u8>, u32, u8); 12] = [
    (1, None, None, 1, 0),
    (5, None, None, 1, 1),
    (5, Some(7), None, 1, 1),
    (9, Some(8), None, 1, 0),
    (9, Some(7), None, 1, 2),
    (9, Some(33), None, 1, 2),
    (9, None, Some(33), 1, 2),
    (9, None, Some(7), 1, 2),
    (9, Some(16), Some(15), 1, 2),
    (9, Some(16), Some(16), 1, 0),
    (1, None, None, 1023, 0),
    (1, None, None, 1024, 3),
];

/// The number of the refusal of a list: this entry, and then so many good ones.
fn refusal_of(alloc: Global, first: ListEntry, count: u32) -> Result<u8, NoMemory> {
    let mut entries = Vec::new(alloc);
    entries.push(first)?;
    for i in 0..count.min(2000) {
        entries.push(ListEntry { seq: 5 + i, ..GOOD })?;
    }
    match PrefixList::new(Sequence::from_vec(entries)) {
        Ok(_) => Ok(0),
        Err(ListRefusal::Refused { number }) => Ok(number),
        Err(ListRefusal::NoMemory) => Err(NoMemory),
    }
}

#[test]
fn lists_are_made_or_refused(rt: HostRuntime) {
    for (seq, ge, le, count, number) in CASES {
        let first = ListEntry {
            seq,
            ge,
            le,
            ..GOOD
        };
        assert!(rt;
            refusal_of(rt.alloc(), first, count) == Ok(number),
            "{seq} {count}"
        );
    }
}

/// Whether a filter of one entry and its copy are the same, and another than the one that permits all.
fn is_copied(alloc: Global) -> Result<bool, NoMemory> {
    let mut entries = Vec::new(alloc);
    entries.push(GOOD)?;
    let filter = Filter::new(Sequence::from_vec(entries));
    Ok(filter.copy(alloc)? == filter && filter != Filter::none(alloc))
}

#[test]
fn a_filter_is_copied(rt: HostRuntime) {
    assert!(rt; is_copied(rt.alloc()) == Ok(true));
}
