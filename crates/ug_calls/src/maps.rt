//! Which route maps are refused: the lowest number answers (`ug_policy`).

use std::alloc::Global;
use ug_policy::{MapEntry, MapRefusal, OnMatch, RouteMap, set_known_origins};
use ug_types::{Name, NoMemory, NumberList, Sequence};

/// A permit entry: its sequence number, where it goes on, the list that it asks, and how many numbers it prepends, and how many
/// communities it sets and adds.
type Row = (u32, OnMatch, &'static str, u32, u32, u32);

const PLAIN: Row = (5, OnMatch::End, "", 0, 0, 0);

/// An entry, how often another one stands behind it, each time with a lower sequence number, and that one; and the number of
/// the refusal of a map of them over the one list `x`, 0 where there is none.
const CASES: [(Row, u32, Row, u8); 16] = [
    (PLAIN, 0, PLAIN, 0),
    (PLAIN, 1, (5, OnMatch::Goto(5), "", 0, 0, 0), 1),
    (PLAIN, 1, (10, OnMatch::Goto(10), "", 0, 0, 0), 2),
    (PLAIN, 1, (10, OnMatch::Goto(11), "", 0, 0, 0), 0),
    (PLAIN, 1, (7, OnMatch::Next, "x", 0, 0, 0), 0),
    (PLAIN, 1, (7, OnMatch::Next, "y", 0, 0, 0), 4),
    (
        (7, OnMatch::End, "y", 0, 0, 0),
        1,
        (10, OnMatch::Goto(9), "", 0, 0, 0),
        2,
    ),
    (PLAIN, 1, (7, OnMatch::End, "", 16, 0, 0), 0),
    (PLAIN, 1, (7, OnMatch::End, "", 17, 0, 0), 5),
    (
        (8, OnMatch::End, "y", 0, 0, 0),
        1,
        (7, OnMatch::End, "", 17, 0, 0),
        4,
    ),
    (
        (8, OnMatch::End, "", 9, 0, 0),
        1,
        (7, OnMatch::End, "", 8, 0, 0),
        5,
    ),
    (PLAIN, 1, (7, OnMatch::End, "", 0, 9, 7), 0),
    (
        (8, OnMatch::End, "", 0, 1, 0),
        1,
        (7, OnMatch::End, "", 0, 9, 7),
        5,
    ),
    (PLAIN, 255, (1000, OnMatch::End, "", 0, 0, 0), 0),
    (PLAIN, 256, (1000, OnMatch::End, "", 0, 0, 0), 3),
    (PLAIN, 256, (1000, OnMatch::End, "y", 0, 0, 0), 3),
];

/// The number 7, so many times.
fn sevens(alloc: Global, count: u32) -> Result<Option<NumberList>, NoMemory> {
    if count == 0 {
        return Ok(None);
    }
    let mut numbers = Vec::new(alloc);
    for _ in 0..count {
        numbers.push(7)?;
    }
    Ok(Some(Sequence::from_vec(numbers)))
}

fn entry_of(alloc: Global, row: Row, below: u32) -> Result<MapEntry, NoMemory> {
    let (seq, on_match, list, prepended, set, added) = row;
    Ok(MapEntry {
        seq: seq.saturating_sub(below),
        permit: true,
        on_match,
        match_prefix_list: Name::read(alloc, list.as_bytes())?,
        match_community: None,
        match_origin: None,
        match_med: None,
        match_local_pref: None,
        set_origin: None,
        set_next_hop: None,
        set_med: None,
        set_local_pref: None,
        set_prepend: sevens(alloc, prepended)?,
        set_communities: sevens(alloc, set)?,
        add_communities: sevens(alloc, added)?,
    })
}

/// The number of the refusal of a map: this entry, and then the other one so many times.
fn refusal_of(alloc: Global, first: Row, count: u32, other: Row) -> Result<u8, NoMemory> {
    let mut entries = Vec::new(alloc);
    entries.push(entry_of(alloc, first, 0)?)?;
    for i in 0..count {
        entries.push(entry_of(alloc, other, i)?)?;
    }
    let entries = Sequence::from_vec(entries);
    let mut lists = Vec::new(alloc);
    if let Some(name) = Name::read(alloc, b"x")? {
        lists.push(name)?;
    }
    if !set_known_origins(&entries) {
        return Ok(0);
    }
    match RouteMap::new(entries, &Sequence::from_vec(lists)) {
        Ok(_) => Ok(0),
        Err(MapRefusal::Refused { number }) => Ok(number),
        Err(MapRefusal::NoMemory) => Err(NoMemory),
    }
}

#[test]
fn maps_are_made_or_refused(rt: HostRuntime) {
    for (first, count, other, number) in CASES {
        let refusal = refusal_of(rt.alloc(), first, count, other);
        assert!(rt; refusal == Ok(number), "{number} {count}");
    }
}
