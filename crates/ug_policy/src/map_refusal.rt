/// Why there is no route map of some entries.
#[derive(Clone, Copy, PartialEq, Eq)]
pub enum MapRefusal {
    /// 1 two entries have one sequence number, 2 a goto isn't ahead of its entry, 3 there are over 256 entries, 4 an
    /// unknown list is named, 5 over 16 numbers are prepended, or over 16 communities set and added, in the whole map.
    Refused { number: u8 },
    /// Memory ran out.
    NoMemory,
}
