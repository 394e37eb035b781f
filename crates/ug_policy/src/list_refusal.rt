/// Why there is no prefix list of some entries.
#[derive(Clone, Copy, PartialEq, Eq)]
pub enum ListRefusal {
    /// 1 two entries have one sequence number, 2 an entry isn't good, 3 there are over 1,024.
    Refused { number: u8 },
    /// Memory ran out.
    NoMemory,
}
