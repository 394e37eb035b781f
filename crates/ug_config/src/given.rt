use crate::items::Items;
use ug_policy::OnMatch;
use ug_types::{Addr, Family, Name, Prefix};

/// What a field says.
#[derive(Drop)]
pub enum Given {
    Absent,
    Number(u32),
    /// A prefix's length, or an ORIGIN.
    Octet(u8),
    Flag(bool),
    Name(Name),
    Address(Addr),
    Prefix(Prefix),
    Family(Family),
    OnMatch(OnMatch),
    Numbers(Items<u32>),
    /// A table, or an array of tables: it is read by itself.
    Inner,
}
