ghost use Rattle.std.specs.Prelude.{◌<◌};
ghost use Rattle.std.specs.Option.{ForSome};

use ug_types::{Addr, Aggregator, Name, NumberList, SegmentList};

/// The fields of a path that have been read.
#[derive(Drop)]
pub struct PathFields {
    pub id: Option<u32>,
    pub from: Option<Option<Name>>,
    pub next_hop: Option<Addr>,
    pub origin: Option<u8>,
    pub path: Option<SegmentList>,
    pub med: Option<u32>,
    pub local_pref: Option<u32>,
    pub atomic: bool,
    pub aggregator: Option<Aggregator>,
    pub communities: Option<NumberList>,
    pub originator: Option<Addr>,
    pub clusters: Option<NumberList>,
    // an identifier isn't 0
    ghost positive: { ForSome id (λ n. 0 < n) },
}
