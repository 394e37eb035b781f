use crate::kind::Kind;
use ug_policy::Filter;
use ug_types::{Family, Name};

/// What decides what goes out to a peer. Peers of equal keys are sent the same routes but for the next hop.
#[derive(PartialEq, Eq, Drop)]
pub struct GroupKey {
    pub kind: Kind,
    /// The family of the routes that it is sent.
    pub family: Family,
    /// The names of its policy's prefix list and route map.
    pub list: Option<Name>,
    pub map: Option<Name>,
    pub next_hop_self: bool,
    /// The peer's AS where it is to be replaced by the local one.
    pub as_override: Option<u32>,
    pub remove_private_as: bool,
    pub send_community: bool,
    pub add_path: bool,
    pub extended: bool,
    pub enhanced_refresh: bool,
    /// The peer's own filter.
    pub filter: Filter,
}
