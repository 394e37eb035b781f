use ug_types::{Addr, Name, NumberList, Sequence};

/// Where the walk goes on after a permit entry that is met.
#[derive(Clone, Copy, PartialEq, Eq)]
pub enum OnMatch {
    /// It ends.
    End,
    /// At the next entry.
    Next,
    /// At the first entry whose sequence number is at least this one.
    Goto(u32),
}

/// An entry of a route map. It is met where all its matches hold. A met deny entry gives none, whatever it sets. A met
/// permit entry does its sets, in the order of the fields.
#[derive(Drop)]
pub struct MapEntry {
    /// By these numbers the entries are tried, the lowest first.
    pub seq: u32,
    pub permit: bool,
    pub on_match: OnMatch,
    /// The list of that name permits the prefix.
    pub match_prefix_list: Option<Name>,
    /// COMMUNITIES has this one.
    pub match_community: Option<u32>,
    /// ORIGIN is this one.
    pub match_origin: Option<u8>,
    /// MULTI_EXIT_DISC is there, and this one.
    pub match_med: Option<u32>,
    /// LOCAL_PREF, or 100 where it is absent, is this one.
    pub match_local_pref: Option<u32>,
    /// At most 2.
    pub set_origin: Option<u8>,
    /// The raw next hop, which no peer's own address then replaces.
    pub set_next_hop: Option<Addr>,
    pub set_med: Option<u32>,
    pub set_local_pref: Option<u32>,
    /// Put in front of AS_PATH, so that the first number stands first.
    pub set_prepend: Option<NumberList>,
    /// In place of COMMUNITIES.
    pub set_communities: Option<NumberList>,
    /// Added at the end of COMMUNITIES, in order, where they aren't there yet.
    pub add_communities: Option<NumberList>,
}

pub type MapEntryList = Sequence<MapEntry>;
