use ug_outbound::{Local, PeerTable, PolicyTable};
use ug_policy::{ListTable, MapTable};

/// What a world is made of: settings, lists, maps, policies, and peers in configured order.
#[derive(Drop)]
pub struct WorldParts {
    pub local: Local,
    pub lists: ListTable,
    pub maps: MapTable,
    pub policies: PolicyTable,
    pub peers: PeerTable,
}
