use ug_outbound::GroupKey;
use ug_types::Name;

/// A peer by its name, with its group key.
#[derive(Drop)]
pub struct Member {
    pub name: Name,
    pub key: GroupKey,
}
