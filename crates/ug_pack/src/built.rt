use ug_message::Packet;
use ug_types::{Key, KeyList};

/// A packet, and the keys of which it tells.
#[derive(Drop)]
pub struct Built {
    pub packet: Packet,
    pub keys: KeyList<Key>,
}
