use ug_intern::AttrId;

/// A key that waits for a packet, and the value that it waits for; without one it waits for its withdrawal.
#[derive(Clone, Copy, Drop)]
pub struct Waiting<K> {
    pub key: K,
    pub value: Option<AttrId>,
}
