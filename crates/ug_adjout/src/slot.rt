use ug_intern::AttrId;

/// A place in the list of waiting keys, beside the value that its key waits for. Slots stand by value and then by place, so
/// that the keys that wait for one value stand together, in the order in which they wait.
#[derive(Clone, Copy, PartialEq, Eq, PartialOrd, Ord)]
pub struct Slot {
    pub value: Option<AttrId>,
    pub place: u32,
}
