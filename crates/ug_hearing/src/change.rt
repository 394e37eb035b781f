use ug_types::{Attrs, Shared};

/// A change of what a table has for a key: the first place at which it holds, and the attributes, or that there is no route.
#[derive(Drop)]
pub struct Change {
    pub place: u32,
    pub value: Option<Shared<Attrs>>,
}

/// Where a climb stands: its place, and the number of the first change behind it.
#[derive(Clone, Copy, PartialEq, Eq)]
pub struct Standing {
    pub place: u32,
    pub next: usize,
}
