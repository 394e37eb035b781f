use std::rc::Rc;
use ug_types::Attrs;

/// What the routes of an UPDATE share: its attributes, and how many refreshes had begun when they were announced.
#[derive(Drop)]
pub struct Announced {
    pub attrs: Attrs,
    pub seen: u64,
}

/// What is kept of a route.
#[derive(Drop)]
pub struct Row {
    pub shared: Rc<Announced>,
}
