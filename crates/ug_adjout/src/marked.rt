use ug_intern::AttrId;

/// What was formatted for a key before, and what is formatted for it now.
#[derive(Clone, Copy, PartialEq, Eq)]
pub struct Marked {
    pub was: Option<AttrId>,
    pub now: Option<AttrId>,
}
