use ug_types::Attrs;

/// What a route map made of a path's attributes, and whether it set the next hop and MULTI_EXIT_DISC.
#[derive(PartialEq, Eq, Drop)]
pub struct Mapped {
    pub attrs: Attrs,
    pub set_next_hop: bool,
    pub set_med: bool,
}
