use crate::subgroup::Subgroup;

/// A subgroup that is there, and its class: those of equal keys are of one class, and no others.
#[derive(Drop)]
pub struct Entry {
    pub class: u64,
    pub subgroup: Subgroup,
}
