/// The refresh of a subgroup whose key has enhanced refresh (RFC 7313 section 4): none, one whose begin is owed, or one
/// that has begun and not ended.
#[derive(Clone, Copy, PartialEq, Eq)]
pub enum Phase {
    Quiet,
    Owed,
    Open,
}
