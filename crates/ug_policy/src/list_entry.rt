//! Entries of prefix lists.

ghost use Rattle.std.specs.Prelude.{◌≡◌};
ghost use Rattle.ug_policy.specs.Lists.{is_bound, are_ordered, is_good};

use ug_types::{Family, Prefix, Sequence};

/// An entry of a prefix list. It matches a prefix that its own covers and whose length is in its range: its own length
/// without `ge` and `le`, `ge` to 32 with `ge` alone, its own length to `le` with `le` alone, `ge` to `le` with both.
#[derive(Clone, Copy, PartialEq, Eq)]
pub struct ListEntry {
    /// By these numbers the entries are tried, the lowest first.
    pub seq: u32,
    /// Whether what matches is permitted, or denied.
    pub permit: bool,
    pub prefix: Prefix,
    /// The least length that matches.
    pub ge: Option<u8>,
    /// The greatest length that matches.
    pub le: Option<u8>,
}

pub type EntryList = Sequence<ListEntry>;

impl ListEntry {
    /// Whether a list takes it: it is an IPv4 one, and its bounds follow one another.
    pub fn is_good(&self) -> bool
        ensures { result ≡ is_good self.now }
    {
        let len = self.prefix.len;
        self.prefix.family == Family::V4
            && is_bound(len, self.ge)
            && is_bound(len, self.le)
            && are_ordered(self.ge, self.le)
    }
}

/// Whether a bound, where it is given, lies between a length and 32.
fn is_bound(len: u8, bound: Option<u8>) -> bool
    ensures { result ≡ is_bound len bound }
{
    match bound {
        None => true,
        Some(bound) => len <= bound && bound <= 32,
    }
}

/// Whether two bounds, where both are given, follow one another.
fn are_ordered(ge: Option<u8>, le: Option<u8>) -> bool
    ensures { result ≡ are_ordered ge le }
{
    match (ge, le) {
        (Some(ge), Some(le)) => ge <= le,
        _ => true,
    }
}
