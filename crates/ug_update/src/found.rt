//! What has been read of a message's attributes so far.

ghost use Rattle.std.specs.Prelude.{◌≡◌, ◌+◌, ◌≤◌, true};
ghost use Rattle.std.specs.Option.{ForSome};
ghost use Rattle.ug_update.specs.Sound.{is_sound_origin, is_sound_path};

use crate::multiprotocol::{Placed, Reach};
use ug_types::{Addr, Aggregator, ByteList, NumberList, SegmentList};

/// The types that were there, known or not, and the values.
#[derive(Drop)]
pub struct Found {
    /// How many bytes all attributes have.
    pub limit: usize,
    pub types: ByteList,
    pub origin: Option<u8>,
    pub path: Option<SegmentList>,
    pub next_hop: Option<Addr>,
    pub med: Option<u32>,
    pub local_pref: Option<u32>,
    pub atomic: bool,
    pub aggregator: Option<Aggregator>,
    pub communities: NumberList,
    pub originator: Option<Addr>,
    pub clusters: NumberList,
    pub reach: Option<Reach>,
    pub unreach: Option<Placed>,
    ghost origin_known: { is_sound_origin origin ≡ true },
    ghost path_formed: { is_sound_path path ≡ true },
    ghost reach_within: { ForSome reach (λ r. r.routes.place + r.routes.size ≤ limit) },
    ghost unreach_within: { ForSome unreach (λ p. p.place + p.size ≤ limit) },
}

/// An attribute as it stands in a message: its flags, its type, and its value with the place of that.
#[derive(Clone, Copy)]
pub struct Standing<'a> {
    pub flags: u8,
    pub kind: u8,
    pub place: usize,
    pub value: &'a [u8],
}
