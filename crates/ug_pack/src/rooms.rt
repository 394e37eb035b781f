//! How much room a message has for routes.

ghost use Rattle.std.specs.Prelude.{◌≡◌, ◌≤◌};
ghost use Rattle.ug_pack.specs.Rooms.{room, room_beside, IsShort};

use ug_message::values_are_short;
use ug_types::{Attrs, Family};
use ug_update::{size_but_next_hop, size_of};

/// How many bytes of routes a message may withdraw.
pub fn room(family: Family, limit: usize) -> usize
    requires { 4096 ≤ limit }
    ensures { result ≡ room family limit }
{
    match family {
        Family::V4 => limit - 23,
        Family::V6 => limit - 30,
    }
}

/// How many bytes of routes a message may announce with these attributes.
#[tactic(auto, using(crate::proofs::Fits::but_next_hop))]
pub fn room_beside(family: Family, limit: usize, attrs: &Attrs) -> usize
    requires limit { 4096 ≤ limit }
    requires short { IsShort attrs.now }
    ensures { result ≡ room_beside family limit attrs.now }
{
    values_are_short();
    match family {
        Family::V4 => limit - (23 + size_of(attrs)),
        Family::V6 => limit - (48 + size_but_next_hop(attrs)),
    }
}
