ghost use Rattle.std.specs.Prelude.{◌≡◌, true, ◌+◌, ◌^◌, ◌<◌, ◌++◌, length, OnOk, OnErr, IfOk};
ghost use Rattle.ug_types.specs.Attributes.{attributes_of};
ghost use Rattle.ug_message.specs.AttributeTable.{before_next_hop, next_hop, after_next_hop};
ghost use Rattle.ug_message.specs.Spelling.{attributes, attributes_but_next_hop, next_hop_place};
ghost use Rattle.ug_message.specs.Spellable.{has_ipv4_addresses, can_be_spelled};
ghost use Rattle.ug_message.specs.Lengths.{HasShortValues};

use crate::attributes::next_hop::NextHop;
use crate::formed::know;
use crate::row::Spelled;
use crate::table::{Before, Behind};
use ug_types::{AttrParts, Attrs, ByteList, NoMemory};

/// How many bytes the attributes take in a message.
#[tactic(auto, using(ug_message::proofs::AttributeParts::attributes_steps))]
pub fn size_of(attrs: &Attrs) -> usize
    requires { HasShortValues attrs.now }
    ensures { result ≡ length (attributes attrs.now) }
{
    let parts = attrs.parts();
    before_size(parts) + next_hop_size(parts) + behind_size(parts)
}

/// Adds the attributes at the end, by ascending type, and answers where the value of NEXT_HOP stands in the list.
/// Running out of memory leaves the list as it was.
#[tactic(auto, using(ug_message::proofs::AttributeParts::attributes_steps))]
pub fn write_attrs(out: &mut ByteList, attrs: &Attrs) -> Result<usize, NoMemory>
    requires { HasShortValues attrs.now }
    ensures ok { OnOk result (out.new.items ≡ out.old.items ++ attributes attrs.now) }
    ensures place { IfOk result (λ place. place ≡ length out.old.items + next_hop_place attrs.now) }
    ensures err { OnErr result (out.new.items ≡ out.old.items) }
    // With addresses of the families that messages have, they can be spelled.
    ensures formed { has_ipv4_addresses attrs.now ≡ true → can_be_spelled attrs.now.next_hop.family attrs.now ≡ true }
{
    know(attrs);
    let parts = attrs.parts();
    out.reserve(size_of(attrs))?;
    Before::put(out, parts);
    NextHop::put(out, parts);
    // Its value has the last four bytes so far.
    let place = out.len() - 4;
    Behind::put(out, parts);
    Ok(place)
}

/// How many bytes all attributes but NEXT_HOP take.
#[tactic(auto, using(ug_message::proofs::AttributeParts::but_next_hop_steps))]
pub fn size_but_next_hop(attrs: &Attrs) -> usize
    requires { HasShortValues attrs.now }
    ensures { result ≡ length (attributes_but_next_hop attrs.now) }
{
    let parts = attrs.parts();
    before_size(parts) + behind_size(parts)
}

/// Adds all attributes but NEXT_HOP at the end, by ascending type, as before routes that stand among them. Running out
/// of memory leaves the list as it was.
#[tactic(auto, using(ug_message::proofs::AttributeParts::but_next_hop_steps))]
pub fn write_but_next_hop(out: &mut ByteList, attrs: &Attrs) -> Result<(), NoMemory>
    requires { HasShortValues attrs.now }
    ensures ok { OnOk result (out.new.items ≡ out.old.items ++ attributes_but_next_hop attrs.now) }
    ensures err { OnErr result (out.new.items ≡ out.old.items) }
    ensures formed { has_ipv4_addresses attrs.now ≡ true → can_be_spelled attrs.now.next_hop.family attrs.now ≡ true }
{
    know(attrs);
    let parts = attrs.parts();
    out.reserve(size_but_next_hop(attrs))?;
    Before::put(out, parts);
    Behind::put(out, parts);
    Ok(())
}

fn before_size(parts: &AttrParts) -> usize
    requires { HasShortValues (attributes_of parts.now) }
    ensures size { result ≡ length (before_next_hop (attributes_of parts.now)) }
    ensures small { result < 2 ^ 18 }
{
    Before::size(parts)
}

fn next_hop_size(parts: &AttrParts) -> usize
    requires { HasShortValues (attributes_of parts.now) }
    ensures size { result ≡ length (next_hop (attributes_of parts.now)) }
    ensures small { result ≡ 7 }
{
    NextHop::size(parts)
}

fn behind_size(parts: &AttrParts) -> usize
    requires { HasShortValues (attributes_of parts.now) }
    ensures size { result ≡ length (after_next_hop (attributes_of parts.now)) }
    ensures small { result < 2 ^ 19 }
{
    Behind::size(parts)
}
