//! What is known of attributes whose values have been looked at: they can be spelled, where their addresses are of
//! the families that messages have.

ghost use Rattle.std.specs.Prelude.{◌≡◌, true, map};
ghost use Rattle.std.specs.List.{list_all};
ghost use Rattle.ug_types.specs.declared.attrs.Aggregator as ghosts;
ghost use Rattle.ug_types.specs.declared.family.Family.TheVariants.{V4};
ghost use Rattle.ug_types.specs.Attributes.{attributes_of, segment_of, is_well_formed};
ghost use Rattle.ug_message.specs.Spellable.{is_number, has_numbers, is_address, is_ipv4, is_aggregator, where_there, has_ipv4_addresses, can_be_spelled};

use ug_types::{Addr, Aggregator, AttrParts, Attrs, Segment};

/// Attributes can be spelled for routes of their next hop's family.
pub fn know(attrs: &Attrs)
    ensures { has_ipv4_addresses attrs.now ≡ true → can_be_spelled attrs.now.next_hop.family attrs.now ≡ true }
{
    know_parts(attrs.parts());
}

fn know_parts(parts: &AttrParts)
    ensures { is_well_formed (attributes_of parts.now) ≡ true → has_ipv4_addresses (attributes_of parts.now) ≡ true → can_be_spelled parts.now.next_hop.family (attributes_of parts.now) ≡ true }
{
    know_path(parts.path.as_slice());
    know_address(&parts.next_hop);
    know_number(parts.med);
    know_number(parts.local_pref);
    know_aggregator(parts.aggregator);
    know_numbers(parts.communities.as_slice());
    know_originator(parts.originator);
    know_numbers(parts.clusters.as_slice());
}

fn know_numbers(list: &[u32])
    ensures { list_all is_number list.now ≡ true }
{
    for number in list {
        let _value = *number;
    }
}

fn know_path(path: &[Segment])
    ensures { list_all has_numbers (map segment_of path.now) ≡ true }
{
    for segment in path {
        know_numbers(segment.numbers.as_slice());
    }
}

fn know_number(number: Option<u32>)
    ensures { where_there is_number number ≡ true }
{
    if let Some(number) = number {
        let _value = number;
    }
}

fn know_address(addr: &Addr)
    ensures { is_address addr.now.family addr.now ≡ true }
{
    let _bits = addr.bits;
}

#[tactic(auto, using(crate::proofs::Spelled::as_ipv4))]
fn know_originator(addr: Option<Addr>)
    ensures { where_there is_ipv4 addr ≡ true → where_there (is_address V4) addr ≡ true }
{
    if let Some(addr) = addr {
        know_address(&addr);
    }
}

#[tactic(auto, using(crate::proofs::Spelled::as_ipv4))]
fn know_aggregator(aggregator: Option<Aggregator>)
    ensures { where_there (λ (g : ghosts.Aggregator). is_ipv4 g.addr) aggregator ≡ true → where_there is_aggregator aggregator ≡ true }
{
    if let Some(aggregator) = aggregator {
        let _asn = aggregator.asn;
        know_address(&aggregator.addr);
    }
}
