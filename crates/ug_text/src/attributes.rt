//! The attributes of a path as text.

ghost use Rattle.std.specs.Prelude.{◌≡◌, ◌++◌, [], OnOk, codes, if◌then◌else◌};
ghost use Rattle.std.specs.Fmt.{decimal};
ghost use Rattle.std.specs.String.{string_bytes};
ghost use Rattle.ug_types.specs.declared.attrs.Aggregator.{Aggregator as AggregatorSaid};
ghost use Rattle.ug_types.specs.Attributes.{attributes_of};
ghost use Rattle.ug_text.specs.Texts.{address_text, with_commas, community_text, dotted, origin_word, where_present, where_some, required_text, numbers_where_present, lists_where_present, attributes_text};

use crate::address::write_address;
use crate::lists::{write_clusters, write_communities, write_path};
use ug_types::{Addr, Aggregator, AttrParts, Attrs, NoMemory};

/// Adds the attributes, each behind a space. After running out of memory a part of them may be there.
#[tactic(auto, unfolding(crate::specs::Texts::attributes_text))]
pub fn write_attributes(out: &mut String, attrs: &Attrs) -> Result<(), NoMemory>
    ensures { OnOk result (string_bytes out.new ≡ string_bytes out.old ++ attributes_text attrs.now) }
{
    let parts = attrs.parts();
    write_required(out, parts)?;
    write_numbers_present(out, parts)?;
    write_lists_present(out, parts)
}

/// Adds what every path has.
#[tactic(auto, unfolding(crate::specs::Texts::required_text))]
fn write_required(out: &mut String, parts: &AttrParts) -> Result<(), NoMemory>
    ensures { OnOk result (string_bytes out.new ≡ string_bytes out.old ++ required_text (attributes_of parts.now)) }
{
    write!(out, " nh=")?;
    write_address(out, parts.next_hop)?;
    let origin = origin_word(parts.origin);
    write!(out, " origin={origin} as=")?;
    write_path(out, parts.path.as_slice())
}

/// The word of an ORIGIN (RFC 4271 section 5.1.1): of 0 `igp`, of 1 `egp`, else `incomplete`.
pub fn origin_word(origin: u8) -> &'static str
    ensures { result.now ≡ origin_word origin }
{
    match origin {
        0 => "igp",
        1 => "egp",
        _ => "incomplete",
    }
}

/// Adds MULTI_EXIT_DISC, LOCAL_PREF and ATOMIC_AGGREGATE, where they are present.
#[tactic(auto, unfolding(crate::specs::Texts::numbers_where_present))]
fn write_numbers_present(out: &mut String, parts: &AttrParts) -> Result<(), NoMemory>
    ensures { OnOk result (string_bytes out.new ≡ string_bytes out.old ++ numbers_where_present (attributes_of parts.now)) }
{
    write_med(out, parts.med)?;
    write_local_pref(out, parts.local_pref)?;
    write_atomic(out, parts.atomic)
}

fn write_med(out: &mut String, med: Option<u32>) -> Result<(), NoMemory>
    ensures { OnOk result (string_bytes out.new ≡ string_bytes out.old ++ where_present (λ n. codes " med=" ++ decimal n) med) }
{
    if let Some(med) = med {
        write!(out, " med={med}")?;
    }
    Ok(())
}

fn write_local_pref(out: &mut String, pref: Option<u32>) -> Result<(), NoMemory>
    ensures { OnOk result (string_bytes out.new ≡ string_bytes out.old ++ where_present (λ n. codes " lp=" ++ decimal n) pref) }
{
    if let Some(pref) = pref {
        write!(out, " lp={pref}")?;
    }
    Ok(())
}

fn write_atomic(out: &mut String, atomic: bool) -> Result<(), NoMemory>
    ensures { OnOk result (string_bytes out.new ≡ string_bytes out.old ++ (if atomic then codes " atomic" else [])) }
{
    if atomic {
        write!(out, " atomic")?;
    }
    Ok(())
}

/// Adds AGGREGATOR, COMMUNITIES, ORIGINATOR_ID and CLUSTER_LIST, where they are present.
#[tactic(auto, unfolding(crate::specs::Texts::lists_where_present))]
fn write_lists_present(out: &mut String, parts: &AttrParts) -> Result<(), NoMemory>
    ensures { OnOk result (string_bytes out.new ≡ string_bytes out.old ++ lists_where_present (attributes_of parts.now)) }
{
    write_aggregator(out, parts.aggregator)?;
    write_where_communities(out, parts.communities.as_slice())?;
    write_originator(out, parts.originator)?;
    write_where_clusters(out, parts.clusters.as_slice())
}

fn write_aggregator(out: &mut String, aggregator: Option<Aggregator>) -> Result<(), NoMemory>
    ensures { OnOk result (string_bytes out.new ≡ string_bytes out.old
        ++ where_present (λ (g : AggregatorSaid). codes " agg=" ++ decimal g.asn ++ codes ":" ++ address_text g.addr) aggregator) }
{
    let Some(aggregator) = aggregator else {
        return Ok(());
    };
    let asn = aggregator.asn;
    write!(out, " agg={asn}:")?;
    write_address(out, aggregator.addr)
}

fn write_where_communities(out: &mut String, communities: &[u32]) -> Result<(), NoMemory>
    ensures { OnOk result (string_bytes out.new ≡ string_bytes out.old ++ where_some (λ ns. codes " comm=" ++ with_commas community_text ns) communities.now) }
{
    if communities.is_empty() {
        return Ok(());
    }
    write!(out, " comm=")?;
    write_communities(out, communities)
}

fn write_originator(out: &mut String, originator: Option<Addr>) -> Result<(), NoMemory>
    ensures { OnOk result (string_bytes out.new ≡ string_bytes out.old ++ where_present (λ r. codes " originator=" ++ address_text r) originator) }
{
    let Some(originator) = originator else {
        return Ok(());
    };
    write!(out, " originator=")?;
    write_address(out, originator)
}

fn write_where_clusters(out: &mut String, clusters: &[u32]) -> Result<(), NoMemory>
    ensures { OnOk result (string_bytes out.new ≡ string_bytes out.old ++ where_some (λ ns. codes " clusters=" ++ with_commas dotted ns) clusters.now) }
{
    if clusters.is_empty() {
        return Ok(());
    }
    write!(out, " clusters=")?;
    write_clusters(out, clusters)
}
