//! Path attributes (RFC 4271 section 5, RFC 1997, RFC 4456, RFC 6793).

ghost use Rattle.std.specs.Prelude.{◌≡◌, ◌<◌, ◌↔◌, IsTrue, IfOk, MatchResult, Some, None, map, true, false};
ghost use Rattle.std.specs.List.{list_all};
ghost use Rattle.ug_types.specs.Attributes.{attributes_of, refusal_of, is_well_formed, is_segment, IsAttributes, numbers_in, plain_attributes, segment_of, Attributes};

use crate::address::Addr;
use crate::memory::NoMemory;
use crate::sequence::{NumberList, Sequence};
use std::alloc::Global;
use std::marker::Model;

/// A segment of AS_PATH: an AS_SET, or else an AS_SEQUENCE.
#[derive(PartialEq, Eq, Hash, Drop)]
pub struct Segment {
    pub is_set: bool,
    pub numbers: NumberList,
}

pub type SegmentList = Sequence<Segment>;

/// AGGREGATOR: who made the route out of more specific ones.
#[derive(Clone, Copy, PartialEq, Eq, Hash)]
pub struct Aggregator {
    pub asn: u32,
    pub addr: Addr,
}

/// The attributes of a path, as they come.
#[derive(PartialEq, Eq, Hash, Drop)]
pub struct AttrParts {
    /// ORIGIN: 0 IGP, 1 EGP, 2 INCOMPLETE.
    pub origin: u8,
    /// AS_PATH.
    pub path: SegmentList,
    /// NEXT_HOP.
    pub next_hop: Addr,
    /// MULTI_EXIT_DISC.
    pub med: Option<u32>,
    /// LOCAL_PREF.
    pub local_pref: Option<u32>,
    /// ATOMIC_AGGREGATE.
    pub atomic: bool,
    /// AGGREGATOR.
    pub aggregator: Option<Aggregator>,
    /// COMMUNITIES, in their order.
    pub communities: NumberList,
    /// ORIGINATOR_ID.
    pub originator: Option<Addr>,
    /// CLUSTER_LIST, the last cluster that reflected the route first.
    pub clusters: NumberList,
}

impl AttrParts {
    /// The attributes that each route must have (RFC 4271 section 5), and no others. It takes no memory.
    pub fn plain(alloc: Global, origin: u8, path: SegmentList, next_hop: Addr) -> AttrParts
        ensures { attributes_of result ≡ plain_attributes origin (map segment_of path.items) next_hop }
    {
        AttrParts {
            origin,
            path,
            next_hop,
            med: None,
            local_pref: None,
            atomic: false,
            aggregator: None,
            communities: Sequence::new(alloc),
            originator: None,
            clusters: Sequence::new(alloc),
        }
    }
}

/// Why attributes are refused.
#[derive(Clone, Copy, PartialEq, Eq)]
pub struct AttrRefusal {
    pub number: u8,
}

/// Path attributes whose segments have 1 to 255 numbers and whose origin is at most 2.
#[derive(Drop)]
pub struct Attrs {
    parts: AttrParts,
}

impl Model for Attrs {
    ghost use Rattle.ug_types.specs.Attributes.{Attributes, attributes_of, IsAttributes};

    ghost Value = { Attributes };

    ghost view = { λ a. attributes_of a.parts };

    ghost invariant = { λ a. IsAttributes (attributes_of a.parts) };
}

impl Attrs {
    /// The attributes, where nothing refuses them. It takes no memory. The lowest number answers: 1 a path of
    /// over 300 numbers, 2 over 16 segments, 3 a segment that is empty or has over 255 numbers, or an origin
    /// over 2, 4 over 128 communities, 5 over 32 clusters.
    pub fn new(parts: AttrParts) -> Result<Attrs, AttrRefusal>
        ensures { MatchResult result (λ attrs. (refusal_of (attributes_of parts) ≡ None) × (attrs ≡ attributes_of parts))
            (λ e. refusal_of (attributes_of parts) ≡ Some e.number) }
    {
        if is_long(parts.path.as_slice()) {
            return Err(AttrRefusal { number: 1 });
        }
        if parts.path.len() > 16 {
            return Err(AttrRefusal { number: 2 });
        }
        if !is_well_formed(&parts) {
            return Err(AttrRefusal { number: 3 });
        }
        if parts.communities.len() > 128 {
            return Err(AttrRefusal { number: 4 });
        }
        if parts.clusters.len() > 32 {
            return Err(AttrRefusal { number: 5 });
        }
        Ok(Attrs { parts })
    }

    /// The attributes of a route that was received, which refusal 3 alone may refuse. It takes no memory.
    pub fn received(parts: AttrParts) -> Result<Attrs, AttrRefusal>
        ensures { MatchResult result (λ attrs. (is_well_formed (attributes_of parts) ≡ true) × (attrs ≡ attributes_of parts))
            (λ e. (is_well_formed (attributes_of parts) ≡ false) × (e.number ≡ 3)) }
    {
        if !is_well_formed(&parts) {
            return Err(AttrRefusal { number: 3 });
        }
        Ok(Attrs { parts })
    }

    /// The attributes one by one.
    pub fn parts(&self) -> &AttrParts
        ensures parts { attributes_of result.now ≡ self.now }
        ensures well_formed { IsAttributes self.now }
    {
        &self.parts
    }

    /// The attributes one by one, in their own memory.
    pub fn into_parts(self) -> AttrParts
        ensures parts { attributes_of result ≡ self }
        ensures well_formed { IsAttributes self }
    {
        self.parts
    }

    /// Equal attributes of their own.
    pub fn copy(&self, alloc: Global) -> Result<Attrs, NoMemory>
        ensures { IfOk result (λ copy. copy ≡ self.now) }
    {
        Ok(Attrs {
            parts: copy_parts(alloc, &self.parts)?,
        })
    }
}

/// Whether a path has over 300 numbers.
fn is_long(path: &[Segment]) -> bool
    ensures { IsTrue result ↔ (300 < numbers_in (map segment_of path.now)) }
{
    let mut numbers: usize = 0;
    for segment in path {
        numbers = numbers.saturating_add(segment.numbers.len());
    }
    numbers > 300
}

fn is_segment(segment: &Segment) -> bool
    ensures { result ≡ is_segment (segment_of segment.now) }
{
    !segment.numbers.is_empty() && segment.numbers.len() <= 255
}

fn is_well_formed(parts: &AttrParts) -> bool
    ensures { result ≡ is_well_formed (attributes_of parts.now) }
{
    are_segments(parts.path.as_slice()) && parts.origin <= 2
}

fn are_segments(path: &[Segment]) -> bool
    ensures { result ≡ list_all is_segment (map segment_of path.now) }
{
    for segment in path {
        if !is_segment(segment) {
            return false;
        }
    }
    true
}

fn copy_path(alloc: Global, path: &[Segment]) -> Result<SegmentList, NoMemory>
    ensures { IfOk result (λ copy. map segment_of copy.items ≡ map segment_of path.now) }
{
    let mut copy = Vec::with_capacity(alloc, path.len())?;
    for segment in path {
        let numbers = segment.numbers.copy(alloc)?;
        copy.push(Segment {
            is_set: segment.is_set,
            numbers,
        })?;
    }
    Ok(Sequence::from_vec(copy))
}

fn copy_parts(alloc: Global, parts: &AttrParts) -> Result<AttrParts, NoMemory>
    ensures { IfOk result (λ copy. attributes_of copy ≡ attributes_of parts.now) }
{
    let path = copy_path(alloc, parts.path.as_slice())?;
    let communities = parts.communities.copy(alloc)?;
    let clusters = parts.clusters.copy(alloc)?;
    Ok(AttrParts {
        origin: parts.origin,
        path,
        next_hop: parts.next_hop,
        med: parts.med,
        local_pref: parts.local_pref,
        atomic: parts.atomic,
        aggregator: parts.aggregator,
        communities,
        originator: parts.originator,
        clusters,
    })
}
