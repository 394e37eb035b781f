//! Lists as text.

ghost use Rattle.std.specs.Prelude.{◌≡◌, ◌++◌, OnOk, map};
ghost use Rattle.std.specs.String.{string_bytes};
ghost use Rattle.ug_types.specs.Attributes.{segment_of};
ghost use Rattle.ug_text.specs.Texts.{dotted, with_commas, numbers_text, community_text, segment_text, path_text};

use crate::address::write_dotted;
use ug_types::{NoMemory, Segment};

/// Adds numbers with commas between.
pub fn write_numbers(out: &mut String, numbers: &[u32]) -> Result<(), NoMemory>
    ensures { OnOk result (string_bytes out.new ≡ string_bytes out.old ++ numbers_text numbers.now) }
{
    let [first, rest @ ..] = numbers else {
        return Ok(());
    };
    write!(out, "{first}")?;
    for number in rest {
        write!(out, ",{number}")?;
    }
    Ok(())
}

/// Adds a community: its upper and its lower sixteen bits.
#[tactic(auto, unfolding(crate::specs::Texts::community_text))]
fn write_community(out: &mut String, community: u32) -> Result<(), NoMemory>
    ensures { OnOk result (string_bytes out.new ≡ string_bytes out.old ++ community_text community) }
{
    let upper = community / 65536;
    let lower = community % 65536;
    write!(out, "{upper}:{lower}")?;
    Ok(())
}

/// Adds communities with commas between.
pub fn write_communities(out: &mut String, communities: &[u32]) -> Result<(), NoMemory>
    ensures { OnOk result (string_bytes out.new ≡ string_bytes out.old ++ with_commas community_text communities.now) }
{
    let [first, rest @ ..] = communities else {
        return Ok(());
    };
    write_community(out, *first)?;
    for community in rest {
        write!(out, ",")?;
        write_community(out, *community)?;
    }
    Ok(())
}

/// Adds clusters with commas between, each as an address.
pub fn write_clusters(out: &mut String, clusters: &[u32]) -> Result<(), NoMemory>
    ensures { OnOk result (string_bytes out.new ≡ string_bytes out.old ++ with_commas dotted clusters.now) }
{
    let [first, rest @ ..] = clusters else {
        return Ok(());
    };
    write_dotted(out, *first)?;
    for cluster in rest {
        write!(out, ",")?;
        write_dotted(out, *cluster)?;
    }
    Ok(())
}

/// Adds a segment: the numbers of an AS_SEQUENCE, or of an AS_SET in braces.
#[tactic(auto, unfolding(crate::specs::Texts::segment_text))]
fn write_segment(out: &mut String, segment: &Segment) -> Result<(), NoMemory>
    ensures { OnOk result (string_bytes out.new ≡ string_bytes out.old ++ segment_text (segment_of segment.now)) }
{
    if !segment.is_set {
        return write_numbers(out, segment.numbers.as_slice());
    }
    write!(out, "{{")?;
    write_numbers(out, segment.numbers.as_slice())?;
    write!(out, "}}")?;
    Ok(())
}

/// Adds a path: its segments with semicolons between, or `-`.
#[tactic(auto, unfolding(crate::specs::Texts::path_text))]
pub fn write_path(out: &mut String, path: &[Segment]) -> Result<(), NoMemory>
    ensures { OnOk result (string_bytes out.new ≡ string_bytes out.old ++ path_text (map segment_of path.now)) }
{
    let [first, rest @ ..] = path else {
        write!(out, "-")?;
        return Ok(());
    };
    write_segment(out, first)?;
    for segment in rest {
        write!(out, ";")?;
        write_segment(out, segment)?;
    }
    Ok(())
}
