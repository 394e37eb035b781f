//! The lines of groups.

ghost use Rattle.std.specs.Prelude.{◌≡◌, ◌++◌, OnOk};
ghost use Rattle.std.specs.List.{concat};
ghost use Rattle.std.specs.String.{string_bytes};
ghost use Rattle.ug_commands.specs.Texts.{kind_word, yes_or_no, name_or_dash, override_text, names_text, policy_text, removal_text, capability_text, head_text, group_text, lines_of};

use crate::member::Member;
use crate::members::{is_key_among, names_with};
use std::alloc::Global;
use ug_outbound::{GroupKey, Kind};
use ug_types::{Name, NoMemory};

/// Adds a line for each group of these peers, by its first one.
pub fn write_lines(alloc: Global, members: &[Member], out: &mut String) -> Result<(), NoMemory>
    ensures { OnOk result (string_bytes out.new ≡ string_bytes out.old ++ concat (lines_of members.now)) }
{
    let mut number: usize = 1;
    let mut place: usize = 0;
    for member in members {
        if !is_key_among(&members[..place], &member.key) {
            let names = names_with(alloc, &member.key, members)?;
            write_group(out, number, &member.key, names.as_slice())?;
            number += 1;
        }
        place += 1;
    }
    Ok(())
}

/// Adds the line of a group: its number, its key, and the names of its peers.
#[tactic(auto, unfolding(crate::specs::Texts::group_text))]
fn write_group(
    out: &mut String,
    number: usize,
    key: &GroupKey,
    names: &[Name],
) -> Result<(), NoMemory>
    ensures { OnOk result (string_bytes out.new ≡ string_bytes out.old ++ group_text number key.now names.now) }
{
    write_head(out, number, key)?;
    write!(out, " peers=")?;
    write_names(out, names)?;
    write!(out, "\n")?;
    Ok(())
}

/// Adds a group's number and its key.
#[tactic(auto, unfolding(crate::specs::Texts::head_text))]
fn write_head(out: &mut String, number: usize, key: &GroupKey) -> Result<(), NoMemory>
    ensures { OnOk result (string_bytes out.new ≡ string_bytes out.old ++ head_text number key.now) }
{
    write!(out, "group {number}")?;
    write_policy(out, key)?;
    write_override(out, key.as_override)?;
    write_removal(out, key)?;
    write_capabilities(out, key)?;
    Ok(())
}

/// Adds a group's kind, its policy, and what decides on paths and next hops.
#[tactic(auto, unfolding(crate::specs::Texts::policy_text))]
fn write_policy(out: &mut String, key: &GroupKey) -> Result<(), NoMemory>
    ensures { OnOk result (string_bytes out.new ≡ string_bytes out.old ++ policy_text key.now) }
{
    let kind = kind_word(key.kind);
    let list = name_or_dash(&key.list);
    let map = name_or_dash(&key.map);
    let add_path = yes_or_no(key.add_path);
    let next_hop_self = yes_or_no(key.next_hop_self);
    write!(
        out,
        " {kind} list={list} map={map} add-path={add_path} next-hop-self={next_hop_self}"
    )?;
    Ok(())
}

/// Adds what a group's peers are sent of private AS numbers and of communities.
#[tactic(auto, unfolding(crate::specs::Texts::removal_text))]
fn write_removal(out: &mut String, key: &GroupKey) -> Result<(), NoMemory>
    ensures { OnOk result (string_bytes out.new ≡ string_bytes out.old ++ removal_text key.now) }
{
    let remove_private = yes_or_no(key.remove_private_as);
    let send_community = yes_or_no(key.send_community);
    write!(
        out,
        " remove-private={remove_private} send-community={send_community}"
    )?;
    Ok(())
}

/// Adds what a group's sessions were opened with.
#[tactic(auto, unfolding(crate::specs::Texts::capability_text))]
fn write_capabilities(out: &mut String, key: &GroupKey) -> Result<(), NoMemory>
    ensures { OnOk result (string_bytes out.new ≡ string_bytes out.old ++ capability_text key.now) }
{
    let extended = yes_or_no(key.extended);
    let enhanced_refresh = yes_or_no(key.enhanced_refresh);
    write!(
        out,
        " extended={extended} enhanced-refresh={enhanced_refresh}"
    )?;
    Ok(())
}

fn kind_word(kind: Kind) -> &'static str
    ensures { result.now ≡ kind_word kind }
{
    match kind {
        Kind::External => "external",
        Kind::Internal => "internal",
        Kind::Client => "client",
    }
}

fn yes_or_no(b: bool) -> &'static str
    ensures { result.now ≡ yes_or_no b }
{
    if b { "yes" } else { "no" }
}

/// A name, or `-` where there is none.
fn name_or_dash(name: &Option<Name>) -> &str
    ensures { result.now ≡ name_or_dash name.now }
{
    match name {
        None => "-",
        Some(name) => name.text(),
    }
}

/// Adds the AS that the local one replaces, or `-` where there is none.
fn write_override(out: &mut String, asn: Option<u32>) -> Result<(), NoMemory>
    ensures { OnOk result (string_bytes out.new ≡ string_bytes out.old ++ override_text asn) }
{
    match asn {
        None => write!(out, " as-override=-")?,
        Some(asn) => write!(out, " as-override={asn}")?,
    }
    Ok(())
}

/// Adds names with commas between.
fn write_names(out: &mut String, names: &[Name]) -> Result<(), NoMemory>
    ensures { OnOk result (string_bytes out.new ≡ string_bytes out.old ++ names_text names.now) }
{
    let [first, rest @ ..] = names else {
        return Ok(());
    };
    let text = first.text();
    write!(out, "{text}")?;
    for name in rest {
        let text = name.text();
        write!(out, ",{text}")?;
    }
    Ok(())
}
