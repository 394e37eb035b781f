//! The answers that are one line.

ghost use Rattle.std.specs.Prelude.{◌≡◌, ◌++◌, IfOk, OnOk};
ghost use Rattle.std.specs.String.{string_bytes};
ghost use Rattle.ug_hearing.specs.Breaches.{kind_number};
ghost use Rattle.ug_audit.specs.Texts.{key_text, refuted_session, refuted_at, refuted_text, unclear_text};

use crate::certificate::write_route;
use std::alloc::Global;
use ug_hearing::{Breach, BreachKind};
use ug_types::{Key, NoMemory};

/// The line of the first breach of a session.
pub fn refuted_text(
    alloc: Global,
    peer: &str,
    number: u32,
    breach: &Breach,
) -> Result<String, NoMemory>
    ensures { IfOk result (λ text. string_bytes text ≡ refuted_text peer.now number breach.now) }
{
    let mut text = String::new(alloc);
    write_refuted(&mut text, peer, number, breach)?;
    Ok(text)
}

/// Adds that line.
#[tactic(auto, unfolding(crate::specs::Texts::refuted_text))]
fn write_refuted(out: &mut String, peer: &str, number: u32, breach: &Breach) -> Result<(), NoMemory>
    ensures { OnOk result (string_bytes out.new ≡ string_bytes out.old ++ refuted_text peer.now number breach.now) }
{
    let kind = kind_number(breach.kind);
    write_refuted_session(out, peer, number)?;
    write_place(out, kind, breach.message)?;
    write_key(out, &breach.key)?;
    write!(out, "\n")?;
    Ok(())
}

/// Adds the line up to the session.
#[tactic(auto, unfolding(crate::specs::Texts::refuted_session))]
fn write_refuted_session(out: &mut String, peer: &str, number: u32) -> Result<(), NoMemory>
    ensures { OnOk result (string_bytes out.new ≡ string_bytes out.old ++ refuted_session peer.now number) }
{
    write!(out, "status 10 refuted {peer} {number}")?;
    Ok(())
}

/// Adds the kind of a breach and its message.
#[tactic(auto, unfolding(crate::specs::Texts::refuted_at))]
fn write_place(out: &mut String, kind: u8, message: u64) -> Result<(), NoMemory>
    ensures { OnOk result (string_bytes out.new ≡ string_bytes out.old ++ refuted_at kind message) }
{
    write!(out, " {kind} {message} ")?;
    Ok(())
}

/// The line of the first line of a report that isn't clear.
#[tactic(auto, unfolding(crate::specs::Texts::unclear_text))]
pub fn unclear_text(alloc: Global, line: u64) -> Result<String, NoMemory>
    ensures { IfOk result (λ text. string_bytes text ≡ unclear_text line) }
{
    Ok(format!(in alloc; "status 11 report {line}\n")?)
}

/// The number of a kind of breach.
pub fn kind_number(kind: BreachKind) -> u8
    ensures { result ≡ kind_number kind }
{
    match kind {
        BreachKind::Unread => 1,
        BreachKind::Stuck => 2,
        BreachKind::Amiss => 3,
        BreachKind::Off => 4,
    }
}

/// Adds a key, or `-` where there is none.
fn write_key(out: &mut String, key: &Option<Key>) -> Result<(), NoMemory>
    ensures { OnOk result (string_bytes out.new ≡ string_bytes out.old ++ key_text key.now) }
{
    match key {
        Some(key) => write_route(out, key)?,
        None => write!(out, "-")?,
    }
    Ok(())
}
