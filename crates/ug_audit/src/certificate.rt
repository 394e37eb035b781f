//! The certificate of a session.

ghost use Rattle.std.specs.Prelude.{◌≡◌, ◌++◌, ◌<◌, true, map, [], List, IfOk, OnOk};
ghost use Rattle.std.specs.Fmt.{decimal};
ghost use Rattle.std.specs.List.{flat_map};
ghost use Rattle.std.specs.String.{string_bytes};
ghost use Rattle.ug_text.specs.Rows.{route_text};
ghost use Rattle.ug_hearing.specs.Certificates.{KeyClimb};
ghost use Rattle.ug_hearing.specs.Climbed.{shift_of, climb_with, keys_left, HandedOut};
ghost use Rattle.ug_audit.specs.Texts.{shift_text, climb_text, session_text};
ghost use Rattle.ug_audit.specs.Certified.{AddsSession, AddsClimbs, IsNext};

use itoa::Buffer;
use std::alloc::Global;
use ug_hearing::{Climbs, Judge, Move};
use ug_pieces::ShortText;
use ug_text::write_prefix;
use ug_types::{Key, NoMemory};

/// From how many bytes on lines are added to a text.
const PIECE: usize = 4096;

/// Adds the certificate of a session behind whose messages the judge stands: a line that names it, with how many messages it
/// has, and a line for each key.
pub fn add_session(
    alloc: Global,
    out: &mut ShortText,
    peer: &str,
    number: u32,
    judge: &Judge,
) -> Result<(), NoMemory>
    ensures { OnOk result (AddsSession peer.now number judge.now out.old out.new) }
{
    add_title(alloc, out, peer, number, judge.messages)?;
    out.close(alloc)?;
    add_climbs(alloc, out, judge)?;
    out.close(alloc)?;
    Ok(())
}

/// Adds the line that names a session.
#[tactic(auto, unfolding(crate::specs::Texts::session_text))]
fn add_title(
    alloc: Global,
    out: &mut ShortText,
    peer: &str,
    number: u32,
    messages: u64,
) -> Result<(), NoMemory>
    ensures { OnOk result (out.new ≡ out.old ++ session_text peer.now number messages []) }
{
    let title = format!(in alloc; "session {peer} {number} messages {messages}\n")?;
    out.add(alloc, title.as_bytes())
}

/// Adds a line for each key.
fn add_climbs(alloc: Global, out: &mut ShortText, judge: &Judge) -> Result<(), NoMemory>
    ensures { OnOk result (AddsClimbs judge.now out.old out.new) }
{
    let mut climbs = Climbs::of(alloc, judge)?;
    let mut lines = String::new(alloc);
    add_lines(alloc, out, &mut lines, &mut climbs, judge)?;
    out.add(alloc, lines.as_bytes())?;
    Ok(())
}

/// Adds a line for each climb that is left to the lines, and what becomes long of these to the text.
fn add_lines(
    alloc: Global,
    out: &mut ShortText,
    lines: &mut String,
    climbs: &mut Climbs,
    judge: &Judge,
) -> Result<(), NoMemory>
    ensures { OnOk result (HandedOut judge.now climbs.old [] → AddsClimbs judge.now (out.old ++ string_bytes lines.old) (out.new ++ string_bytes lines.new)) }
{
    loop {
        let more = write_next(lines, climbs, judge)?;
        if !more {
            return Ok(());
        }
        move_long(alloc, out, lines)?;
    }
}

/// Lines that have become long go over to the text.
fn move_long(alloc: Global, out: &mut ShortText, lines: &mut String) -> Result<(), NoMemory>
    ensures { OnOk result (out.new ++ string_bytes lines.new ≡ out.old ++ string_bytes lines.old) }
{
    if lines.len() < PIECE {
        return Ok(());
    }
    out.add(alloc, lines.as_bytes())?;
    lines.clear();
    Ok(())
}

/// Adds the line of the next climb, and answers whether there was one.
fn write_next(lines: &mut String, climbs: &mut Climbs, judge: &Judge) -> Result<bool, NoMemory>
    ensures went { IfOk result (λ more. (done : List KeyClimb) → HandedOut judge.now climbs.old done → IsNext judge.now climbs.new done (string_bytes lines.old) (string_bytes lines.new) more) }
    ensures fewer { IfOk result (λ more. more ≡ true → keys_left climbs.new < keys_left climbs.old) }
{
    let next = climbs.next(judge)?;
    match next {
        Some(key) => {
            write_climb(lines, &key, &climbs.moves)?;
            Ok(true)
        }
        None => Ok(false),
    }
}

/// Adds the line of a key: the messages at which it moves, each with the place that it moves to.
#[tactic(auto, unfolding(crate::specs::Texts::climb_text))]
fn write_climb(out: &mut String, key: &Key, moves: &[Move]) -> Result<(), NoMemory>
    ensures { OnOk result (string_bytes out.new ≡ string_bytes out.old ++ climb_text (climb_with key.now moves.now)) }
{
    out.push_str("climb ")?;
    write_route(out, key)?;
    write_moves(out, moves)?;
    out.push_str("\n")?;
    Ok(())
}

/// Adds a route: its prefix and its identifier.
#[tactic(auto, unfolding(ug_text::specs::Rows::route_text))]
pub fn write_route(out: &mut String, key: &Key) -> Result<(), NoMemory>
    ensures { OnOk result (string_bytes out.new ≡ string_bytes out.old ++ route_text key.now) }
{
    write_prefix(out, key.prefix)?;
    out.push_str(" id=")?;
    write_number(out, key.id as u64)
}

fn write_moves(out: &mut String, moves: &[Move]) -> Result<(), NoMemory>
    ensures { OnOk result (string_bytes out.new ≡ string_bytes out.old ++ flat_map shift_text (map shift_of moves.now)) }
{
    for shift in moves {
        write_move(out, *shift)?;
    }
    Ok(())
}

/// Adds a move: a message and a place.
fn write_move(out: &mut String, shift: Move) -> Result<(), NoMemory>
    ensures { OnOk result (string_bytes out.new ≡ string_bytes out.old ++ shift_text (shift_of shift)) }
{
    out.push_str(" ")?;
    write_number(out, shift.message)?;
    out.push_str("@")?;
    write_number(out, shift.place as u64)
}

/// Adds a number. `{}` takes twice as long.
fn write_number(out: &mut String, number: u64) -> Result<(), NoMemory>
    ensures { OnOk result (string_bytes out.new ≡ string_bytes out.old ++ decimal number) }
{
    let mut buffer = Buffer::new();
    out.push_str(buffer.format(number))?;
    Ok(())
}
