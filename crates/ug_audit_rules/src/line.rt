//! One line of a report.

ghost use Rattle.std.specs.Prelude.{◌≡◌};
ghost use Rattle.ug_text.specs.Seen.{pieces_in};
ghost use Rattle.ug_audit_rules.specs.Reports.{entry_of, mark_said, loss_said};

use crate::entry::Entry;
use crate::number::read_written;
use crate::peers::{place_of, session_of};
use ug_text::next_piece;
use ug_types::Mark;
use ug_world::World;

/// What a line tells, by the world to which all lines of events lead.
#[tactic(auto, unfolding(crate::specs::Reports::entry_of))]
pub fn read_entry(last: &World, line: &[u8]) -> Entry
    ensures { result ≡ entry_of last.now line.now }
{
    let (word, rest) = next_piece(b' ', line);
    if word == b"sync".as_slice() {
        return match read_mark(last, rest) {
            Some(mark) => Entry::Sync(mark),
            None => Entry::Unclear,
        };
    }
    if word == b"lost".as_slice() {
        return match read_loss(last, rest) {
            Some(entry) => entry,
            None => Entry::Unclear,
        };
    }
    Entry::Passes
}

/// The words behind `sync`: a version, a peer, a session and how many messages.
fn read_mark(last: &World, words: Option<&[u8]>) -> Option<Mark>
    ensures { result ≡ mark_said last.now (pieces_in 32 words.entry) }
{
    let (version, words) = next_piece(b' ', words?);
    let (name, words) = next_piece(b' ', words?);
    let (session, words) = next_piece(b' ', words?);
    let (handed, words) = next_piece(b' ', words?);
    if let Some(_more) = words {
        return None;
    }
    let version = read_written(version)?;
    let peer = place_of(last, name)?;
    let session = read_written(session)?;
    let handed = read_written(handed)?;
    if version > last.version() {
        return None;
    }
    let session = session_of(last, peer, session)?;
    Some(Mark {
        version,
        peer,
        session,
        handed,
    })
}

/// The words behind `lost`: a peer and a session.
fn read_loss(last: &World, words: Option<&[u8]>) -> Option<Entry>
    ensures { result ≡ loss_said last.now (pieces_in 32 words.entry) }
{
    let (name, words) = next_piece(b' ', words?);
    let (session, words) = next_piece(b' ', words?);
    if let Some(_more) = words {
        return None;
    }
    let peer = place_of(last, name)?;
    let session = read_written(session)?;
    let session = session_of(last, peer, session)?;
    Some(Entry::Lost { peer, session })
}
