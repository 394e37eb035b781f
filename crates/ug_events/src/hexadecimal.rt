//! Messages of a peer as hexadecimal text.

ghost use Rattle.std.specs.Prelude.{IfOk};
ghost use Rattle.ug_policy.specs.OrfViews.{orf_seen, AreChanges};
ghost use Rattle.ug_events.specs.Messages.{bytes_of, request_of, list_of};
ghost use Rattle.ug_events.specs.Views.{Gives};

use crate::refusal::LineRefusal;
use hex::FromHexError;
use std::alloc::Global;
use ug_policy::{OrfMessage, OrfRefusal, read_orf, read_refresh};

/// The bytes of a text of hexadecimal digits, of either case and even in number.
fn bytes_of(alloc: Global, word: &[u8]) -> Result<Vec<u8>, LineRefusal>
    ensures { Gives (λ bytes. bytes.items) result (bytes_of word.now) }
{
    match hex::decode(alloc, word) {
        Ok(bytes) => Ok(bytes),
        Err(FromHexError::OutOfMemory) => Err(LineRefusal::NoMemory),
        Err(_) => Err(LineRefusal::of(22)),
    }
}

/// Whether the text is that of a request for all routes.
pub fn request_of(alloc: Global, word: &[u8]) -> Result<(), LineRefusal>
    ensures { Gives (λ x. x) result (request_of word.now) }
{
    let bytes = bytes_of(alloc, word)?;
    match read_refresh(bytes.as_slice()) {
        Ok(()) => Ok(()),
        Err(e) => Err(LineRefusal::Refused {
            number: 26,
            inner: Some(e.number),
        }),
    }
}

/// The changes of the peer's own list that the text is.
pub fn list_of(alloc: Global, word: &[u8]) -> Result<OrfMessage, LineRefusal>
    ensures read { Gives orf_seen result (list_of word.now) }
    ensures good { IfOk result (λ message. AreChanges message.entries.items) }
{
    let bytes = bytes_of(alloc, word)?;
    match read_orf(alloc, bytes.as_slice()) {
        Ok(message) => Ok(message),
        Err(OrfRefusal::Refused { number }) => Err(LineRefusal::Refused {
            number: 26,
            inner: Some(number),
        }),
        Err(OrfRefusal::NoMemory) => Err(LineRefusal::NoMemory),
    }
}
