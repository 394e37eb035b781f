//! What messages say.

use crate::attrs::Attrs;
use crate::key::Key;
use crate::sequence::{ByteList, Sequence};

pub type KeyList<K> = Sequence<K>;

/// What an UPDATE says (RFC 4271 section 4.3): routes that are withdrawn, and routes that are announced with the
/// attributes that they share. The attributes are there exactly where routes are announced.
#[derive(Drop)]
pub struct Update {
    pub withdrawn: KeyList<Key>,
    pub attrs: Option<Attrs>,
    pub announced: KeyList<Key>,
}

/// What one message says: an UPDATE, the begin or the end of a refresh (RFC 7313), or nothing to heed.
#[derive(Drop)]
pub enum Item {
    Update(Update),
    Begin,
    End,
    Ignored,
}

/// What comes next of a stream: a message, nothing before more bytes come, or a fault with its cause and the
/// place in the stream where it lies.
#[derive(Drop)]
pub enum Next {
    Message(Item),
    NeedMore,
    Bad { cause: u8, offset: u64 },
}

/// A message as written, and the place in it where the value of NEXT_HOP stands.
#[derive(Drop)]
pub struct Written {
    pub bytes: ByteList,
    pub place: usize,
}
