//! A short text that is put together from its end, in one piece and without memory.

ghost use Rattle.std.specs.Prelude.{◌≡◌, ◌+◌, ◌<◌, ◌≤◌, [], ◌∷◌, ◌++◌};
ghost use Rattle.std.specs.Fmt.{decimal};

use itoa::write_digits;
use std::marker::Model;

/// How many bytes it has room for.
const ROOM: usize = 80;

/// A text of at most 80 bytes of ASCII. Contracts see the text, and beside it how many further bytes it has room for.
#[derive(Drop)]
pub struct FromEnd {
    bytes: [u8; ROOM],
    start: usize,
}

impl Model for FromEnd {
    ghost use Rattle.std.specs.Prelude.{◌≡◌, ◌≤◌, ◌*◌, length, drop};
    ghost use Rattle.std.specs.Str.{IsAscii};
    ghost use Rattle.ug_text.specs.Fronted.{Fronted};

    ghost Value = { Fronted };

    ghost view = { λ t. record { text = drop t.start t.bytes; room = t.start } };

    ghost invariant = { λ t. (t.start ≤ 80) × IsAscii (drop t.start t.bytes) };
}

impl FromEnd {
    /// The empty text.
    pub fn new() -> FromEnd
        ensures text { result.text ≡ [] }
        ensures room { result.room ≡ 80 }
    {
        FromEnd {
            bytes: [0; ROOM],
            start: ROOM,
        }
    }

    /// Adds a number in front, in decimal digits.
    pub fn put_number(&mut self, number: u32)
        requires { 10 ≤ self.old.room }
        ensures text { self.new.text ≡ decimal number ++ self.old.text }
        ensures room { self.old.room ≤ self.new.room + 10 }
    {
        self.start = write_digits(number as u64, &mut self.bytes, self.start);
    }

    /// Adds a byte in front.
    pub fn put_byte(&mut self, byte: u8)
        requires room { 1 ≤ self.old.room }
        requires ascii { byte < 128 }
        ensures text { self.new.text ≡ byte ∷ self.old.text }
        ensures room { self.old.room ≡ self.new.room + 1 }
    {
        self.start -= 1;
        self.bytes[self.start] = byte;
    }

    /// The text.
    pub fn as_str(&self) -> &str
        ensures { result.now ≡ self.now.text }
    {
        // ASCII is UTF-8.
        unsafe { std::str::from_utf8_unchecked(&self.bytes[self.start..]) }
    }
}
