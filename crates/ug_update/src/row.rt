//! What there is to know of a path attribute, side by side: its number, its flags, its lengths, how its value is read, and
//! how it is spelled. Each attribute has a module of its own with both of these traits, and a row in `table`.

ghost use Rattle.std.specs.Prelude.{◌≡◌, ℕ, ◌+◌, ◌<◌, ◌≤◌, ◌^◌, ◌++◌, true, List, length, IfErr};
ghost use Rattle.ug_types.specs.Attributes.{Attributes, attributes_of, IsAttributes};
ghost use Rattle.ug_message.specs.Kind.{Kind};
ghost use Rattle.ug_message.specs.Lengths.{HasShortValues};
ghost use Rattle.ug_update.specs.AttrsViews.{so_far, StandsAt, GivesOne, HasNumber};

use crate::attrs_fault::AttributeFault;
use crate::found::{Found, Standing};
use std::alloc::Global;
use ug_types::{AttrParts, ByteList};

/// The flags of an attribute that every router has to know.
pub const WELL_KNOWN: u8 = 64;

/// The flags of one that a router may not know, and then doesn't pass on.
pub const OPTIONAL: u8 = 128;

/// The flags of one that a router may not know, and passes on all the same.
pub const OPTIONAL_TRANSITIVE: u8 = 192;

/// An attribute as it is read.
pub trait Known {
    ghost kind: { Kind };

    ghost NUMBER: { ℕ };

    ghost FLAGS: { ℕ };

    /// The number of its type.
    const NUMBER: u8;

    /// The flags of its type.
    const FLAGS: u8;

    ghost number_is: { kind.type ≡ NUMBER };

    ghost flags_are: { kind.flags ≡ FLAGS };

    /// Whether its values can have this length.
    fn is_length(len: usize) -> bool
        ensures { result ≡ kind.is_length len };

    /// Puts its value, which stands at a place of all attributes, where it belongs.
    fn read(
        alloc: Global,
        found: &mut Found,
        all: &[u8],
        a: Standing<'_>,
    ) -> Result<(), AttributeFault>
        requires sized { kind.is_length (length a.value.now) ≡ true }
        requires within { a.place + length a.value.now ≤ length all.now }
        requires stands { StandsAt all.now a.place a.value.now }
        requires limit { found.old.limit ≡ length all.now }
        ensures exact { GivesOne (λ _. so_far all.now found.new) result (kind.read a.entry.place a.entry.value.now (so_far all.now found.old)) }
        ensures limit { found.new.limit ≡ found.old.limit }
        ensures number { IfErr result HasNumber };
}

/// What is written of a path's attributes: one of them, or those of a table one after the other.
pub trait Spelled {
    ghost spelled: { Attributes → List ℕ };

    /// How many bytes that takes.
    fn size(parts: &AttrParts) -> usize
        requires short { HasShortValues (attributes_of parts.now) }
        requires fits { length (spelled (attributes_of parts.now)) < 2 ^ 64 }
        ensures { result ≡ length (spelled (attributes_of parts.now)) };

    /// Adds it at the end, for which there is room.
    fn put(out: &mut ByteList, parts: &AttrParts)
        requires well_formed { IsAttributes (attributes_of parts.now) }
        requires short { HasShortValues (attributes_of parts.now) }
        requires room { length (spelled (attributes_of parts.now)) ≤ out.old.spare }
        ensures items { out.new.items ≡ out.old.items ++ spelled (attributes_of parts.now) }
        ensures spare { out.old.spare ≤ out.new.spare + length (spelled (attributes_of parts.now)) };
}
