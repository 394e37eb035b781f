//! Which fields a table has.

use std::marker::Model;

/// What the value of a field has to be.
#[derive(Clone, Copy, PartialEq, Eq)]
pub enum Kind {
    /// A whole number between two.
    Number(u32, u32),
    /// A prefix's length, 0 to 32.
    Length,
    /// `true` or `false`.
    Flag,
    /// A flag that only a table of the IPv4 family may set.
    Ipv4Flag,
    /// A name: 1 to 32 bytes of a to z, 0 to 9, `-` and `_`, the first of them a letter.
    Name,
    /// A name that isn't `local`.
    PeerName,
    /// An IPv4 address text.
    Ipv4,
    /// An IPv4 prefix text.
    Ipv4Prefix,
    /// `"ipv4"` or `"ipv6"`.
    Family,
    /// An address text of the table's family.
    Address,
    /// A prefix text of the table's family.
    Subnet,
    /// `"permit"` or `"deny"`.
    Action,
    /// `"next"`, or `"goto N"`, N from 1 to 4294967295.
    OnMatch,
    /// `"igp"`, `"egp"` or `"incomplete"` (RFC 4271 section 5.1.1).
    Origin,
    /// A community `"A:B"` (RFC 1997).
    Community,
    /// An array of whole numbers from 1 to 4294967295.
    Numbers,
    /// An array of communities.
    Communities,
    /// A table.
    Table,
    /// An array of tables.
    Tables,
}

/// Whether a field has to be there, and what stands for one that isn't.
#[derive(Clone, Copy, PartialEq, Eq)]
pub enum Need {
    Required,
    /// Nothing stands for it.
    Optional,
    /// This number stands for it.
    Number(u32),
    /// `false` stands for it.
    False,
    /// The IPv4 family stands for it.
    Ipv4,
}

/// A field that a table may have.
pub struct Row {
    pub name: &'static str,
    pub kind: Kind,
    pub need: Need,
}

impl Model for Row {
    ghost use Rattle.ug_config.specs.FieldRows.{FieldRow};

    ghost Value = { FieldRow };

    ghost view = { λ r. record { name = r.name.now; kind = r.kind; need = r.need } };
}
