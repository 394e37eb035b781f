//! What a peer's message says of its own list.

use crate::list_entry::ListEntry;
use crate::orf_action::Action;
use std::marker::Model;
use ug_types::Sequence;

/// One change of the list.
#[derive(Clone, Copy)]
pub struct OrfEntry {
    pub action: Action,
    /// The match bit: permit, or else deny.
    pub permit: bool,
    /// The entry that the change is about, None exactly where all entries go. One that is added is good.
    pub entry: Option<ListEntry>,
}

impl Model for OrfEntry {
    ghost use Rattle.ug_policy.specs.OrfChanges.{OrfChange, is_change};
    ghost use Rattle.std.specs.Prelude.{◌≡◌, true};

    ghost Value = { OrfChange };

    ghost view = { λ c. record { action = c.action; permit = c.permit; entry = c.entry } };

    ghost invariant = { λ c. is_change c.action c.entry ≡ true };

    ghost inverse = { λ c. record { action = c.action; permit = c.permit; entry = c.entry } };
}

pub type OrfList = Sequence<OrfEntry>;

/// The changes in their order, and whether the peer asks for its routes at once (IMMEDIATE), or at its next request
/// (DEFER).
#[derive(Drop)]
pub struct OrfMessage {
    pub now: bool,
    pub entries: OrfList,
}
