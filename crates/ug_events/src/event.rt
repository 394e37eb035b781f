//! Events, and what a line says.

use std::marker::Model;
use ug_policy::{EntryList, OrfMessage};
use ug_types::{Attrs, Name, Prefix, Sequence, Shared};

/// A path as an event gives it: its identifier, which isn't 0, the peer that it is from, or None where it is the
/// speaker's own, and its attributes, which are within the bounds of attributes from within, and whose AGGREGATOR and
/// ORIGINATOR_ID are IPv4 addresses.
#[derive(Drop)]
pub struct Given {
    pub id: u32,
    pub from: Option<Name>,
    pub attrs: Shared<Attrs>,
}

impl Model for Given {
    ghost use Rattle.std.specs.Prelude.{◌≡◌, ◌<◌, true, None};
    ghost use Rattle.ug_types.specs.Attributes.{refusal_of};
    ghost use Rattle.ug_message.specs.Spellable.{has_ipv4_addresses};
    ghost use Rattle.ug_events.specs.Events.{GivenPath};

    ghost Value = { GivenPath };

    ghost view = { λ g. record { id = g.id; from = g.from; attrs = g.attrs } };

    ghost invariant = { λ g. (0 < g.id) × (refusal_of g.attrs ≡ None) × (has_ipv4_addresses g.attrs ≡ true) };

    ghost inverse = { λ g. record { id = g.id; from = g.from; attrs = g.attrs } };
}

/// Paths in memory that the events of equal ones share.
pub type GivenList = Shared<Sequence<Given>>;

/// What happened.
#[derive(Drop)]
pub enum Event {
    /// A session of the peer comes up.
    Up { peer: Name },
    /// It goes down.
    Down { peer: Name },
    /// The prefix has these paths, best first, in place of those before; there is at least one, and their next hops are
    /// of the prefix's family.
    Paths { prefix: Prefix, paths: GivenList },
    /// The prefix has no path any more.
    Withdraw { prefix: Prefix },
    /// The peer has this policy, or none.
    Policy { peer: Name, policy: Option<Name> },
    /// The prefix list has exactly these entries, of which a list can be made.
    List { name: Name, entries: EntryList },
    /// The peer asks for all routes again.
    Refresh { peer: Name },
    /// The peer asks for them by a message.
    Receive { peer: Name },
    /// The peer changes the list of its own by a message. Each entry that it adds is good.
    Orf { peer: Name, message: OrfMessage },
}

/// What a line says.
#[derive(Drop)]
pub enum Line {
    /// Nothing: it has no words, or a comment.
    Blank,
    /// A mark: everything is to be told first.
    Sync,
    /// An event.
    Happened(Event),
}
