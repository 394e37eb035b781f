use std::marker::Model;
use ug_policy::{ListTable, MapTable};
use ug_types::{Name, Named, Sequence};

/// Which prefix list and which route map filter what a peer is sent.
#[derive(PartialEq, Eq, Drop)]
pub struct Policy {
    pub list: Option<Name>,
    pub map: Option<Name>,
}

/// A policy and its name.
pub type NamedPolicy = Named<Policy>;

pub type PolicyTable = Sequence<NamedPolicy>;

/// The prefix lists and the route maps, by name.
#[derive(Drop)]
pub struct Policies {
    pub lists: ListTable,
    pub maps: MapTable,
}

impl Model for Policies {
    ghost use Rattle.ug_outbound.specs.Tables.{Tables};

    ghost Value = { Tables };

    ghost view = { λ p. record { lists = p.lists.items; maps = p.maps.items } };
}
