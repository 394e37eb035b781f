//! The world of a speaker: which events it accepts, what they make of it, and what each peer should have of its routes.
#![tactic(auto)]

mod best;
mod copies;
mod fresh;
mod good;
mod judge;
mod keys;
mod laws;
mod lists;
mod loc_rib;
mod orf_length;
mod parts;
mod peer_state;
mod peers;
mod readers;
mod row_trees;
mod rows;
mod seats;
mod take;
mod v4_prefix;
mod v6_prefix;
mod world;

pub use best::Best;
pub use judge::Refusal;
pub use laws::{sendable_laws, world_laws};
pub use parts::WorldParts;
pub use peer_state::PeerState;
pub use rows::Rows;
pub use world::World;
