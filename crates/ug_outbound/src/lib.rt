//! What goes out of a path to a peer: the outbound rules, and the group keys by which peers share them.
#![tactic(auto)]

mod as_path;
mod key;
mod keying;
mod kind;
mod laws;
mod outgoing;
mod peer;
mod policy;
mod reflection;
mod rules;
mod settings;

pub use key::GroupKey;
pub use keying::key_of;
pub use kind::Kind;
pub use laws::outbound_laws;
pub use outgoing::outbound;
pub use peer::{Peer, PeerTable};
pub use policy::{NamedPolicy, Policies, Policy, PolicyTable};
pub use settings::Local;
