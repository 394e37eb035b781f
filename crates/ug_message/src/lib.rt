//! What messages and streams of messages are, in a session of either family, what they leave at the receiver, and how
//! that follows the past of a private table: definitions that the writers, the readers, the machine and the run share,
//! and laws about them. And what is rewritten for each peer of a packet that many share.
#![tactic(auto)]

mod climbing;
mod hops;
mod laws;
mod packet;
mod room;

pub use climbing::climbing_laws;
pub use hops::next_hop;
pub use laws::{
    attribute_faults, attributes_again, one_text, route_again, sent_and_received, streams,
    values_are_short, whole_messages, written_again,
};
pub use packet::{Packet, patch};
pub use room::{put, put_u16, put_u32};
