//! The values of the outbound side of a BGP speaker: prefixes, keys, path attributes and what messages say.
#![tactic(auto)]

mod address;
mod attrs;
mod capabilities;
mod communities;
mod compared;
mod family;
mod key;
mod laws;
mod mark;
mod memory;
mod message;
mod name;
mod named;
mod prefix;
mod route;
mod router_id;
mod sequence;
mod shared;
mod steps;
mod traits;

pub use address::Addr;
pub use attrs::{Aggregator, AttrParts, AttrRefusal, Attrs, Segment, SegmentList};
pub use capabilities::Capabilities;
pub use communities::{NO_ADVERTISE, NO_EXPORT, NO_EXPORT_SUBCONFED};
pub use family::Family;
pub use key::Key;
pub use laws::{comparison_laws, value_laws};
pub use mark::{Mark, MarkList};
pub use memory::NoMemory;
pub use message::{Item, KeyList, Next, Update, Written};
pub use name::{Name, NameList};
pub use named::Named;
pub use prefix::Prefix;
pub use route::{Learned, NhKind, OutAttrs, Path, PeerEnds, PeerId, PeerList};
pub use router_id::RouterId;
pub use sequence::{ByteList, NumberList, Sequence};
pub use shared::Shared;
pub use steps::Steps;
pub use traits::{Twin, Weighed};
