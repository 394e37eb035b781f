//! The outside of the speaker: what is read, what is reported, and the wires to the peers, each as a trait with
//! a form in memory and a real one.
#![tactic(auto)]

mod counts;
mod cuts;
mod gated;
mod host;
mod lists;
mod outside;
mod places;
mod room;
mod sessions;
mod sink;
mod site;
mod spans;
mod wire;

pub use gated::{GatedSite, GatedWire};
pub use host::{HostSite, HostWire, StdoutSink};
pub use lists::{CallKind, CallList, Cut, CutList, FailAt, File, FileList};
pub use outside::{Failed, Sink, Site, SiteFault, Source, Wire};
pub use room::RoomWire;
pub use sink::MemSink;
pub use site::MemSite;
pub use wire::MemWire;
