//! Messages as bytes: UPDATEs written, with routes announced with the attributes that they share, routes withdrawn, or
//! nothing, as End-of-RIB, where those of IPv6 stand among the attributes (RFC 4760); and streams of UPDATEs and
//! ROUTE-REFRESHes read, in whatever pieces they come. Within them a route's spelling: its prefix, and under ADD-PATH its
//! identifier before it; and path attributes: written by ascending type, read in any order.
#![tactic(auto)]

mod ahead;
mod alike;
mod attributes;
mod attrs_fault;
mod attrs_reading;
mod attrs_writing;
mod fault;
mod formed;
mod found;
mod head;
mod multiprotocol;
mod parts;
mod plain;
mod reader;
mod reading;
mod route_reading;
mod route_writing;
mod row;
mod table;
mod values;
mod window;
mod writing;
mod writing6;

pub use alike::routes_are_alike;
pub use attributes::mp_reach_nlri::write_reach;
pub use attributes::mp_unreach_nlri::write_unreach;
pub use attrs_fault::AttrFault;
pub use attrs_reading::{read_attrs, read_attrs6};
pub use attrs_writing::{size_but_next_hop, size_of, write_attrs, write_but_next_hop};
pub use head::size_around;
pub use multiprotocol::{Multiprotocol, Placed};
pub use plain::read_all;
pub use reader::Reader;
pub use route_reading::{NlriRefusal, read, read_route};
pub use route_writing::{put_prefix, size, write};
pub use writing::{
    routes_size, start, write_eor, write_mark, write_routes, write_size, write_update,
    write_withdraw,
};
pub use writing6::{write_eor6, write_update6, write_withdraw6};
