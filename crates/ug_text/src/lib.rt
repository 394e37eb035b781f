//! Addresses, prefixes and path attributes as text, as rows are printed and event lines are read; and the text of a
//! table's rows: a route a line, its attributes spelled as event lines spell them.
#![tactic(auto)]

mod address;
mod address_reader;
mod attributes;
mod cutting;
mod from_end;
mod ipv6_reader;
mod list_reader;
mod lists;
mod number_reader;
mod row;
mod row_writer;

pub use address::{write_address, write_prefix};
pub use address_reader::{read_address, read_aggregator, read_ipv4, read_prefix, read_prefix_of};
pub use attributes::{origin_word, write_attributes};
pub use cutting::{cut_at, next_piece};
pub use list_reader::{Spelled, read_numbers, read_origin, read_path};
pub use lists::{write_clusters, write_communities, write_numbers, write_path};
pub use number_reader::{read_community, read_number, read_positive};
pub use row::write_row;
pub use row_writer::RowWriter;
