//! The configuration of a speaker: a text, and the world that it stands for or the first refusal. And the fields of its
//! tables: which there are, of which kind, and what they say. The text is TOML.
#![tactic(auto)]

mod arrays;
mod checking;
mod checks;
mod document;
mod each;
mod entries;
mod fields;
mod given;
mod items;
mod kind;
mod limits;
mod local;
mod named;
mod names;
mod one;
mod options;
mod peers;
mod policies;
mod read;
mod refusals;
mod repeats;
mod rows;
mod rule;
mod setup;
mod table;
mod texts;
mod values;
mod world;

pub use document::{family_at, read_document, tables_at};
pub use each::{TableReader, read_each};
pub use fields::{
    Field, address_at, flag_at, name_at, number_at, numbers_at, octet_at, on_match_at, prefix_at,
};
pub use given::Given;
pub use items::Items;
pub use kind::{Kind, Need, Row};
pub use one::one_world;
pub use read::read_setup;
pub use refusals::{ConfigRefusal, refusal};
pub use rule::Rule;
pub use setup::Setup;
pub use table::read_table;
pub use world::read_config;
