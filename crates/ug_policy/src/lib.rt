//! What policies are made of: edits of AS_PATH on its way out (RFC 4271 section 5.1.2, RFC 6996); prefix lists, by a
//! peer's policy and by the list that it sends itself, as outbound route filters (RFC 5292), and the messages by which it
//! asks for its routes again; and route maps.
#![tactic(auto)]

mod checks;
mod conditions;
mod copies;
mod filter;
mod list;
mod list_entry;
mod list_refusal;
mod map;
mod map_entry;
mod map_refusal;
mod mapped;
mod named_lists;
mod numbered;
mod orf_action;
mod orf_apply;
mod orf_message;
mod orf_reading;
mod orf_refusal;
mod path_laws;
mod path_numbers;
mod path_segments;
mod refresh_message;
mod sets;

pub use checks::set_known_origins;
pub use filter::Filter;
pub use list::PrefixList;
pub use list_entry::{EntryList, ListEntry};
pub use list_refusal::ListRefusal;
pub use map::{MapTable, NamedMap, RouteMap};
pub use map_entry::{MapEntry, MapEntryList, OnMatch};
pub use map_refusal::MapRefusal;
pub use mapped::Mapped;
pub use named_lists::{ListTable, NamedList, find_named, is_permitted};
pub use numbered::{Numbered, in_order, is_rising};
pub use orf_action::Action;
pub use orf_apply::apply_orf;
pub use orf_message::{OrfEntry, OrfList, OrfMessage};
pub use orf_reading::read_orf;
pub use orf_refusal::OrfRefusal;
pub use path_laws::edits_keep_segments;
pub use path_segments::{drop_private, override_as, prepend};
pub use refresh_message::{RefreshRefusal, read_refresh};
