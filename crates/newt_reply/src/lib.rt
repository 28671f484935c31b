//! Replies of the program, and their lines of text.
//!
//! It stands on the refusals and the texts of numbers of `newt_base`, the graphs of `newt_graph`,
//! the declarations of `newt_keys` and `newt_tags`, the notes of `newt_notify` and the aliases of
//! `newt_entries_alias`. It writes with the writers of object streams and literals, by the
//! definition of replies in `newt_spec_world`.
//!
//! It carries the promise that the text of a reply is exact: `write_reply` gives the one line that
//! is defined for the reply.
#![tactic(auto)]

mod declared;
mod fields;
mod items;
mod line;
mod notes;
mod reply;
mod rows;
mod write;

pub use newt_entries_alias::Alias;
pub use reply::Reply;
pub use rows::{SoupLine, SoupRows, SpecRows, StoreLine, StoreRows, TagRow};
pub use write::write_reply;
