//! What a store keeps in memory of its soups' entries. For each soup that is the sorted list of all
//! its entries, a sorted list for each of its declarations, and the masks of their tags.
//!
//! It stands on `newt_index` for the lists, on `newt_keys` for the keys and on `newt_tags` for the
//! masks; it knows nothing of pages or objects. It carries these promises, for ranges that stand
//! for a store:
//! - for a soup and a declaration they find the sorted list of exactly the soup's entries that have
//!   a key, and for an entry its mask;
//! - each change of the store is one call here;
//! - the order in which entries are added does not matter.
#![tactic(auto)]

mod entry;
mod indexes;
mod masks;
mod ranges;
mod rows;

pub use entry::add_entry;
pub use masks::Masks;
pub use ranges::Ranges;
