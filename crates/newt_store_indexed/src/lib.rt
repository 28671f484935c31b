//! A store on one unit together with the sorted lists of its soups' entries and the masks of their
//! tags, as the card that the units ask for.
//!
//! It stands on `newt_store`, which keeps the store and changes it; on `newt_index_ranges`, which
//! keeps for each soup a list of all its entries, a sorted list for each of its declarations, and
//! the masks; and on `newt_engine_card`, whose `Card` it is. The promise that it carries upwards:
//! its unit is read as one store, whose lists it keeps, after it is opened and after each change. A
//! change is that of `newt_store` in all that it says.
#![tactic(auto)]

mod fill;
mod listing;
mod plan;
mod step;
mod store;

pub use store::IndexedStore;
