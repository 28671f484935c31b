//! The desk of cursors: 32 places, each free or with a query and a place among its hits.
//!
//! It stands on `newt_query` for what a query asks, on `newt_index` for identities with their keys,
//! and on the definitions of cursors in `newt_spec_query` and of their places in `newt_spec_world`.
//! It carries this promise: the desk is the world's list of cursors, each call is that list's
//! operation, and the desk knows which cursors stand on an entry. It keeps these in a fixed table,
//! with a row for each entry on which a cursor stands. So a look-up takes no memory and asks no
//! other entry.
#![tactic(auto)]

mod desk;
mod fault;
mod place;
mod query;
mod table;

pub use desk::Desk;
pub use fault::DeskFault;
pub use place::Place;
pub use query::{Query, Scope};
