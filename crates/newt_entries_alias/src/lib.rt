//! Aliases of entries, as graphs.
//!
//! It stands on `newt_graph` and on the definitions of the plain world. It carries this promise: an
//! alias is read from exactly the graphs that are one. Its own graph is read back as the alias, and
//! is printed as an alias is.
#![tactic(auto)]

mod alias;

pub use alias::Alias;
