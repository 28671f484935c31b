//! Paths through the frames of a graph: reading a path, the value that it reaches, and a change at
//! it.
//!
//! It stands on `newt_base`, `newt_graph` and `newt_spec_graph`. It carries this promise:
//! `value_at` is the value that the path reaches by the definition. `set_at` gives the normal form
//! of the graph with the value put in its place, exactly where there is such a place.
#![tactic(auto)]

mod fault;
mod large;
mod path;
mod paths;
mod set;
mod value;

pub use fault::{PathFault, SetFault};
pub use large::large_at;
pub use path::Path;
pub use paths::Paths;
pub use set::set_at;
pub use value::{has_name, slot_value, value_at};
