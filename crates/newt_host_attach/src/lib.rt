//! The devices that a run is started with.
//!
//! It stands on the host alone. It carries where a run begins: each name is attached to the unit of
//! its place in the list, where there is a device of that name. Nothing else happens.
#![tactic(auto)]

mod attach;
mod laws;

pub use attach::attach_names;
pub use laws::nothing_happens_before;
