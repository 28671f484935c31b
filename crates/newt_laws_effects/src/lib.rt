//! Laws of the changes of stores that a command resolves to: that what stands in the tables of
//! commands follows from them.
//!
//! It stands on the definitions of the world and the whole, and on newt_store_change, whose changes
//! these are. What a command resolves to is a definition of its own (`specs/Effects`). Its promise:
//! where a command resolves to changes, what it writes, changes, notes, reaches and programs
//! follows from these (`changes_tell_the_tables`). It is refused for what it names, or for what the
//! changes are refused for (`changes_tell_the_refusals`). So no unit is programmed more than the
//! changes program (`changes_tell_the_bytes`).
#![tactic(auto)]

mod tables;

pub use tables::{changes_tell_the_bytes, changes_tell_the_refusals, changes_tell_the_tables};
