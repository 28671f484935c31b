//! Laws of which cursors a command can give another key: those on one entry, on one soup or on one
//! store, or none.
//!
//! It stands on the definitions of queries and of the world, and on their laws
//! (`newt_laws_world`). What a command reaches is a definition of its own (`specs/Reach`). Its
//! promise: from a settled world, a program that settles the cursors that the command reaches has
//! settled all of them, and a command that moves no key reaches none
//! (`commands_reach_few_cursors`).
#![tactic(auto)]

mod reached;

pub use reached::commands_reach_few_cursors;
