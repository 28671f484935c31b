//! The engine: a world over the stores on cards.
//!
//! It stands on `newt_engine_units` and `newt_engine_commands`, whose calls mount, change and read
//! the stores, and on `newt_engine_cursors`, whose calls move the cursors among their entries.
//! Watches and working copies are `newt_engine_whole`'s. It carries the promise of one command.
//! Units, cursors and devices stand for one world, or for several where a device has failed. From
//! each of them a command of its form makes a step to a world that is stood for then. At each
//! moment a crash leaves each unit as in the one or in the other. A device that fails costs its own
//! command, and a reply passes over no fault that was counted. Each command but `format` programs
//! no more than it may.
#![tactic(auto)]

mod cursors;
mod memory;
mod moves;
mod obey;
mod replies;
mod serve;
mod world;

pub use world::World;
