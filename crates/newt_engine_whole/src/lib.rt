//! The engine of a script: a world over the stores on cards, with watches and working copies beside
//! it.
//!
//! It stands on `newt_engine`, whose world it asks, on `newt_notify` and `newt_work`, and on
//! `newt_script_session`, whose `Interpreter` says what a script asks of an engine. It carries the
//! promise of one command. World, watches, copies and devices stand for one whole, or for several.
//! From each of them a command of its form makes a step to one that is stood for then. At each
//! moment a crash leaves each unit as in the one or in the other. Room for notes is there before
//! the world is asked, and a saved copy's new base is its draft. So once the world has answered,
//! the whole answers too: `tell` and `rebase_to_draft` have no error.
#![tactic(auto)]

mod due;
mod edits;
mod notes;
mod saves;
mod whole;

pub use whole::Whole;
