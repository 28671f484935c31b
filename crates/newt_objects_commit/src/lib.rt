//! Objects of one unit that change by whole batches, and the tables of where the records of entries
//! are and which objects they name. It stands on a `PageBook` of `newt_pagebook`, whichever it is,
//! and on the objects of `newt_objects`. The promise that it carries upwards: a batch of objects is
//! put and removed as a whole or not at all, whenever the power fails, and it is refused exactly
//! where the objects would take more pages than the unit has.
#![tactic(auto)]

mod batch;
mod commit;
mod names;
mod patch;
mod places;
mod write;

pub use batch::{NewEntry, NewLarge, plan_entry, plan_object, plan_objects};
pub use commit::commit_plans;
pub use names::NameTable;
pub use patch::patch_object;
pub use places::PlaceTable;
