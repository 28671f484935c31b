//! The commands on the soups and entries of the stores that are mounted.
//!
//! It stands on `newt_engine_units`, which has the units, looks up what is on them and changes one
//! store at a time. A command that changes a store resolves to one change, and answers the effect
//! that it made (`obey`). Those that only read are functions of their own: indexes, tags, info,
//! get, getx, alias, vread. The promise that it carries upwards: each command is answered as the
//! world that units and devices stand for answers it. It leaves units that stand for the world
//! after it, and programs no more than the command may. At every moment a crash leaves each store
//! as it was or as it is then.
#![tactic(auto)]

mod changes;
mod declarations;
mod entries;
mod forms;
mod indexing;
mod infos;
mod larges;
mod plans;
mod tagging;

pub use changes::{changes_stores, obey};
pub use entries::{alias, get};
pub use indexing::indexes;
pub use infos::info;
pub use larges::vread;
pub use tagging::tags;
