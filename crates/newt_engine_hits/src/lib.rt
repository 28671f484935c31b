//! The search of the hits of a query over the mounted stores.
//!
//! It stands on `newt_engine_units` for the stores, on `newt_union` for searches of the merged
//! ranges, and on `newt_query` for what a query keeps. The promise that it carries: each hit, place
//! and count that it answers is the one among the hits of the world that the units and the devices
//! stand for; and nothing happens to a device but reading.
//!
//! Each call that reads answers `Stop` where memory was refused or a device failed.
#![tactic(auto)]

mod counting;
mod keep;
mod places;
mod present;
mod search;
mod walk;
mod ways;

pub use counting::count_hits;
pub use places::{at_key, moved, outermost, step};
pub use present::{Present, find_hit, hit_key, in_scope, read_entry};
pub use ways::Way;
