//! The commands of cursors over the mounted stores.
//!
//! It stands on `newt_engine_units` for the stores, on `newt_engine_hits` for the search of their
//! hits, and on `newt_cursor` for the 32 places of cursors. The promise that it carries: units,
//! cursors and devices stand for one world; each command of cursors is answered as that world
//! answers it, and leaves what stands for the world after it; and nothing happens to a device but
//! reading.
//!
//! Each call answers `StoreFault::Refused` with the refusal that its command is answered with, and
//! then neither the stores nor the cursors have changed; or `StoreFault::Stop` where memory was
//! refused or a device failed. A device that fails leaves the cursors as they were.
#![tactic(auto)]

mod asking;
mod commands;
mod declared;
mod desks;
mod opening;
mod reach;
mod settling;
mod show;
mod stepping;

pub use commands::{clone_of, close, count, entry, which};
pub use opening::{query, query_all};
pub use reach::{Reach, reach_of};
pub use settling::settle_reached;
pub use show::{Shown, Side};
pub use stepping::{end, go_to, go_to_key, moveby, next, prev, reset};
