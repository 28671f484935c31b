//! A host over a reader, a writer, and one file for each unit.
//!
//! It stands on `newt_host`, and meets its `Host` with no bytes told: what holds for every host
//! that tells no bytes holds for a run over it. It tells the names, the numbers of blocks and the
//! counts of its units. Its clauses say how each call counts. What a real file does is trusted.
#![tactic(auto)]

mod card;
mod counts;
mod device;
mod edge;
mod files;

pub use files::FileHost;
