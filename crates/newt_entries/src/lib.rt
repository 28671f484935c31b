//! Entry records as bytes.
//!
//! It stands on `newt_graph`, on the reader of flat texts and their writer, and on the definitions
//! of stores. It carries this promise: a record is read from exactly the bytes that have one by the
//! store's reading, and is written as the store's definition says. A record has the graph without
//! the bytes of its large binaries, and names their objects. Backups and fills hand on entries
//! whole (`FullEntry`).
#![tactic(auto)]

mod fault;
mod fit;
mod full;
mod graphs;
mod read;
mod row;
mod write;

pub use fault::EntryFault;
pub use fit::MOST_TEXT;
pub use full::FullEntry;
pub use graphs::{filled, larges_of, row_of, skeleton, whole};
pub use read::read_entry;
pub use row::{EntryRow, LargeAt, Larges};
pub use write::write_entry;
