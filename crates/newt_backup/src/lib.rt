//! The backup of a store as one graph: the bytes of its directory, and of each entry whole, cut
//! into pieces.
//!
//! It stands on `newt_soupdir` and `newt_entries`, on the reader and the writer of the streamed
//! form, and on the definitions of stores. It carries these promises:
//! - `pack_backup` answers the backup of a store, and `read_backup` the store that has a backup;
//! - a graph that `read_backup` refuses is the backup of no store;
//! - the backup of each store is a graph whose text is shorter than the longest input;
//! - two stores with the same backup are the same store.
//!
//! How it is proved: the reader is lenient. It joins all binaries after each array and reads what
//! they spell; then it tests that this is a store, packs that again and compares. So what it takes
//! is a backup, and what it refuses is none as long as each backup is read back. The numbers of
//! nodes stand in the order of the walk, so that a packed graph is in normal form as it is.
#![tactic(auto)]

mod checks;
mod cutting;
mod fault;
mod laws;
mod nodes;
mod pack;
mod read;

pub use checks::{costs_at_most, is_store};
pub use fault::BackupFault;
pub use laws::{backups_are_graphs, backups_are_of_one_store};
pub use newt_entries::FullEntry;
pub use pack::pack_backup;
pub use read::read_backup;
