//! The backup of the store on a unit, the store of a backup on a unit, and what is written of both.
//!
//! It stands on a store of `newt_store`, over whichever `PageBook` that is, and on the backups of
//! `newt_backup`. It carries these promises. For a unit whose image is read as a store, the answer
//! is the text of that store's backup; for any other unit it is the line that says why there is
//! none. Nothing happens to the unit. For a stream that is a backup, its store stands on the unit,
//! and the answer is the line of that store. For any other stream the answer is the line that says
//! why not, and the unit is only read. The text of a store's backup is restored as this very store.
#![tactic(auto)]

mod backup;
mod gather;
mod laws;
mod restore;
mod restoring;
mod text;

pub use laws::backups_are_restored;
pub use restoring::restore_text;
pub use text::backup_text;
