//! Notes of changes, and watches that keep the last of them.
//!
//! It stands on `newt_base` and `newt_host` for the numbers of a note, on the kit's
//! `circular_buffer`, and on no engine. It carries this promise: a watch stands for the whole list
//! of the notes that it was given since it was made or emptied. It keeps the last of them, and
//! counts those that it lost.
#![tactic(auto)]

mod fault;
mod note;
mod watch;
mod watches;

pub use fault::WatchFault;
pub use note::{Kind, Note, NoteList, Notes};
pub use watch::Watch;
pub use watches::Watches;
