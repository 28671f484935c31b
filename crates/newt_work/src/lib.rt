//! Working copies of entries: an entry's state when it was opened, and a draft that is edited apart
//! from the store.
//!
//! It stands on `newt_graph` for graphs and on `newt_path` for what is put at a path, and on no
//! store. It carries this promise: the draft is the base with the edits since then put into it one
//! after another. A copy knows whether an entry still is as its base.
#![tactic(auto)]

mod equal;
mod fault;
mod work;
mod works;

pub use fault::WorkFault;
pub use work::Work;
pub use works::Works;
