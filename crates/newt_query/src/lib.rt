//! What the frame of a query asks, and which keys and entries it lets pass.
//!
//! It stands on `newt_path` for paths, `newt_fold` for words and texts, `newt_keys` for keys,
//! `newt_tags` for tags, and on the definitions of queries in `newt_spec_query`. It carries this
//! promise: a frame is taken exactly where it has the form of a query, and what is read is what the
//! frame says. A key and an entry pass exactly where the query keeps them.
#![tactic(auto)]

mod bounds;
mod fault;
mod kept;
mod laws;
mod paths;
mod shape;
mod spec;
mod text;

pub use fault::{BindFault, ShapeFault};
pub use kept::{is_kept, is_kept_unread, kept_key};
pub use laws::what_is_at_hand_decides;
pub use newt_path::Paths;
pub use shape::Shape;
pub use spec::Spec;
