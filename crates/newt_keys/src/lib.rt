//! Keys of entries: declarations of indexes, the key that a graph has by one, the order of keys,
//! and bytes that order as the keys do.
//!
//! It stands on `newt_path` for the values at paths, on `newt_fold` for the folding of strings, and
//! on the definition of keys. It carries this promise: the key of a graph, the key that a value
//! writes down and the order of keys are the definition's. The bytes of two keys of one declaration
//! order as the keys do, and where the keys differ, neither's bytes begin the other's.
#![tactic(auto)]

mod bytes;
mod compared;
mod declared;
mod given;
mod read;
mod types;
mod values;

pub use bytes::key_bytes;
pub use compared::compare;
pub use declared::key_in;
pub use given::key_from;
pub use newt_spec_store::{Kind, Order};
pub use read::key_of;
pub use types::{IndexPart, IndexSpec, Key, Part};
