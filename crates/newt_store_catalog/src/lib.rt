//! What is kept in memory of a store: the catalog, how it is found when a unit is opened, and how
//! an entry is read by it.
//!
//! It stands on a `PageBook` of `newt_pagebook`, whichever it is, on the objects of `newt_objects`
//! and on the codecs of directory and entry records. The promise that it carries upwards: a unit is
//! opened exactly where its image is read as a store, and its catalog stands for that store. Each
//! entry is told to a `Gatherer` when its record is read. An entry is read as it lies in the
//! objects.
#![tactic(auto)]

mod catalog;
mod gather;
mod open;
mod read;

pub use catalog::Catalog;
pub use gather::{Gatherer, Nothing};
pub use open::{are_there, has_given, open_catalog};
pub use read::{lies, read_row, read_whole};
