//! Ranges of large objects: bytes of an object are read, or replaced, by the pages of the parts
//! that they lie in, and by no others.
//!
//! It stands on a `PageBook` of `newt_pagebook`, whichever it is, and on the table of
//! `newt_objects`. The promise that it carries upwards: what is read is the object's bytes in the
//! range. A patch and its commit put exactly the given bytes there, and leave all other bytes and
//! objects. They put a page for each part that the bytes lie in, under its old number.
#![tactic(auto)]

mod fault;
mod patch;
mod range;
mod read;

pub use fault::RangeFault;
pub use patch::plan_patch;
pub use read::read_range;
