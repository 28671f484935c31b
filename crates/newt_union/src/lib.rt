//! The merge of the ranges of some soups, the members of a union soup. It is ordered by key, then
//! by the signatures of store and soup, then by id.
//!
//! It stands on `newt_index`. It carries this promise: each call answers what the list of all
//! members' hits, put in that order, has at the place asked for. Nothing is merged in advance: each
//! search takes the best of what the members' own indexes answer. There are at most four members,
//! which are kept in place, so that no call takes memory.
#![tactic(auto)]

mod hit;
mod member;
mod members;
mod searches;

pub use hit::Hit;
pub use members::Members;
