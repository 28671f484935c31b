//! Laws of the changes of one store: each is the contract of a function without a body.
//!
//! It stands on the definitions of stores (`newt_spec_store`) and on the laws of what an image is
//! read as (`newt_laws_images`). It does not stand on the world, so that a store on a unit can cite
//! it. A changed store is well formed and lies in the changed objects. A count of its cost that is
//! kept from change to change equals one that is made anew. Ids and signatures are given once.
#![tactic(auto)]

mod changes;
mod cost;

pub use changes::{
    changed_stores_are_well_formed, changed_stores_lie_in_changed_objects, changes_give_new_ids,
    directories_follow_changes, places_are_apart, soups_are_found_both_ways,
};
pub use cost::costs_add_up;
