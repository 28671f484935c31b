//! Laws of what an image is read as: each is the contract of a function without a body.
//!
//! It stands on the definitions of stores and images (`newt_spec_store`) and not on the world, so
//! that a store on a unit can cite it. A valid store that objects write down is what they are read
//! as, and no other is. A store lies in objects exactly where it is read of them, and it costs the
//! pages that they take. A directory, records of entries and the large binaries that these name are
//! such a store. The functions that compute the objects of pages and the store of an image agree
//! with the relations that say what is meant.
#![tactic(auto)]

mod images;
mod lying;
mod readings;
mod refusals;

pub use images::{
    images_are_read_by_their_objects, objects_are_made_of_pages, stores_are_made_of_images,
};
pub use lying::{
    lying_stores_are_read, records_are_read_alone, skeletons_are_graphs, stores_are_made_of_records,
};
pub use readings::{images_hold_one_store, records_are_read_back, stores_are_read_back};
pub use refusals::{
    bad_directories_are_refused, bad_names_are_refused, bad_records_are_refused,
    large_stores_are_refused, read_stores_have_their_parts,
};
