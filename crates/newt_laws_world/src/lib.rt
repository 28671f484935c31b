//! Laws of the plain world: what holds of its definitions, each as the contract of a function
//! without a body.
//!
//! It stands on the crates of definitions (`newt_spec_graph`, `newt_spec_store`, `newt_spec_query`,
//! `newt_spec_world`). A store that is valid stays valid under each command. A world whose cursors
//! show the present keys stays so. An id or a signature is given once. What images are read as is
//! in `newt_laws_images`, and what a change of one store does is in `newt_laws_changes`.
#![tactic(auto)]

mod cursors;
mod graphs;
mod identities;
mod queries;
mod scripts;
mod worlds;

pub use cursors::{other_commands_are_answered_without_cursors, other_commands_see_no_cursors};
pub use graphs::graphs_are_within_limits;
pub use identities::{aliases_name_their_entry, ids_are_given_once, removed_is_gone};
pub use queries::{hits_are_found, hits_rise};
pub use scripts::{commands_have_their_forms, scripts_keep_all};
pub use worlds::{
    few_commands_move_keys, first_worlds_keep_all, runs_keep_all, signatures_stay_apart,
    stores_stay_valid, worlds_stay_settled,
};
