//! Laws of the hits of a query: how code comes by them, step by step.
//!
//! It stands on the definitions of queries and of the world, on their laws (`newt_laws_world`), and
//! on what ranges and unions are (`newt_index_ranges`, `newt_union`). The hits of a query are those
//! of its index alone, filtered (`hits_are_filtered`). These are the merge of its members' ranges
//! (`hits_are_merged`). A cursor among the filtered hits moves by steps among all of them
//! (`walks_pass_over_what_is_not_kept`). A hit is looked up by its identity (`hits_are_looked_up`).
//! All of it together says how each step of a cursor is found by the searches of the union
//! (`steps_are_searches`).
#![tactic(auto)]

mod hits;
mod identity;
mod steps;
mod walks;

pub use hits::{hits_are_few, hits_are_filtered, hits_are_merged};
pub use identity::{
    entries_are_located, few_commands_settle, hits_are_looked_up, settling_twice_is_settling,
};
pub use steps::{searches_count, searches_end, steps_are_searches};
pub use walks::{
    walks_begin_at_the_ends, walks_count, walks_end, walks_pass_over_what_is_not_kept,
};
