//! Laws of the runs of scripts, each as the contract of a function without a body.
//!
//! It stands on the crates of definitions and their laws, and on what a run of a script promises.
//! What holds of stores, ids and aliases goes on from one run to the next, where a crash comes and
//! where cards fail too.
#![tactic(auto)]

mod crashes;
mod next;

pub use crashes::{
    aliases_lead_to_their_entry_or_to_none, aliases_outlive_crashes, crashes_leave_later_stores,
    ids_of_entries_have_been_given, ids_outlive_crashes, later_runs_go_on,
    worlds_of_runs_are_sound,
};
pub use next::next_runs_begin_there;
