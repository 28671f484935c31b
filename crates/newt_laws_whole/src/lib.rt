//! Laws of watches and working copies beside the world, each as the contract of a function without
//! a body. Those of `runs`, `copies` and `watches` hold where no device fails; those of `steps`,
//! `worlds` and `failures` whatever fails.
//!
//! It stands on the definitions of the whole (`newt_spec_whole`) and on the laws of the world and
//! of its steps.
#![tactic(auto)]

mod copies;
mod failures;
mod runs;
mod steps;
mod watches;
mod worlds;

pub use copies::{copies_begin_from_the_entry, edits_are_put};
pub use failures::{
    copies_begin_in_steps, copies_outlive_failures, saves_replace_what_was_read_whatever_fails,
    watches_get_the_notes_of_steps, what_changes_is_told_whatever_fails,
};
pub use runs::{drafts_stay_fit, other_commands, plain_commands, saves_are_changes};
pub use steps::{quiet_whole_steps_are_plain, steps_of_the_world_tell_their_notes};
pub use watches::{notes_are_taken_once, what_changes_is_told};
pub use worlds::{whole_runs_keep_ids, whole_steps_are_steps_of_the_world, wholes_stay_sound};
