//! Laws of steps and runs, where devices may fail, each as the contract of a function without a
//! body.
//!
//! It stands on the crates of definitions and on the laws of the plain world. Where no device
//! fails, a step is the answer of the plain world. Ids and signatures are given once, whatever
//! fails. Every world has a step.
#![tactic(auto)]

mod images;
mod known;
mod steps;

pub use images::{
    commands_see_images, images_tell_worlds, units_thrown_out_are_stood_for,
    values_stand_for_what_is_meant,
};
pub use known::{answers_go_by_what_is_known, units_are_found_and_thrown_out_alone};
pub use steps::{ids_stay_given, quiet_steps_are_plain, steps_are_there, worlds_stand_after_steps};
