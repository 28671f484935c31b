//! The generated script: one store whose names are added, indexed and walked, as many as are asked
//! for.
//!
//! It stands only on the definition of the script in `newt_spec_script`, which it carries: the text
//! is that of the definition, whatever the seed.
#![tactic(auto)]

mod script;

pub use script::gen_script;
