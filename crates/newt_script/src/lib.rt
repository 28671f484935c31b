//! Lines of a script: what one line says.
//!
//! It stands on the words of `newt_script_words`, the refusals of `newt_base`, the readers of
//! object streams and literals, and the definitions of commands and lines in `newt_spec_world` and
//! `newt_spec_script`. It carries the promise that a line is read exactly. `line` answers the one
//! command that the definition gives the line, or the one refusal of its reading. It answers
//! nothing exactly for a blank line or a `%` line.
#![tactic(auto)]

mod cursor_rows;
mod declaring_rows;
mod entry_rows;
mod fault;
mod graphs;
mod large_rows;
mod laws;
mod lines;
mod store_rows;
mod table;
mod verbs;
mod whole_rows;

pub use fault::LineFault;
pub use graphs::literal;
pub use laws::{commands_have_their_forms, scripts_are_read_as_defined};
pub use lines::line;
pub use newt_spec_world::Command;
