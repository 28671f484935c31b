//! A script, from its lines to its replies, over any interpreter of its commands.
//!
//! It stands on the host, the reading of lines and the texts of replies, and on no engine.
//! `Interpreter` says what an engine must promise for one command, and `Sink` what becomes of its
//! reply. There is one loop over lines. With the input, piece by piece, and the output it runs a
//! script; with a text in memory and a tally it counts the replies.
//!
//! It carries these promises from one command to a whole script:
//! - the commands go through one run of the interpreter's steps;
//! - what is written is the replies of that run, or the summary of them;
//! - the input is not read ahead of a reply that is due;
//! - a crash at any moment leaves each unit as it is in the world after some first commands: every
//!   command among them whose reply has begun, or all of them once a byte of the summary is out.
#![tactic(auto)]

mod count;
mod feed;
mod halt;
mod interpreter;
mod laws;
mod named;
mod pieces;
mod sink;
mod tally;
mod turn;
mod write;

pub use halt::Halt;
pub use interpreter::Interpreter;
pub use laws::{faultless_runs_are_plain, lines_are_spelled};
pub use named::{run_named, tally_named};
pub use pieces::{piece_buffer, read_piece};
pub use write::write_all;
