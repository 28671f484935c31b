//! What a stranger, a stop or a failing call may do to a run:
//! - cards that were changed, lines that are no commands, an input that comes a byte at a time, and
//!   an output that fails;
//! - one script that uses every command except those of info frames, watches and working copies,
//!   stopped at each call, and run with each call of the outside failing;
//! - backups that were cut and bent, a restoring that is stopped at each call, and backups of many
//!   soups.
//!
//! It stands on the trials of whole runs, and carries no promise of its own: it holds tests. They
//! try the crash half of `run` too, where a next run tells what a stop has left.
//!
//! The replies come from the rules of the image and of the language, and not from the program. The
//! rows of the script are made here. What the plain world holds after each command is what a next
//! run lists of a unit, after a run that is not stopped.
#![tactic(auto)]

#[cfg(test)]
mod backups;
#[cfg(test)]
mod cards;
#[cfg(test)]
mod failing;
#[cfg(test)]
mod lines;
#[cfg(test)]
mod outputs;
#[cfg(test)]
mod pieces;
#[cfg(test)]
mod restores;
#[cfg(test)]
mod script;
#[cfg(test)]
mod stops;
#[cfg(test)]
mod twice;
#[cfg(test)]
mod versions;
#[cfg(test)]
mod wide;
