//! Laws of how a world answers each command, for the program that answers it from stores on
//! devices.
//!
//! It stands on the crates of definitions and on the laws of the plain world. A host and a few
//! marks determine a world (`specs/WorldAt`), and `most_programmed` is how much a command programs
//! at most (`specs/Bounds`). Its promise: where a call on one store changes that store as a command
//! does, the world changes and answers as the table of commands says. It has no functions:
//! `proofs/` is what others cite. `proofs/Tests` says what is left of the refusals of a change
//! where the soup and the entry that it names are there.
#![tactic(auto)]
