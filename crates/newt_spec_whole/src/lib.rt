//! Definitions of the whole that a script sees: the world of plain stores with its cursors, the
//! watches beside it, and the working copies.
//!
//! It stands on the definitions of the world, which know nothing of the other two, and on those of
//! `newt_notify` and `newt_work`. It has no code.
#![tactic(auto)]
