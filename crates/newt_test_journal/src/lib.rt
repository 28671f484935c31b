//! The host in memory and the journal over it: tests alone. A table that was written by hand has
//! what a crash may leave of a small run over the host, and what the host counts. Of the journal
//! the tests show what no clause of `newt_journal` can:
//! - its calls succeed with ample memory;
//! - the definitions mean what they should: the table of votes, the least and the greatest unit;
//! - what a crash leaves within each device call opens again as before or as after, and can be
//!   mended, even where the mending is cut as well.
//!
//! Each of these tests is a table of rows, which `rows` plays.
#![tactic(auto)]

#[cfg(test)]
mod card;
#[cfg(test)]
mod counts;
#[cfg(test)]
mod crashes;
#[cfg(test)]
mod picks;
#[cfg(test)]
mod records;
#[cfg(test)]
mod row_fault;
#[cfg(test)]
mod rows;
#[cfg(test)]
mod steps;
#[cfg(test)]
mod tests;
#[cfg(test)]
mod texts;
