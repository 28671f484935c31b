//! Stores over a host in memory: tests alone. They show what no clause of `newt_store` can:
//! - its calls succeed with ample memory;
//! - a fresh store has the bytes of the format, and a unit takes as many entries as it should;
//! - an image that is spelt by hand opens as the store that it writes down, and also with any of
//!   its bytes changed opens as it should;
//! - what a crash leaves within each device call of a change opens as the store before it or after
//!   it;
//! - a store of 200 entries, indexed, changed and opened again, has the lists that were sorted
//!   outside the program.
//!
//! It stands on `newt_store` and `newt_store_indexed` over the plain book of pages.
#![tactic(auto)]

#[cfg(test)]
mod asked;
#[cfg(test)]
mod card;
#[cfg(test)]
mod changes;
#[cfg(test)]
mod contents;
#[cfg(test)]
mod crash_tests;
#[cfg(test)]
mod crashes;
#[cfg(test)]
mod declare_tests;
#[cfg(test)]
mod digits;
#[cfg(test)]
mod entries;
#[cfg(test)]
mod flips;
#[cfg(test)]
mod image_tests;
#[cfg(test)]
mod indexed;
#[cfg(test)]
mod indexed_tables;
#[cfg(test)]
mod made;
#[cfg(test)]
mod masks;
#[cfg(test)]
mod modes;
#[cfg(test)]
mod replace_tests;
#[cfg(test)]
mod small;
#[cfg(test)]
mod sorted_tests;
#[cfg(test)]
mod tables;
#[cfg(test)]
mod tests;
#[cfg(test)]
mod walks;
