//! Keys, indexes and cursors, with paths and folded texts alone, and with graphs that are read from
//! literals. Tests show what strings fold to, which entries have a key, which values of a query are
//! keys, in what order keys stand, and in what order an index is walked. Ranges of 200 entries,
//! added, changed and removed, are compared with the list sorted afresh, and so are the masks of
//! their tags. A desk of cursors has its 32 places, and cursors that stand on one entry.
//!
//! It stands on the crates from `newt_path` to `newt_index_ranges` and `newt_cursor` and on the
//! reader of literals. It has tests alone, many of them tables of `newt_test_tables`.
#![tactic(auto)]

#[cfg(test)]
mod calls;
#[cfg(test)]
mod check;
#[cfg(test)]
mod desk;
#[cfg(test)]
mod entries;
#[cfg(test)]
mod folded;
#[cfg(test)]
mod keys;
#[cfg(test)]
mod masks;
#[cfg(test)]
mod missing;
#[cfg(test)]
mod paths;
#[cfg(test)]
mod ranges;
#[cfg(test)]
mod sorted;
#[cfg(test)]
mod soups;
#[cfg(test)]
mod walks;
