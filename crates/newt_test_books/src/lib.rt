//! Runs over both books of pages, and over real files: tests alone. Each test of books plays one
//! table over pages in memory and over pages on the device. Each test of files works in the folder
//! that the tests run in, and removes its files.
//!
//! It stands on the loop over a script, on the engine over a store on either book, on
//! `newt_host_files` and on the top call. What it holds has no clause:
//! - a unit fills to its last page, and is used then;
//! - what a crash leaves of an add among many entries is found again;
//! - pages which were read are not read again while they are cached;
//! - 200 entries come back from their backup;
//! - what was written to files is read back.
#![tactic(auto)]

#[cfg(test)]
mod cache;
#[cfg(test)]
mod files;
#[cfg(test)]
mod filled;
#[cfg(test)]
mod full;
#[cfg(test)]
mod names;
#[cfg(test)]
mod restored;
#[cfg(test)]
mod runs;
#[cfg(test)]
mod sessions;
#[cfg(test)]
mod stops;
