//! What is answered for bytes.
use crate::directories::{directory, soup};
use crate::entries::entry;
use newt_test_tables::{Asks, bytes_of};
use std::alloc::Global;
use std::process::Abort;
use std::test::Fail;

/// Asserts that what is wanted holds.
pub(crate) fn check(rt: &impl Abort, holds: bool, what: &str) {
    assert!(rt; holds, "{what}");
}

/// What bytes are read as. They stand in words: `'foo` for its letters, and others as hexadecimal
/// digits.
#[derive(Clone, Copy)]
pub(crate) enum Record {
    /// A directory.
    Directory,
    /// The directory of the store `S` of signature 1 with the soup `A` alone, after that soup's
    /// next entry id: its indexes, tags and info frame.
    Soup,
    /// The same in version 1.
    OldSoup,
    /// An entry.
    Entry,
}

impl Asks for Record {
    fn answer(&self, alloc: Global, text: &str) -> Result<String, Fail> {
        let bytes = bytes_of(alloc, text)?;
        match self {
            Record::Directory => directory(alloc, &bytes, 2),
            Record::Soup => soup(alloc, &bytes, 2),
            Record::OldSoup => soup(alloc, &bytes, 1),
            Record::Entry => entry(alloc, &bytes),
        }
    }
}
