//! What a change makes of a store, before it is written.
use newt_base::{Sig, Uid};
use newt_objects_commit::NewEntry;
use newt_soupdir::Directory;

/// Which entries go.
#[derive(Clone, Copy, Debug, PartialEq, Eq)]
pub(crate) enum Gone {
    Nothing,
    OneEntry(Sig, Uid),
    AllOf(Sig),
}

/// What a change makes of a store: its new directory, none where it stays, an entry that is
/// written, entries that go, and the change's answer.
#[derive(Drop)]
pub(crate) struct Next {
    pub(crate) directory: Option<Directory>,
    pub(crate) entry: Option<NewEntry>,
    pub(crate) gone: Gone,
    pub(crate) answer: u32,
}
