//! What is kept of a unit.
ghost use Rattle.std.specs.Prelude.{◌≡◌, ◌≤◌, ◌+◌, ◌-◌, ◌<◌, ◌^◌, min, None, IfOk, vec_capacity};
ghost use Rattle.newt_host.specs.Outside.{Rose};

use std::alloc::{AllocError, Global};
use std::fs::File;

/// The most bytes of a file's name: the system opens none of a longer name.
pub(crate) const MOST_NAME: usize = 4095;

/// A unit: the name of its file, its whole blocks of 4,096 bytes, its counts, and whether its last
/// call failed. It has an open file while it is attached; without one it has no blocks. It counts
/// faults, bytes that it was to program and to fetch, blocks that it was to erase, and syncs. It
/// has room for any name, so that an attach takes no memory.
#[derive(Drop)]
pub(crate) struct Card {
    pub file: Option<File>,
    pub name: Vec<u8>,
    pub blocks: u32,
    pub faults: u64,
    pub programmed: u64,
    pub fetched: u64,
    pub erased: u64,
    pub synced: u64,
    pub broken: bool,
    ghost free: { file ≡ None → blocks ≡ 0 },
    ghost few: { blocks < 2 ^ 32 },
    ghost room: { 4095 ≤ vec_capacity name },
}

impl Card {
    /// A unit without a file.
    pub(crate) fn new(alloc: Global) -> Result<Self, AllocError>
        ensures { IfOk result (λ card. card.file ≡ None) }
    {
        Ok(Card {
            file: None,
            name: Vec::with_capacity(alloc, MOST_NAME)?,
            blocks: 0,
            faults: 0,
            programmed: 0,
            fetched: 0,
            erased: 0,
            synced: 0,
            broken: false,
        })
    }
}

/// Counts another fault. The count stays at its last value.
pub(crate) fn count(faults: &mut u64)
    ensures rose { Rose faults.old faults.new }
    ensures one { faults.new ≡ min (faults.old + 1) (2 ^ 64 - 1) }
    ensures later { faults.old ≤ faults.new }
{
    *faults = faults.saturating_add(1);
}
