//! Why bytes are no entry record.
ghost use Rattle.std.specs.Prelude.{◌≡◌};
ghost use Rattle.newt_entries.specs.declared.fault.EntryFault.TheVariants.{Memory};

use std::alloc::AllocError;

/// Why bytes were not read as an entry record.
#[derive(Clone, Copy, Debug, PartialEq, Eq)]
pub enum EntryFault {
    /// The bytes are no record.
    Bad,
    /// Memory was refused.
    Memory,
}

impl From<AllocError> for EntryFault {
    ghost from_gives = { λ _ e. e ≡ Memory };

    fn from(_e: AllocError) -> EntryFault {
        EntryFault::Memory
    }
}
