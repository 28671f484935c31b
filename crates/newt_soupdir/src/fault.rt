//! Why bytes are no directory.
ghost use Rattle.std.specs.Prelude.{◌≡◌};
ghost use Rattle.newt_soupdir.specs.declared.fault.DirFault.TheVariants.{Memory};

use std::alloc::{AllocError, AllocFailed};

/// Why bytes were not read as a directory.
#[derive(Clone, Copy, Debug, PartialEq, Eq)]
pub enum DirFault {
    /// The bytes are no directory.
    Bad,
    /// Memory was refused.
    Memory,
}

impl From<AllocError> for DirFault {
    ghost from_gives = { λ _ e. e ≡ Memory };

    fn from(_e: AllocError) -> DirFault {
        DirFault::Memory
    }
}

impl<T: Drop> From<AllocFailed<T>> for DirFault {
    ghost from_gives = { λ _ e. e ≡ Memory };

    fn from(_e: AllocFailed<T>) -> DirFault {
        DirFault::Memory
    }
}
