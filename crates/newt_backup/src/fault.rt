//! Why a graph is no backup.
ghost use Rattle.std.specs.Prelude.{◌≡◌};
ghost use Rattle.newt_backup.specs.declared.fault.BackupFault.TheVariants.{Memory};

use std::alloc::{AllocError, AllocFailed};

/// Why a graph was not read as a backup.
#[derive(Clone, Copy, Debug, PartialEq, Eq)]
pub enum BackupFault {
    /// No store has this backup.
    Bad,
    /// Memory was refused.
    Memory,
}

impl From<AllocError> for BackupFault {
    ghost from_gives = { λ _ e. e ≡ Memory };

    fn from(_e: AllocError) -> BackupFault {
        BackupFault::Memory
    }
}

impl<T: Drop> From<AllocFailed<T>> for BackupFault {
    ghost from_gives = { λ _ e. e ≡ Memory };

    fn from(_e: AllocFailed<T>) -> BackupFault {
        BackupFault::Memory
    }
}
