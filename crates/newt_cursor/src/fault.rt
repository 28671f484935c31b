//! Why no further cursor is opened.
ghost use Rattle.std.specs.Prelude.{◌≡◌};
ghost use Rattle.newt_cursor.specs.declared.fault.DeskFault.TheVariants as desk_fault;

use std::alloc::{AllocError, AllocFailed};

/// Why no further cursor is opened. The desk is not changed.
#[derive(Clone, Copy, PartialEq, Eq, Debug)]
pub enum DeskFault {
    /// 32 cursors are open.
    Limit,
    /// Memory was refused.
    Memory,
}

impl From<AllocError> for DeskFault {
    ghost from_gives = { λ _ fault. fault ≡ desk_fault.Memory };

    fn from(_error: AllocError) -> DeskFault {
        DeskFault::Memory
    }
}

impl<T: Drop> From<AllocFailed<T>> for DeskFault {
    ghost from_gives = { λ _ fault. fault ≡ desk_fault.Memory };

    fn from(_error: AllocFailed<T>) -> DeskFault {
        DeskFault::Memory
    }
}
