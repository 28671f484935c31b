//! Why nothing further is watched.
ghost use Rattle.std.specs.Prelude.{◌≡◌};
ghost use Rattle.newt_notify.specs.declared.fault.WatchFault.TheVariants as watch_fault;

use std::alloc::AllocError;

/// Why nothing further is watched. The watches are not changed.
#[derive(Clone, Copy, PartialEq, Eq, Debug)]
pub enum WatchFault {
    /// There are eight watches.
    Limit,
    /// Memory was refused.
    Memory,
}

impl From<AllocError> for WatchFault {
    ghost from_gives = { λ _ fault. fault ≡ watch_fault.Memory };

    fn from(_error: AllocError) -> WatchFault {
        WatchFault::Memory
    }
}
