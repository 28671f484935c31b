//! Why a range is not read or replaced.
ghost use Rattle.std.specs.Prelude.{◌≡◌};

use newt_host::Failed;
use std::alloc::AllocError;

/// Why the bytes of a range were not read or replaced: it ends past the object's end, want of
/// memory, or a fault of the device.
#[derive(Clone, Copy, Debug, PartialEq, Eq)]
pub enum RangeFault {
    Range,
    Memory,
    Device,
}

impl From<AllocError> for RangeFault {
    ghost use Rattle.newt_vbo.specs.declared.fault.RangeFault.TheVariants.{Memory};

    ghost from_gives = { λ _ e. e ≡ Memory };

    fn from(_: AllocError) -> Self {
        RangeFault::Memory
    }
}

impl From<Failed> for RangeFault {
    ghost use Rattle.newt_vbo.specs.declared.fault.RangeFault.TheVariants.{Device};

    ghost from_gives = { λ _ e. e ≡ Device };

    fn from(_: Failed) -> Self {
        RangeFault::Device
    }
}
