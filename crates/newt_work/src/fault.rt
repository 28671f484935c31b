//! Why no further copy is opened.
ghost use Rattle.std.specs.Prelude.{◌≡◌};
ghost use Rattle.newt_work.specs.declared.fault.WorkFault.TheVariants as work_fault;

use std::alloc::AllocError;

/// Why no further copy is opened. The copies are not changed.
#[derive(Clone, Copy, PartialEq, Eq, Debug)]
pub enum WorkFault {
    /// There are sixteen copies.
    Limit,
    /// Memory was refused.
    Memory,
}

impl From<AllocError> for WorkFault {
    ghost from_gives = { λ _ fault. fault ≡ work_fault.Memory };

    fn from(_error: AllocError) -> WorkFault {
        WorkFault::Memory
    }
}
