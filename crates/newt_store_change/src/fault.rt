//! Why a change was not made.
use newt_base::Refusal;
use newt_pagebook::Stop;
use newt_path::SetFault;
use std::alloc::{AllocError, AllocFailed};

/// Why a change was not made: it is refused, and the store is as it was; or the run ends, and the
/// store is spent.
#[derive(Clone, Copy, Debug, PartialEq, Eq)]
pub enum StoreFault {
    Refused(Refusal),
    Stop(Stop),
}

impl From<Stop> for StoreFault {
    ghost use Rattle.std.specs.Prelude.{◌≡◌};
    ghost use Rattle.newt_store_change.specs.declared.fault.StoreFault.TheVariants as fault;

    ghost from_gives = { λ stop f. f ≡ fault.Stop stop };

    fn from(stop: Stop) -> Self {
        StoreFault::Stop(stop)
    }
}

impl From<AllocError> for StoreFault {
    ghost use Rattle.std.specs.Prelude.{◌≡◌};
    ghost use Rattle.newt_pagebook.specs.declared.book.Stop.TheVariants.{Memory};
    ghost use Rattle.newt_store_change.specs.declared.fault.StoreFault.TheVariants as fault;

    ghost from_gives = { λ _ f. f ≡ fault.Stop Memory };

    fn from(_: AllocError) -> Self {
        StoreFault::Stop(Stop::Memory)
    }
}

impl<T: Drop> From<AllocFailed<T>> for StoreFault {
    ghost use Rattle.std.specs.Prelude.{◌≡◌};
    ghost use Rattle.newt_pagebook.specs.declared.book.Stop.TheVariants.{Memory};
    ghost use Rattle.newt_store_change.specs.declared.fault.StoreFault.TheVariants as fault;

    ghost from_gives = { λ _ f. f ≡ fault.Stop Memory };

    fn from(_: AllocFailed<T>) -> Self {
        StoreFault::Stop(Stop::Memory)
    }
}

impl From<SetFault> for StoreFault {
    ghost use Rattle.std.specs.Prelude.{◌≡◌};
    ghost use Rattle.newt_store_change.specs.Faults.{set_fault};

    ghost from_gives = { λ error fault. fault ≡ set_fault error };

    fn from(error: SetFault) -> Self {
        match error {
            SetFault::NoPath => StoreFault::Refused(Refusal::Path),
            SetFault::Limit => StoreFault::Refused(Refusal::Limit),
            SetFault::Memory => StoreFault::Stop(Stop::Memory),
        }
    }
}
