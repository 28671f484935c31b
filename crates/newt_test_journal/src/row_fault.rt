//! Why a table is not played to its end.
use newt_host::Failed;
use newt_journal::JournalFault;
use std::alloc::{AllocError, AllocFailed};
use std::num::ParseIntError;

/// Why a row is not played: memory was refused, the device failed, a text is no row or does not fit
/// the card, or something else was found than is wanted. Or a crash within the call of a number
/// left other records.
#[derive(Clone, Copy, Debug)]
pub(crate) enum RowFault {
    Memory,
    Device,
    Row,
    Other,
    Crash(u64),
}

impl From<AllocError> for RowFault {
    fn from(_: AllocError) -> Self {
        RowFault::Memory
    }
}

impl<T: Drop> From<AllocFailed<T>> for RowFault {
    fn from(_: AllocFailed<T>) -> Self {
        RowFault::Memory
    }
}

impl From<Failed> for RowFault {
    fn from(_: Failed) -> Self {
        RowFault::Device
    }
}

impl From<ParseIntError> for RowFault {
    fn from(_: ParseIntError) -> Self {
        RowFault::Row
    }
}
