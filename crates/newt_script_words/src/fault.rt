//! Why words are not read.
ghost use Rattle.std.specs.Prelude.{◌≡◌};
ghost use Rattle.newt_script_words.specs.declared.fault.WordFault.TheVariants as word_fault;

use std::alloc::{AllocError, AllocFailed};

/// Why words are not read.
#[derive(Clone, Copy, PartialEq, Eq, Debug)]
pub enum WordFault {
    /// They do not have the form.
    Form,
    /// Memory was refused.
    Memory,
}

impl From<AllocError> for WordFault {
    ghost from_gives = { λ _ fault. fault ≡ word_fault.Memory };

    fn from(_error: AllocError) -> WordFault {
        WordFault::Memory
    }
}

impl<T: Drop> From<AllocFailed<T>> for WordFault {
    ghost from_gives = { λ _ fault. fault ≡ word_fault.Memory };

    fn from(_error: AllocFailed<T>) -> WordFault {
        WordFault::Memory
    }
}
