//! Why a graph is no query, and why its keys are not those of an index.
ghost use Rattle.std.specs.Prelude.{◌≡◌};
ghost use Rattle.newt_query.specs.declared.fault.ShapeFault.TheVariants as shape_fault;
ghost use Rattle.newt_query.specs.declared.fault.BindFault.TheVariants as bind_fault;

use newt_tags::TagFault;
use std::alloc::AllocError;

/// Why a graph is not taken for a query.
#[derive(Clone, Copy, PartialEq, Eq, Debug)]
pub enum ShapeFault {
    /// The graph does not have the form of a query.
    Spec,
    /// Memory was refused.
    Memory,
}

impl From<AllocError> for ShapeFault {
    ghost from_gives = { λ _ fault. fault ≡ shape_fault.Memory };

    fn from(_error: AllocError) -> ShapeFault {
        ShapeFault::Memory
    }
}

/// Why a query is not bound to an index.
#[derive(Clone, Copy, PartialEq, Eq, Debug)]
pub enum BindFault {
    /// A key is not of the index's types.
    KeyType,
    /// Memory was refused.
    Memory,
}

impl From<AllocError> for BindFault {
    ghost from_gives = { λ _ fault. fault ≡ bind_fault.Memory };

    fn from(_error: AllocError) -> BindFault {
        BindFault::Memory
    }
}
