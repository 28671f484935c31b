//! Why a text is no path, and why nothing is put at one.
ghost use Rattle.std.specs.Prelude.{◌≡◌};
ghost use Rattle.newt_path.specs.Faults.{set_fault};
ghost use Rattle.newt_path.specs.declared.fault.PathFault.TheVariants as path_fault;

use newt_graph::GraphFault;
use std::alloc::{AllocError, AllocFailed};

/// Why bytes are not taken for a path.
#[derive(Clone, Copy, PartialEq, Eq, Debug)]
pub enum PathFault {
    /// The text is not 1 to 8 identifiers of at most 254 bytes each, with points between them.
    Path,
    /// Memory was refused.
    Memory,
}

impl From<AllocError> for PathFault {
    ghost from_gives = { λ _ fault. fault ≡ path_fault.Memory };

    fn from(_error: AllocError) -> PathFault {
        PathFault::Memory
    }
}

impl<T: Drop> From<AllocFailed<T>> for PathFault {
    ghost from_gives = { λ _ fault. fault ≡ path_fault.Memory };

    fn from(_error: AllocFailed<T>) -> PathFault {
        PathFault::Memory
    }
}

/// Why a value is not put at a path. The graph is not changed.
#[derive(Clone, Copy, PartialEq, Eq, Debug)]
pub enum SetFault {
    /// A slot before the last is missing, or a step is not taken from a frame.
    NoPath,
    /// The result would pass a limit of one graph.
    Limit,
    /// Memory was refused.
    Memory,
}

impl From<GraphFault> for SetFault {
    ghost from_gives = { λ error fault. fault ≡ set_fault error };

    fn from(error: GraphFault) -> SetFault {
        match error {
            GraphFault::Limit => SetFault::Limit,
            GraphFault::Memory => SetFault::Memory,
        }
    }
}
