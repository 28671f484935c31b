//! Entries with all their bytes.
ghost use Rattle.std.specs.Prelude.{◌≡◌, IfOk};

use newt_base::{Sig, Uid};
use newt_graph::Graph;
use std::alloc::AllocError;

/// An entry whole: the signature of its soup, its id, the minute of its last change, and its graph
/// with the bytes of its large binaries.
#[derive(Drop)]
pub struct FullEntry {
    pub soup: Sig,
    pub uid: Uid,
    pub time: u32,
    pub graph: Graph,
}

impl FullEntry {
    /// An equal entry.
    pub fn copy(&self) -> Result<FullEntry, AllocError>
        ensures { IfOk result (λ copy. copy ≡ self.now) }
    {
        Ok(FullEntry {
            soup: self.soup,
            uid: self.uid,
            time: self.time,
            graph: self.graph.copy()?,
        })
    }
}
