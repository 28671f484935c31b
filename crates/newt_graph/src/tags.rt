//! Whether no tag of a frame comes twice.
ghost use Rattle.std.specs.Prelude.{◌≡◌, IfOk};
ghost use Rattle.newt_graph.specs.Graph.{all_distinct};

use std::alloc::{AllocError, Global};
use std::collections::HashSet;

/// Whether no two tags are the same.
pub fn are_distinct(alloc: Global, tags: &[u32]) -> Result<bool, AllocError>
    ensures { IfOk result (λ yes. yes ≡ all_distinct tags.now) }
{
    let set: HashSet<u32> = tags.iter().copied().collect(alloc)?;
    Ok(set.len() == tags.len())
}
