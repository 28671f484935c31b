//! An entry in one range.
ghost use Rattle.std.specs.Prelude.{◌≡◌, OnOk, OnErr};
ghost use Rattle.newt_index_ranges.specs.Rows.{with_entry, has_paths, carries};

use newt_base::Uid;
use newt_graph::Graph;
use newt_index::Index;
use newt_keys::{IndexSpec, key_in};
use newt_path::Path;
use std::alloc::AllocError;

/// Adds an entry to a range: its id with the key of its graph. Where the graph has no key, nothing
/// changes. After an error nothing has changed.
pub fn add_entry(range: &mut Index, uid: Uid, graph: &Graph) -> Result<(), AllocError>
    ensures ok { OnOk result (range.new ≡ with_entry uid graph.now range.old) }
    ensures err { OnErr result (range.new ≡ range.old) }
{
    match key_in(range.allocator(), range.spec(), graph)? {
        Some(key) => range.add(key, uid),
        None => Ok(()),
    }
}

/// Whether the declaration of a range agrees with this one.
pub(crate) fn carries(range: &Index, spec: &IndexSpec) -> bool
    ensures { result ≡ carries spec.now range.now }
{
    match range.spec() {
        Some(declared) => spec.same(declared),
        None => false,
    }
}

/// Whether the declaration of a range has these paths.
pub(crate) fn has_paths(range: &Index, paths: &[Path]) -> bool
    ensures { result ≡ has_paths paths.now range.now }
{
    match range.spec() {
        Some(declared) => declared.has_paths(paths),
        None => paths.is_empty(),
    }
}
