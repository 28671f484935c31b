//! The keys of graphs by declarations that may be absent.
ghost use Rattle.std.specs.Prelude.{◌≡◌, [], IfOk, IfSome, option_map, unwrap_or};
ghost use Rattle.newt_keys.specs.KeyForm.{IsKeyOf};
ghost use Rattle.newt_spec_store.specs.Keys as keys;

use crate::read::key_of;
use crate::types::{IndexSpec, Key};
use newt_graph::Graph;
use std::alloc::{AllocError, Global};

/// The key that a graph has by a declaration; without a declaration the empty key. None where the
/// first part is missing: the graph's entry is then in no such index.
pub fn key_in(
    alloc: Global,
    spec: Option<&IndexSpec>,
    graph: &Graph,
) -> Result<Option<Key>, AllocError>
    ensures value { IfOk result (λ found. found
        ≡ keys.key graph.now (unwrap_or (option_map (λ s. s.now) spec.entry) [])) }
    ensures of_spec { IfOk result
        (λ found. IfSome found (IsKeyOf (unwrap_or (option_map (λ s. s.now) spec.entry) []))) }
{
    match spec {
        Some(spec) => key_of(alloc, graph, spec),
        None => Ok(Some(Key::empty(alloc))),
    }
}
