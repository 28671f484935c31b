//! The large binaries that paths reach.
ghost use Rattle.std.specs.Prelude.{◌≡◌};
ghost use Rattle.newt_spec_graph.specs.Larges.{large_at};

use crate::path::Path;
use crate::value::value_at;
use newt_graph::{Graph, Node, Ref};

/// The number of the large binary that a path of a graph reaches. None exactly where the path
/// reaches none. It takes no memory.
pub fn large_at(graph: &Graph, path: &Path) -> Option<u32>
    ensures { result ≡ large_at graph.now path.now }
{
    let Some(Ref::Node(node)) = value_at(graph, path) else {
        return None;
    };
    match graph.nodes().get(node as usize) {
        Some(Node::Large(_, _)) => Some(node),
        _ => None,
    }
}
