//! Graphs whose root is a frame.
ghost use Rattle.std.specs.Prelude.{◌≡◌};
ghost use Rattle.newt_graph.specs.Graph.{IsGraph};
ghost use Rattle.newt_spec_graph.specs.Graph as words;

use newt_graph::{Graph, Node, Ref};

/// Whether the root of a graph is a frame.
pub fn is_frame(graph: &Graph) -> bool
    ensures frame { result ≡ words.is_frame (words.object graph.now.nodes graph.now.root) }
    ensures graph { IsGraph graph.now }
{
    match graph.root() {
        Ref::Node(n) => matches!(graph.nodes().get(n as usize), Some(Node::Frame(_, _))),
        Ref::Imm(_) => false,
    }
}
