//! Laws of graphs.
ghost use Rattle.std.specs.Prelude.{◌≡◌, IsTrue, Some};
ghost use Rattle.newt_graph.specs.Graph.{RawGraph, IsGraph};
ghost use Rattle.newt_graph.specs.Meeting.{normal_form};
ghost use Rattle.newt_spec_graph.specs.Limits.{within_limits};

/// A graph as the readers give it is its own normal form, and within the limits of one graph.
pub fn graphs_are_within_limits()
    ensures own { (g : RawGraph) → IsGraph g → normal_form g ≡ Some g }
    ensures within { (g : RawGraph) → IsGraph g → IsTrue (within_limits g) }
{}
