//! The laws of the printed text.
ghost use Rattle.std.specs.Prelude.{◌<◌, ◌≤◌, All};
ghost use Rattle.std.specs.Str.{chars};
ghost use Rattle.newt_graph.specs.Graph.{RawGraph, IsGraph};
ghost use Rattle.newt_spec_literal.specs.Grammar.{Reads};
ghost use Rattle.newt_spec_literal.specs.Printed.{literal};

/// The printed text of a graph is a literal of this graph, so nothing is lost on the way out and
/// back.
pub fn printed_reads()
    ensures { (g : RawGraph) → IsGraph g → Reads (chars (literal g)) g }
{}

/// The printed text has characters from 32 to 126 alone: it is UTF-8 text, and one line.
pub fn printed_plain()
    ensures { (g : RawGraph) → IsGraph g → All (λ c. (32 ≤ c) × (c < 127)) (literal g) }
{}
