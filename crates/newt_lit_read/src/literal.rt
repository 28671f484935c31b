//! Whole literals.
ghost use Rattle.std.specs.Prelude.{◌≡◌, ◌≢◌, IfOk, Err};
ghost use Rattle.std.specs.Str.{chars};
ghost use Rattle.newt_graph.specs.Graph.{RawGraph};
ghost use Rattle.newt_spec_literal.specs.Grammar.{Reads};
ghost use Rattle.newt_lit_read.specs.Answers.{Gives};
ghost use Rattle.newt_lit_read.specs.Literal.{graph_read, literal_read};

use crate::fault::LitFault;
use crate::values::draft;
use newt_graph::Graph;
use std::alloc::{AllocError, Global};

fn characters(alloc: Global, text: &str) -> Result<Vec<char>, AllocError>
    ensures { IfOk result (λ characters. characters.items ≡ chars text.now) }
{
    text.chars().collect(alloc)
}

/// The graph of what the characters write down.
fn read(alloc: Global, text: &[char]) -> Result<Graph, LitFault>
    ensures { Gives (λ g. g) result (graph_read text.now) }
{
    let (root, building) = draft(alloc, text)?;
    building.finish(root)
}

/// The graph that a text is a literal of. Blanks may stand around it.
///
/// `Literal` comes exactly where there is no such graph: the text is none of the forms, or its
/// graph would pass a limit of graphs. Such limits are 200 containers open within one another and
/// 65,535 nodes. `Memory` may come in place of any answer.
pub fn read_literal(alloc: Global, text: &str) -> Result<Graph, LitFault>
    // What is read is written so.
    ensures found { IfOk result (λ g. Reads (chars text.now) g) }
    // A text is refused only where it is a literal of no graph.
    ensures literal { result ≡ Err LitFault.Literal → (g : RawGraph) → Reads (chars text.now) g
        → ⊥ }
    // The same as a function of the text.
    ensures reading { result ≢ Err LitFault.Memory → result ≡ literal_read (chars text.now) }
{
    let characters = characters(alloc, text)?;
    read(alloc, &characters)
}
