//! Laws of the two definitions, as contracts of functions that do nothing.
ghost use Rattle.std.specs.Prelude.{List, ℕ};
ghost use Rattle.newt_graph.specs.Graph.{RawGraph, IsGraph};
ghost use Rattle.newt_spec_nsof.specs.Text.{Spells, SpellsWide};
ghost use Rattle.newt_spec_nsof.specs.Flat.{flat};
ghost use Rattle.newt_spec_nsof.specs.Written.{nsof};

/// What is spelled is a graph in normal form, within all limits.
pub fn spelled_is_graph()
    ensures { (bytes : List ℕ) (g : RawGraph) → Spells bytes g → IsGraph g }
{}

/// What is spelled is spelled widely: the wide grammar has more flags, and nothing less.
pub fn spelled_is_spelled_widely()
    ensures { (bytes : List ℕ) (g : RawGraph) → Spells bytes g → SpellsWide bytes g }
{}

/// The flat text of a graph spells this very graph, with what it shares and with its cycles.
pub fn flat_is_spelled()
    ensures { (g : RawGraph) → IsGraph g → Spells (flat g) g }
{}

/// The written text of a graph spells it as well.
pub fn written_is_spelled()
    ensures { (g : RawGraph) → IsGraph g → Spells (nsof g) g }
{}
