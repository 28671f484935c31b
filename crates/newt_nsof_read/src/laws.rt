//! Laws of reading, as contracts of functions that do nothing.
ghost use Rattle.std.specs.Prelude.{◌≡◌, ◌≢◌, ◌++◌, ◌↔◌, List, ℕ, []};
ghost use Rattle.newt_graph.specs.Graph.{RawGraph, IsGraph};
ghost use Rattle.newt_spec_nsof.specs.Text.{AreBytes, Spells, SpellsWide};
ghost use Rattle.newt_spec_nsof.specs.Flat.{flat};
ghost use Rattle.newt_spec_nsof.specs.Written.{nsof};
ghost use Rattle.newt_nsof_read.specs.declared.fault.NsofFault.TheVariants.{Malformed, Compressed};
ghost use Rattle.newt_nsof_read.specs.declared.fault.NsofFault.TheVariants.{Memory};
ghost use Rattle.newt_nsof_read.specs.Reading.{decoded};

/// Bytes are read as a graph exactly where they spell it.
pub fn read_as_spelled()
    ensures { (bytes : List ℕ) (g : RawGraph) → AreBytes bytes
        → (decoded bytes ≡ Ok g) ↔ Spells bytes g }
{}

/// Bytes are malformed exactly where they spell no graph, not even widely.
pub fn malformed_is_unspelled()
    ensures { (bytes : List ℕ) → AreBytes bytes
        → (decoded bytes ≡ Err Malformed) ↔ ((g : RawGraph) → SpellsWide bytes g → ⊥) }
{}

/// Bytes are compressed exactly where they spell a graph widely, and none narrowly.
pub fn compressed_is_spelled_widely()
    ensures { (bytes : List ℕ) → AreBytes bytes
        → (decoded bytes ≡ Err Compressed) ↔ (((g : RawGraph) × SpellsWide bytes g) ×
        ((g : RawGraph) → Spells bytes g → ⊥)) }
{}

/// What bytes are read as does not depend on memory.
pub fn no_want_of_memory()
    ensures { (bytes : List ℕ) → decoded bytes ≢ Err Memory }
{}

/// A text spells at most one graph, also widely.
pub fn one_graph()
    ensures { (bytes : List ℕ) (g h : RawGraph) → SpellsWide bytes g → SpellsWide bytes h → g ≡ h }
{}

/// No text that spells a graph is the beginning of another one that does, also widely.
pub fn no_prefix()
    ensures { (bytes more : List ℕ) (g h : RawGraph) → SpellsWide bytes g
        → SpellsWide (bytes ++ more) h → more ≡ [] }
{}

/// The flat text of a graph is read as this very graph, with what it shares and with its cycles.
pub fn flat_is_read_again()
    ensures { (g : RawGraph) → IsGraph g → decoded (flat g) ≡ Ok g }
{}

/// So is the written text, with its small rectangles.
pub fn written_is_read_again()
    ensures { (g : RawGraph) → IsGraph g → decoded (nsof g) ≡ Ok g }
{}
