//! Laws of literals.
ghost use Rattle.std.specs.Prelude.{◌≡◌, ℕ, List, Ok, Err};
ghost use Rattle.newt_graph.specs.Graph.{RawGraph};
ghost use Rattle.newt_spec_literal.specs.Grammar.{Reads};
ghost use Rattle.newt_lit_read.specs.declared.fault.LitFault.TheVariants.{Literal};
ghost use Rattle.newt_lit_read.specs.Literal.{literal_read};

/// A text is read as the graph that it is a literal of.
pub fn reads_what_is_written()
    ensures read { (text : List ℕ) (g : RawGraph) → Reads text g → literal_read text ≡ Ok g }
    ensures written { (text : List ℕ) (g : RawGraph) → literal_read text ≡ Ok g → Reads text g }
{}

/// A text is refused exactly where it is a literal of no graph.
pub fn refuses_the_rest()
    ensures refused { (text : List ℕ) → ((g : RawGraph) → Reads text g → ⊥)
        → literal_read text ≡ Err Literal }
    ensures nothing { (text : List ℕ) → literal_read text ≡ Err Literal → (g : RawGraph)
        → Reads text g → ⊥ }
{}

/// A text is a literal of one graph at most.
pub fn one_reading()
    ensures { (text : List ℕ) (g h : RawGraph) → Reads text g → Reads text h → g ≡ h }
{}
