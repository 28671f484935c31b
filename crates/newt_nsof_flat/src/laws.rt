//! The law of the graphs that bytes spell.
ghost use Rattle.newt_spec_store.specs.Lies.{ReadsGraphs};
ghost use Rattle.newt_nsof_flat.specs.Stream.{stream_graph};

/// Flat texts are read as the graphs that they are written of, and only graphs in normal form
/// are read.
pub fn flat_texts_are_read()
    ensures { ReadsGraphs stream_graph }
{}
