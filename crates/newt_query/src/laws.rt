//! What it means to pass by a key, a mask and a graph.
ghost use Rattle.std.specs.Prelude.{◌≡◌, ◌&&◌, ℕ, true, Option, IsSome};
ghost use Rattle.newt_graph.specs.Graph.{RawGraph};
ghost use Rattle.newt_spec_store.specs.Keys.{Key};
ghost use Rattle.newt_spec_store.specs.Store.{TagTable};
ghost use Rattle.newt_spec_query.specs.Hits.{passes};
ghost use Rattle.newt_spec_query.specs.Spec.{Spec};
ghost use Rattle.newt_query.specs.Filter.{AreOf, asks_texts, in_range, passes_by};

/// An entry passes by its mask, and by its graph where words or texts are asked for, exactly where
/// its key is in the range and its graph passes.
pub fn what_is_at_hand_decides()
    ensures { (q : Spec) (k : Key) (table : Option TagTable) (mask : ℕ) (graph : Option RawGraph)
        → (asks_texts q ≡ true → IsSome graph)
        → (g : RawGraph) → AreOf table mask graph g → passes_by q k table mask graph
        ≡ (in_range q k && passes q table g) }
{}
