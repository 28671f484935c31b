//! What a mask means.
ghost use Rattle.std.specs.Prelude.{◌≡◌, Some};
ghost use Rattle.newt_graph.specs.Graph.{RawGraph};
ghost use Rattle.newt_spec_store.specs.Store.{TagTable};
ghost use Rattle.newt_spec_query.specs.Tags.{tags_of};
ghost use Rattle.newt_tags.specs.Masks.{mask_of, tags_by};

/// The tags that an entry's mask means are the entry's tags.
pub fn a_mask_means_the_tags()
    ensures { (table : TagTable) (graph : RawGraph)
        → tags_by (Some table) (mask_of table graph) ≡ tags_of (Some table) graph }
{}
