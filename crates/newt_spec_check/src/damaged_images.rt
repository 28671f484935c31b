//! The law of damage: it is the contract of a function without a body.
ghost use Rattle.std.specs.Prelude.{ℕ, ◌≡◌, List, IsTrue, IsSome, Option, Some, None};
ghost use Rattle.newt_graph.specs.Graph.{RawGraph};
ghost use Rattle.newt_spec_image.specs.Records.{has_banks};
ghost use Rattle.newt_spec_nsof.specs.Text.{AreBytes};
ghost use Rattle.newt_spec_check.specs.Damage.{damage};
ghost use Rattle.newt_spec_store.specs.ImageStore.{store_of_image};
ghost use Rattle.newt_spec_store.specs.Lies.{ReadsGraphs};
ghost use Rattle.newt_spec_store.specs.Store.{Store};

/// An image of bytes, of 13 to 4,099 blocks, has no damage exactly where it is read as a store.
pub fn damaged_images_are_no_stores()
    ensures sound { (graph_of : List ℕ → Option RawGraph) (image : List ℕ) (s : Store)
        → ReadsGraphs graph_of → AreBytes image → store_of_image graph_of image ≡ Some s
        → damage graph_of image ≡ None }
    ensures complete { (graph_of : List ℕ → Option RawGraph) (image : List ℕ)
        → ReadsGraphs graph_of → AreBytes image → IsTrue (has_banks image)
        → damage graph_of image ≡ None → IsSome (store_of_image graph_of image) }
{}
