//! Laws of one store: what it is read back from.
ghost use Rattle.std.specs.Prelude.{ℕ, ◌≡◌, List, IsTrue, Option, Some};
ghost use Rattle.newt_graph.specs.Graph.{RawGraph};
ghost use Rattle.newt_spec_store.specs.Store.{Store, Entry};
ghost use Rattle.newt_spec_store.specs.Cost.{directory_bytes};
ghost use Rattle.newt_spec_store.specs.Image.{ObjectList, entry_bytes};
ghost use Rattle.newt_spec_store.specs.Reading.{whole, directory};
ghost use Rattle.newt_spec_store.specs.StoreOf.{entry_row, store_of};
ghost use Rattle.newt_spec_store.specs.OfImage.{IsStoreOf};
ghost use Rattle.newt_spec_store.specs.Laid.{AreInfosRead, bare, FitsRecord, row_of, Laid, IsLaid};
ghost use Rattle.newt_spec_store.specs.Valid.{well_formed, keeps_version, valid};

/// A directory and a record are read as what they were written from.
pub fn records_are_read_back()
    ensures directory { (graph_of : List ℕ → Option RawGraph) (s : Store)
        → AreInfosRead graph_of s → IsTrue (well_formed s)
        → whole (directory graph_of) (directory_bytes s) ≡ Some (bare s) }
    ensures entry { (soup : ℕ) (e : Entry) (ids : List ℕ) → FitsRecord soup e ids
        → entry_row (entry_bytes soup e ids) ≡ Some (row_of soup e ids) }
{}

/// A valid store that objects write down is what they are read as, and only valid stores are read.
pub fn stores_are_read_back()
    ensures back { (graph_of : List ℕ → Option RawGraph) (version : ℕ) (objects : ObjectList)
        (blocks : ℕ) (s : Store) (laid : List Laid) → IsTrue (keeps_version version s)
        → IsTrue (valid blocks s) → IsLaid graph_of objects s laid
        → store_of graph_of version objects blocks ≡ Some s }
    ensures at_most_one { (graph_of : List ℕ → Option RawGraph) (objects : ObjectList) (blocks : ℕ)
        (s t : Store) (laid others : List Laid) → IsTrue (valid blocks s) → IsTrue (valid blocks t)
        → IsLaid graph_of objects s laid → IsLaid graph_of objects t others → s ≡ t }
    ensures sound { (graph_of : List ℕ → Option RawGraph) (version : ℕ) (objects : ObjectList)
        (blocks : ℕ) (s : Store) → store_of graph_of version objects blocks ≡ Some s
        → IsTrue (valid blocks s) }
{}

/// The reading of an image gives at most one store.
pub fn images_hold_one_store()
    ensures { (graph_of : List ℕ → Option RawGraph) (image : List ℕ) (s t : Store)
        → IsStoreOf graph_of image s → IsStoreOf graph_of image t → s ≡ t }
{}
