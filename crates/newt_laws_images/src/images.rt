//! Laws of whole images: the functions that compute agree with the relations that say what is
//! meant.
ghost use Rattle.std.specs.Prelude.{ℕ, ◌≡◌, List, IsTrue, Option, Some, None};
ghost use Rattle.std.specs.FinMap as map;
ghost use Rattle.newt_graph.specs.Graph.{RawGraph};
ghost use Rattle.newt_spec_image.specs.Objects.{Objects, Table, IsTableOf, AreObjectsOf};
ghost use Rattle.newt_spec_image.specs.Records.{version};
ghost use Rattle.newt_spec_image.specs.Pages.{Pages, pages};
ghost use Rattle.newt_spec_store.specs.ImageStore.{objects_of, store_of_image};
ghost use Rattle.newt_spec_store.specs.OfImage.{IsStoreOf, blocks_of};
ghost use Rattle.newt_spec_store.specs.Store.{Store};
ghost use Rattle.newt_spec_store.specs.StoreOf.{store_of};
ghost use Rattle.newt_spec_store.specs.Valid.{valid};

/// The objects that are made of pages are the objects of these pages.
pub fn objects_are_made_of_pages()
    ensures sound { (live : Pages) (objects : Objects) → objects_of live ≡ Some objects
        → AreObjectsOf live objects }
    ensures complete { (live : Pages) (objects : Objects) → AreObjectsOf live objects
        → objects_of live ≡ Some objects }
{}

/// The store that is made of an image is the image's store, and it is valid.
pub fn stores_are_made_of_images()
    ensures sound { (graph_of : List ℕ → Option RawGraph) (image : List ℕ) (s : Store)
        → store_of_image graph_of image ≡ Some s → IsStoreOf graph_of image s }
    ensures complete { (graph_of : List ℕ → Option RawGraph) (image : List ℕ) (s : Store)
        → IsStoreOf graph_of image s → store_of_image graph_of image ≡ Some s }
    ensures valid { (graph_of : List ℕ → Option RawGraph) (image : List ℕ) (s : Store)
        → store_of_image graph_of image ≡ Some s → IsTrue (valid (blocks_of image) s) }
{}

/// An image is read as its objects are read, and as nothing where it has no pages or its pages are
/// no objects.
pub fn images_are_read_by_their_objects()
    ensures objects { (graph_of : List ℕ → Option RawGraph) (image : List ℕ) (live : Pages)
        (objects : Objects) → pages image ≡ Some live → AreObjectsOf live objects
        → store_of_image graph_of image ≡ store_of graph_of (version image) (map.entries objects)
        (blocks_of image) }
    ensures no_pages { (graph_of : List ℕ → Option RawGraph) (image : List ℕ) → pages image ≡ None
        → store_of_image graph_of image ≡ None }
    ensures no_table { (graph_of : List ℕ → Option RawGraph) (image : List ℕ) (live : Pages)
        → pages image ≡ Some live → ((table : Table) → IsTableOf live table → ⊥)
        → store_of_image graph_of image ≡ None }
{}
