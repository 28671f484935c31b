//! Laws of objects that are not a store.
ghost use Rattle.std.specs.Prelude.{ℕ, ◌≡◌, ◌≢◌, ◌⊎◌, ◌%◌, ◌<◌, List, length, sum_by, Option, Some};
ghost use Rattle.std.specs.Prelude.{None};
ghost use Rattle.std.specs.FinMap as map;
ghost use Rattle.newt_graph.specs.Graph.{RawGraph};
ghost use Rattle.newt_spec_image.specs.Objects.{Objects, pages_for};
ghost use Rattle.newt_spec_image.specs.Pages.{cap};
ghost use Rattle.newt_spec_nsof.specs.Text.{AreBytes};
ghost use Rattle.newt_spec_graph.specs.Lists.{Pairs, Among};
ghost use Rattle.newt_laws_images.specs.Found.{HasGiven, ids_named};
ghost use Rattle.newt_spec_store.specs.Store.{Entry, Store};
ghost use Rattle.newt_spec_store.specs.Laid.{bare};
ghost use Rattle.newt_spec_store.specs.Lies.{IsIn, ReadsGraphs, directory_read, entry_read};
ghost use Rattle.newt_spec_store.specs.StoreOf.{store_of};

/// A store that is read has its directory in object 0, and an entry's record in each object with an
/// odd id. Each other object is named by one of these.
pub fn read_stores_have_their_parts()
    ensures directory { (graph_of : List ℕ → Option RawGraph) (version : ℕ) (objects : Objects)
        (blocks : ℕ) (s : Store) → store_of graph_of version (map.entries objects) blocks ≡ Some s
        → (bytes : List ℕ) × (map.get objects 0 ≡ Some bytes)
        × (directory_read graph_of version bytes ≡ Some (bare s)) }
    ensures record { (graph_of : List ℕ → Option RawGraph) (version : ℕ) (objects : Objects)
        (blocks : ℕ) (s : Store) → store_of graph_of version (map.entries objects) blocks ≡ Some s
        → (id : ℕ) (bytes : List ℕ) → map.get objects id ≡ Some bytes → id % 2 ≡ 1 → (sig : ℕ)
        × (e : Entry) × (entry_read graph_of objects bytes ≡ Some (sig, e)) × IsIn s sig e
        × HasGiven (bare s) sig e.uid }
    ensures large { (graph_of : List ℕ → Option RawGraph) (version : ℕ) (objects : Objects)
        (blocks : ℕ) (s : Store) → store_of graph_of version (map.entries objects) blocks ≡ Some s
        → (id : ℕ) (bytes : List ℕ) → map.get objects id ≡ Some bytes → id ≢ 0 → id % 2 ≡ 0
        → (r : ℕ) × (names : List ℕ) × (map.get objects r ≡ Some names) × (r % 2 ≡ 1)
        × Among (ids_named names) id }
{}

/// Where the directory is not there or not readable, nothing is read.
pub fn bad_directories_are_refused()
    ensures missing { (graph_of : List ℕ → Option RawGraph) (version : ℕ) (objects : Objects)
        (blocks : ℕ) → map.get objects 0 ≡ None → (s : Store)
        → store_of graph_of version (map.entries objects) blocks ≡ Some s → ⊥ }
    ensures unreadable { (graph_of : List ℕ → Option RawGraph) (version : ℕ) (objects : Objects)
        (blocks : ℕ) (bytes : List ℕ) → map.get objects 0 ≡ Some bytes
        → directory_read graph_of version bytes ≡ None → (s : Store)
        → store_of graph_of version (map.entries objects) blocks ≡ Some s → ⊥ }
{}

/// Where an object with an odd id is not a record, or is the record of an entry that is not given
/// or stands twice, nothing is read.
pub fn bad_records_are_refused()
    ensures unreadable { (graph_of : List ℕ → Option RawGraph) (version : ℕ) (objects : Objects)
        (blocks id : ℕ) (bytes : List ℕ) → map.get objects id ≡ Some bytes → id % 2 ≡ 1
        → entry_read graph_of objects bytes ≡ None → (s : Store)
        → store_of graph_of version (map.entries objects) blocks ≡ Some s → ⊥ }
    ensures not_given { (graph_of : List ℕ → Option RawGraph) (version : ℕ) (objects : Objects)
        (blocks id : ℕ) (zero bytes : List ℕ) (d : Store) (sig : ℕ) (e : Entry) → map.get objects 0
        ≡ Some zero → directory_read graph_of version zero ≡ Some d → map.get objects id
        ≡ Some bytes → id % 2 ≡ 1 → entry_read graph_of objects bytes ≡ Some (sig, e)
        → (HasGiven d sig e.uid → ⊥)
        → (s : Store) → store_of graph_of version (map.entries objects) blocks ≡ Some s → ⊥ }
    ensures twice { (graph_of : List ℕ → Option RawGraph) (version : ℕ) (objects : Objects)
        (blocks id other : ℕ) (bytes others : List ℕ) (sig : ℕ) (e k : Entry) → map.get objects id
        ≡ Some bytes → map.get objects other ≡ Some others → id % 2 ≡ 1 → other % 2 ≡ 1 → id ≢ other
        → entry_read graph_of objects bytes ≡ Some (sig, e) → entry_read graph_of objects others
        ≡ Some (sig, k) → e.uid ≡ k.uid
        → (s : Store) → store_of graph_of version (map.entries objects) blocks ≡ Some s → ⊥ }
{}

/// Where an object with an even id above 0 is not named, or an object is named twice, nothing is
/// read.
pub fn bad_names_are_refused()
    ensures not_named { (graph_of : List ℕ → Option RawGraph) (version : ℕ) (objects : Objects)
        (blocks id : ℕ) (bytes : List ℕ) → map.get objects id ≡ Some bytes → id ≢ 0 → id % 2 ≡ 0
        → ((r : ℕ) (names : List ℕ) → map.get objects r ≡ Some names → r % 2 ≡ 1
        → Among (ids_named names) id → ⊥)
        → (s : Store) → store_of graph_of version (map.entries objects) blocks ≡ Some s → ⊥ }
    ensures by_two { (graph_of : List ℕ → Option RawGraph) (version : ℕ) (objects : Objects)
        (blocks id other o : ℕ) (bytes others : List ℕ)
        → map.get objects id ≡ Some bytes → map.get objects other ≡ Some others → id % 2 ≡ 1
        → other % 2 ≡ 1 → id ≢ other → Among (ids_named bytes) o → Among (ids_named others) o
        → (s : Store) → store_of graph_of version (map.entries objects) blocks ≡ Some s → ⊥ }
    ensures by_one { (graph_of : List ℕ → Option RawGraph) (version : ℕ) (objects : Objects)
        (blocks id : ℕ) (bytes : List ℕ) → map.get objects id ≡ Some bytes → id % 2 ≡ 1
        → (Pairs (λ a b. a ≢ b) (ids_named bytes) → ⊥) → (s : Store)
        → store_of graph_of version (map.entries objects) blocks ≡ Some s → ⊥ }
{}

/// Where the objects take more pages than a unit of so many blocks may have, nothing is read.
pub fn large_stores_are_refused()
    ensures { (graph_of : List ℕ → Option RawGraph) (version : ℕ) (objects : Objects) (blocks : ℕ)
        → ReadsGraphs graph_of → ((id : ℕ) (bytes : List ℕ) → map.get objects id ≡ Some bytes →
        (id ≡ 0) ⊎ (id % 2 ≡ 1) → AreBytes bytes)
        → cap blocks < sum_by (λ o. pages_for (length o.1)) (map.entries objects)
        → (s : Store) → store_of graph_of version (map.entries objects) blocks ≡ Some s → ⊥ }
{}
