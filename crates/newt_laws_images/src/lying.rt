//! Laws of stores that lie in objects.
ghost use Rattle.std.specs.Prelude.{ℕ, ◌≡◌, ◌⊎◌, ◌%◌, List, IsTrue, length, sum_by, fold, zip};
ghost use Rattle.std.specs.Prelude.{map as list_map, Option, Some, None};
ghost use Rattle.std.specs.FinMap as map;
ghost use Rattle.newt_graph.specs.Graph.{RawGraph, IsGraph};
ghost use Rattle.newt_spec_image.specs.Objects.{Objects, pages_for};
ghost use Rattle.newt_spec_nsof.specs.Text.{AreBytes};
ghost use Rattle.newt_spec_nsof.specs.Lengths.{skeleton};
ghost use Rattle.newt_spec_graph.specs.Graph.{every};
ghost use Rattle.newt_laws_images.specs.Found.{IsFound};
ghost use Rattle.newt_spec_store.specs.Store.{Store};
ghost use Rattle.newt_spec_store.specs.Cost.{cost};
ghost use Rattle.newt_spec_store.specs.Laid.{bare};
ghost use Rattle.newt_spec_store.specs.Lies.{LiesIn, Places, ReadsGraphs, entry_read, record_read};
ghost use Rattle.newt_spec_store.specs.StoreOf.{EntryRow, large_object, fill, store_of};
ghost use Rattle.newt_spec_store.specs.Valid.{well_formed, keeps_version, valid};

/// A store that lies in objects is what they are read as, and it costs the pages that they take. A
/// store that is read lies in the objects.
pub fn lying_stores_are_read()
    ensures back { (graph_of : List ℕ → Option RawGraph) (version : ℕ) (objects : Objects)
        (place : Places) (blocks : ℕ) (s : Store) → ReadsGraphs graph_of → LiesIn objects place s
        → IsTrue (keeps_version version s) → IsTrue (valid blocks s)
        → store_of graph_of version (map.entries objects) blocks ≡ Some s }
    ensures lies { (graph_of : List ℕ → Option RawGraph) (version : ℕ) (objects : Objects)
        (blocks : ℕ) (s : Store) → ReadsGraphs graph_of
        → ((id : ℕ) (bytes : List ℕ) → map.get objects id ≡ Some bytes → (id ≡ 0) ⊎ (id % 2 ≡ 1)
        → AreBytes bytes)
        → store_of graph_of version (map.entries objects) blocks ≡ Some s → (place : Places)
        × LiesIn objects place s }
    ensures total { (objects : Objects) (place : Places) (s : Store) → LiesIn objects place s
        → IsTrue (well_formed s)
        → sum_by (λ o. pages_for (length o.1)) (map.entries objects) ≡ cost s }
{}

/// Objects that are a directory, records of entries of its soups and what these name are a store:
/// the directory with the entries in the order of their ids.
pub fn stores_are_made_of_records()
    ensures { (graph_of : List ℕ → Option RawGraph) (version : ℕ) (objects : Objects)
        (place : Places) (named : ℕ → List ℕ) (d : Store) → ReadsGraphs graph_of
        → IsFound graph_of version objects place named d
        → (s : Store) × (lies : LiesIn objects place s) × ((id : ℕ) → lies.named id ≡ named id)
        × IsTrue (well_formed s) × IsTrue (keeps_version version s) × (bare s ≡ d) }
{}

/// A record that is read alone is read among objects where each of its large binaries has its
/// object there: as its entry, with their bytes. No other record is read.
pub fn records_are_read_alone()
    ensures filled { (graph_of : List ℕ → Option RawGraph) (objects : Objects) (bytes : List ℕ)
        (row : EntryRow) (g : RawGraph) (larges : List (List ℕ))
        → record_read graph_of bytes ≡ Some (row, g)
        → every (list_map (large_object (map.entries objects)) row.larges) ≡ Some larges
        → entry_read graph_of objects bytes ≡ Some (
          row.soup,
          record {
            uid = row.uid;
            time = row.time;
            graph = fold fill g
                (zip (list_map (λ l. l.0) row.larges) larges);
          },
        ) }
    ensures missing { (graph_of : List ℕ → Option RawGraph) (objects : Objects) (bytes : List ℕ)
        (row : EntryRow) (g : RawGraph) → record_read graph_of bytes ≡ Some (row, g)
        → every (list_map (large_object (map.entries objects)) row.larges) ≡ None
        → entry_read graph_of objects bytes ≡ None }
    ensures bad { (graph_of : List ℕ → Option RawGraph) (objects : Objects) (bytes : List ℕ)
        → record_read graph_of bytes ≡ None → entry_read graph_of objects bytes ≡ None }
{}

/// The skeleton of a graph in normal form is in normal form.
pub fn skeletons_are_graphs()
    ensures { (g : RawGraph) → IsGraph g → IsGraph (skeleton g) }
{}
