//! Laws of the changes of one store.
ghost use Rattle.std.specs.Prelude.{ℕ, ◌≡◌, List, IsTrue, Some};
ghost use Rattle.newt_graph.specs.Graph.{RawGraph};
ghost use Rattle.newt_spec_image.specs.Objects.{Objects};
ghost use Rattle.newt_spec_store.specs.Cost.{directory_bytes};
ghost use Rattle.newt_spec_store.specs.Laid.{bare};
ghost use Rattle.newt_spec_store.specs.Lies.{Places, IsIn, LiesIn};
ghost use Rattle.newt_spec_store.specs.Store.{Store, Soup, Entry, soup_named, entry_of};
ghost use Rattle.newt_spec_store.specs.Store.{change_soup, make_soup, add_entry};
ghost use Rattle.newt_spec_store.specs.Store.{remove_entry, drop_soup, soup_of, without_soup};
ghost use Rattle.newt_spec_store.specs.Store.{take_uid_of};
ghost use Rattle.newt_spec_store.specs.Valid.{well_formed};
ghost use Rattle.newt_laws_changes.specs.Later.{StoreLater};
ghost use Rattle.newt_laws_changes.specs.Laws.{ChangedStoresLie, ChangedStoresAreFormed};

/// A store that is changed lies in the objects that the change writes, and its records name what
/// the change says.
pub fn changed_stores_lie_in_changed_objects()
    ensures { ChangedStoresLie }
{}

/// A changed store is well formed where the refusals of the change do not hold.
pub fn changed_stores_are_well_formed()
    ensures { ChangedStoresAreFormed }
{}

/// What a change does to the directory: to the store without its entries, and to its bytes.
pub fn directories_follow_changes()
    ensures made { (name : List ℕ) (s : Store) → bare (make_soup name s) ≡ make_soup name (bare s) }
    ensures dropped { (sig : ℕ) (s : Store) (p : Soup) → IsTrue (well_formed s)
        → soup_of sig s ≡ Some p → bare (drop_soup p.name s) ≡ without_soup sig (bare s) }
    ensures added { (sig now : ℕ) (g : RawGraph) (s : Store) (p : Soup) → IsTrue (well_formed s)
        → soup_of sig s ≡ Some p → bare (change_soup p.name (add_entry now g) s) ≡ take_uid_of sig
        (bare s) }
    ensures removed { (name : List ℕ) (uid : ℕ) (s : Store)
        → bare (change_soup name (remove_entry uid) s) ≡ bare s }
    ensures unseen { (name : List ℕ) (uid : ℕ) (s : Store)
        → directory_bytes (change_soup name (remove_entry uid) s) ≡ directory_bytes s }
{}

/// The soup found by its signature is the one found by its name, and an entry of a soup is found by
/// its id.
pub fn soups_are_found_both_ways()
    ensures by_name { (sig : ℕ) (s : Store) (p : Soup) → IsTrue (well_formed s)
        → soup_of sig s ≡ Some p → soup_named p.name s ≡ Some p }
    ensures by_signature { (name : List ℕ) (s : Store) (p : Soup) → IsTrue (well_formed s)
        → soup_named name s ≡ Some p → (p.name ≡ name) × (soup_of p.sig s ≡ Some p) }
    ensures is_in { (sig uid : ℕ) (s : Store) (p : Soup) (e : Entry) → soup_of sig s ≡ Some p
        → entry_of uid p ≡ Some e → IsIn s sig e × (e.uid ≡ uid) }
    ensures found { (sig : ℕ) (s : Store) (e : Entry) → IsTrue (well_formed s) → IsIn s sig e
        → (p : Soup) × (soup_of sig s ≡ Some p) × (entry_of e.uid p ≡ Some e) }
    ensures after_add { (sig to now : ℕ) (g : RawGraph) (s : Store) (p q : Soup)
        → IsTrue (well_formed s) → soup_of sig s ≡ Some p → soup_of to s ≡ Some q
        → (r : Soup) × (soup_of sig (change_soup q.name (add_entry now g) s) ≡ Some r)
        × (r.name ≡ p.name) }
{}

/// No two entries of a store lie in one object.
pub fn places_are_apart()
    ensures { (objects : Objects) (place : Places) (s : Store) → LiesIn objects place s
        → IsTrue (well_formed s)
        → (t u v w id : ℕ) → place t u ≡ Some id → place v w ≡ Some id → (t ≡ v) × (u ≡ w) }
{}

/// Each entry id and each soup signature was there before the change, or is at least the one that
/// was the next then.
pub fn changes_give_new_ids()
    ensures made { (name : List ℕ) (s : Store) → StoreLater s (make_soup name s) }
    ensures dropped { (name : List ℕ) (s : Store) → StoreLater s (drop_soup name s) }
    ensures added { (name : List ℕ) (now : ℕ) (g : RawGraph) (s : Store)
        → StoreLater s (change_soup name (add_entry now g) s) }
    ensures removed { (name : List ℕ) (uid : ℕ) (s : Store)
        → StoreLater s (change_soup name (remove_entry uid) s) }
    ensures joined { (s t v : Store) → StoreLater s t → StoreLater t v → StoreLater s v }
{}
