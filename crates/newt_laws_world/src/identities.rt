//! Laws of ids, signatures and aliases: none is given twice.
ghost use Rattle.std.specs.Prelude.{ℕ, ◌≡◌, List, IsTrue, Some};
ghost use Rattle.newt_spec_store.specs.Store.{Store, Entry, Soup, soup_named, change_soup};
ghost use Rattle.newt_spec_store.specs.Store.{remove_entry, drop_soup};
ghost use Rattle.newt_spec_store.specs.Valid.{well_formed};
ghost use Rattle.newt_spec_world.specs.World.{World, store_on_unit};
ghost use Rattle.newt_spec_world.specs.Alias.{Alias as IsAlias, Spot, resolved};
ghost use Rattle.newt_laws_changes.specs.Later.{StoreLater, EntryGone, SoupGone};
ghost use Rattle.newt_laws_world.specs.Later.{WorldLater};
ghost use Rattle.newt_laws_world.specs.Named.{IsNamed};
ghost use Rattle.newt_spec_world.specs.Answer.{after};
ghost use Rattle.newt_spec_world.specs.declared.command.Command.{Command as IsCommand};
ghost use Rattle.newt_spec_graph.specs.Lists.{Each, Among};

/// Each unit keeps its store, in a later state. An id or a signature that is gone from it is never
/// given again.
pub fn ids_are_given_once()
    ensures later { (w : World) (cs : List IsCommand) → WorldLater w (after w cs) }
    ensures entries { (s t : Store) (sig uid : ℕ) → StoreLater s t → EntryGone sig uid s
        → EntryGone sig uid t }
    ensures soups { (s t : Store) (sig : ℕ) → StoreLater s t → SoupGone sig s → SoupGone sig t }
{}

/// What is removed or dropped is gone.
pub fn removed_is_gone()
    ensures entry { (s : Store) (name : List ℕ) (p : Soup) (e : Entry) → IsTrue (well_formed s)
        → soup_named name s ≡ Some p → Among p.entries e
        → EntryGone p.sig e.uid (change_soup name (remove_entry e.uid) s) }
    ensures soup { (s : Store) (name : List ℕ) (p : Soup) → IsTrue (well_formed s)
        → soup_named name s ≡ Some p → SoupGone p.sig (drop_soup name s) }
{}

/// An alias resolves to the entry of its signatures and id, and to none on a unit where that entry
/// is gone.
pub fn aliases_name_their_entry()
    ensures sound { (w : World) (a : IsAlias) (spot : Spot) → resolved w a ≡ Some spot
        → IsNamed w a spot }
    ensures gone { (w : World) (cs : List IsCommand) (u : ℕ) (s : Store) (a : IsAlias) (spot : Spot)
        → store_on_unit w u ≡ Some s → EntryGone a.soup a.uid s
        → resolved (after w cs) a ≡ Some spot → spot.unit ≡ u → ⊥ }
{}
