//! Laws of hits by their identity.
ghost use Rattle.std.specs.Prelude.{◌≡◌, ◌&&◌, ◌==◌, ℕ, List, IsTrue, find, option_map};
ghost use Rattle.std.specs.Prelude.{option_and_then, unwrap_or, None, false};
ghost use Rattle.newt_spec_graph.specs.Lists.{Among, Each, Pairs};
ghost use Rattle.newt_spec_store.specs.Store.{Store, Soup, entry_of};
ghost use Rattle.newt_spec_store.specs.Valid.{well_formed};
ghost use Rattle.newt_spec_query.specs.Hits.{Query, Hit, hits};
ghost use Rattle.newt_spec_query.specs.Cursor.{on, same_identity, hit_at, settled};
ghost use Rattle.newt_spec_world.specs.World.{World, hits_of, mounted_stores, settle};
ghost use Rattle.newt_spec_world.specs.Alias.{resolved};
ghost use Rattle.newt_spec_world.specs.Answer.{answered, fields, spot_of};
ghost use Rattle.newt_spec_world.specs.Changed.{changed};
ghost use Rattle.newt_spec_world.specs.declared.command.Command.{Command as IsCommand};
ghost use Rattle.newt_laws_world.specs.Settled.{IsSettled, MountedApart, moves_keys};
ghost use Rattle.newt_laws_world.specs.Worlds.{AllValid};
ghost use Rattle.newt_laws_hits.specs.Located.{located, looked_up};

/// A hit is found by looking up its store, its soup and its entry; none is found where one of them
/// is missing or takes no part.
pub fn hits_are_looked_up()
    ensures same { (stores : List Store) (q : Query) (at : Hit)
        → Pairs (λ s t. s.sig ≡ t.sig → ⊥) stores → Each (λ s. IsTrue (well_formed s)) stores
        → find (same_identity at) (hits stores q) ≡ looked_up stores q at.store at.soup at.uid }
    ensures named { (stores : List Store) (q : Query) (store soup uid : ℕ)
        → Pairs (λ s t. s.sig ≡ t.sig → ⊥) stores → Each (λ s. IsTrue (well_formed s)) stores
        → find (λ (h : Hit). (h.store == store) && (h.soup == soup) && (h.uid == uid))
        (hits stores q) ≡ looked_up stores q store soup uid }
    ensures settled { (stores : List Store) (q : Query) (at : Hit)
        → Pairs (λ s t. s.sig ≡ t.sig → ⊥) stores → Each (λ s. IsTrue (well_formed s)) stores
        → settled (hits stores q) (on at) ≡ unwrap_or
        (option_map on (looked_up stores q at.store at.soup at.uid)) (on at) }
{}

/// An entry of a known store and soup is located by its id. What a cursor shows is the entry of its
/// hit, looked up by its identity.
pub fn entries_are_located()
    ensures known { (stores : List Store) (s : Store) (p : Soup) (uid : ℕ)
        → Pairs (λ s t. s.sig ≡ t.sig → ⊥) stores → Each (λ s. IsTrue (well_formed s)) stores
        → Among stores s → Among s.soups p → located stores s.sig p.sig uid
        ≡ option_map (λ e. record { store = s; soup = p; entry = e }) (entry_of uid p) }
    ensures shown { (w : World) (q : Query) (at : Hit)
        → Pairs (λ s t. s.sig ≡ t.sig → ⊥) (mounted_stores w)
        → Each (λ s. IsTrue (well_formed s)) (mounted_stores w)
        → option_and_then (spot_of w) (hit_at (hits_of w q) (on at))
        ≡ option_and_then (λ (h : Hit). resolved w (record
        { store = at.store; soup = at.soup; uid = at.uid }))
        (looked_up (mounted_stores w) q at.store at.soup at.uid) }
{}

/// In a settled world, a command that moves no key leaves nothing to settle. Most commands are
/// such, those on cursors among them.
pub fn few_commands_settle()
    ensures { (w : World) (c : IsCommand) → AllValid w → MountedApart w → IsSettled w
        → moves_keys c ≡ false
        → answered w c None ≡ (changed w c, fields w (changed w c) c) }
{}

/// To settle twice is to settle once.
pub fn settling_twice_is_settling()
    ensures { (w : World) → settle (settle w) ≡ settle w }
{}
