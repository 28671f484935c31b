//! Laws of a cursor's steps, by the searches of the union.
ghost use Rattle.std.specs.Prelude.{◌≡◌, ◌<◌, List, IsTrue, Some, length};
ghost use Rattle.newt_spec_graph.specs.Lists.{Each, Pairs};
ghost use Rattle.newt_spec_store.specs.Keys.{Key};
ghost use Rattle.newt_spec_store.specs.Store.{Store};
ghost use Rattle.newt_spec_store.specs.Valid.{well_formed};
ghost use Rattle.newt_spec_query.specs.Hits.{Query, Hit, hits};
ghost use Rattle.newt_spec_query.specs.Cursor.{start, finish, on, first_place, last_place};
ghost use Rattle.newt_spec_query.specs.Cursor.{next_place, previous_place, place_at_key};
ghost use Rattle.newt_index.specs.Pairs.{first, last};
ghost use Rattle.newt_union.specs.Merged.{merged, after, before, at_or_after};
ghost use Rattle.newt_laws_hits.specs.Stripped.{passing};
ghost use Rattle.newt_laws_hits.specs.Taking.{members_of};
ghost use Rattle.newt_laws_hits.specs.Walk.{walked, counted, count_after, count_before};

/// Each step of a cursor among the hits of a query is a search of the union, and goes on as long as
/// what is found does not pass.
pub fn steps_are_searches()
    ensures first { (stores : List Store) (q : Query) → Pairs (λ s t. s.sig ≡ t.sig → ⊥) stores
        → Each (λ s. IsTrue (well_formed s)) stores
        → first_place (hits stores q)
        ≡ walked (passing stores q) finish (next_place (hits stores q) q.spec.index)
        (first (merged q.spec.index (members_of stores q))) }
    ensures last { (stores : List Store) (q : Query) → Pairs (λ s t. s.sig ≡ t.sig → ⊥) stores
        → Each (λ s. IsTrue (well_formed s)) stores
        → last_place (hits stores q)
        ≡ walked (passing stores q) start (previous_place (hits stores q) q.spec.index)
        (last (merged q.spec.index (members_of stores q))) }
    ensures next { (stores : List Store) (q : Query) (at : Hit)
        → Pairs (λ s t. s.sig ≡ t.sig → ⊥) stores → Each (λ s. IsTrue (well_formed s)) stores
        → next_place (hits stores q) q.spec.index (on at)
        ≡ walked (passing stores q) finish (next_place (hits stores q) q.spec.index)
        (after q.spec.index (members_of stores q) at) }
    ensures previous { (stores : List Store) (q : Query) (at : Hit)
        → Pairs (λ s t. s.sig ≡ t.sig → ⊥) stores → Each (λ s. IsTrue (well_formed s)) stores
        → previous_place (hits stores q) q.spec.index (on at)
        ≡ walked (passing stores q) start (previous_place (hits stores q) q.spec.index)
        (before q.spec.index (members_of stores q) at) }
    ensures at_key { (stores : List Store) (q : Query) (k : Key)
        → Pairs (λ s t. s.sig ≡ t.sig → ⊥) stores → Each (λ s. IsTrue (well_formed s)) stores
        → place_at_key (hits stores q) q.spec.index k
        ≡ walked (passing stores q) finish (next_place (hits stores q) q.spec.index)
        (at_or_after q.spec.index (members_of stores q) k) }
{}

/// The hits of a query are counted by the searches of the union.
pub fn searches_count()
    ensures first { (stores : List Store) (q : Query) → Pairs (λ s t. s.sig ≡ t.sig → ⊥) stores
        → Each (λ s. IsTrue (well_formed s)) stores
        → length (hits stores q)
        ≡ counted (passing stores q) (count_after q.spec.index (hits stores q))
        (first (merged q.spec.index (members_of stores q))) }
    ensures next { (stores : List Store) (q : Query) (at : Hit)
        → Pairs (λ s t. s.sig ≡ t.sig → ⊥) stores → Each (λ s. IsTrue (well_formed s)) stores
        → count_after q.spec.index (hits stores q) (on at)
        ≡ counted (passing stores q) (count_after q.spec.index (hits stores q))
        (after q.spec.index (members_of stores q) at) }
{}

/// Each search leaves fewer hits of the union ahead of it.
pub fn searches_end()
    ensures next { (stores : List Store) (q : Query) (at h : Hit)
        → Pairs (λ s t. s.sig ≡ t.sig → ⊥) stores → Each (λ s. IsTrue (well_formed s)) stores
        → after q.spec.index (members_of stores q) at ≡ Some h
        → count_after q.spec.index (merged q.spec.index (members_of stores q)) (on h)
        < count_after q.spec.index (merged q.spec.index (members_of stores q)) (on at) }
    ensures previous { (stores : List Store) (q : Query) (at h : Hit)
        → Pairs (λ s t. s.sig ≡ t.sig → ⊥) stores → Each (λ s. IsTrue (well_formed s)) stores
        → before q.spec.index (members_of stores q) at ≡ Some h
        → count_before q.spec.index (merged q.spec.index (members_of stores q)) (on h)
        < count_before q.spec.index (merged q.spec.index (members_of stores q)) (on at) }
{}
