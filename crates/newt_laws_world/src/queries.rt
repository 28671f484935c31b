//! Laws of queries.
ghost use Rattle.std.specs.Prelude.{◌≡◌, List, IsTrue};
ghost use Rattle.std.specs.declared.cmp.Ordering.TheVariants.{Less};
ghost use Rattle.newt_spec_store.specs.Store.{Store};
ghost use Rattle.newt_spec_store.specs.Valid.{well_formed};
ghost use Rattle.newt_spec_query.specs.Hits.{Query, Hit, hits, hit_cmp};
ghost use Rattle.newt_spec_graph.specs.Lists.{Each, Pairs, Among};
ghost use Rattle.newt_laws_world.specs.Found.{IsHit};

/// The hits of a query are what it finds, and nothing else.
pub fn hits_are_found()
    ensures sound { (stores : List Store) (q : Query) (h : Hit) → Among (hits stores q) h
        → IsHit stores q h }
    ensures complete { (stores : List Store) (q : Query) (h : Hit) → IsHit stores q h
        → Among (hits stores q) h }
{}

/// Each hit is before all later ones, so none is there twice.
pub fn hits_rise()
    ensures { (stores : List Store) (q : Query) → Pairs (λ s t. s.sig ≡ t.sig → ⊥) stores
        → Each (λ s. IsTrue (well_formed s)) stores
        → Pairs (λ a b. hit_cmp q.spec.index a b ≡ Less) (hits stores q) }
{}
