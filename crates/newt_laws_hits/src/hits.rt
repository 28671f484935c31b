//! Laws of the list of all hits.
ghost use Rattle.std.specs.Prelude.{◌≡◌, ◌<◌, ◌≤◌, ◌^◌, List, IsTrue, filter, length};
ghost use Rattle.newt_spec_graph.specs.Lists.{Each, Pairs};
ghost use Rattle.newt_spec_store.specs.Store.{Store};
ghost use Rattle.newt_spec_store.specs.Valid.{well_formed};
ghost use Rattle.newt_spec_query.specs.Hits.{Query, hits};
ghost use Rattle.newt_union.specs.Merged.{merged, AllAgree};
ghost use Rattle.newt_laws_hits.specs.Stripped.{stripped, passing};
ghost use Rattle.newt_laws_hits.specs.Taking.{members_of};

/// The hits of a query are those of its index alone, without those that do not pass.
pub fn hits_are_filtered()
    ensures { (stores : List Store) (q : Query) → Pairs (λ s t. s.sig ≡ t.sig → ⊥) stores
        → Each (λ s. IsTrue (well_formed s)) stores
        → hits stores q ≡ filter (passing stores q) (hits stores (stripped q)) }
{}

/// The hits of an index alone are the merge of its members' ranges, whose declarations agree with
/// it.
pub fn hits_are_merged()
    ensures merged { (stores : List Store) (q : Query) → Pairs (λ s t. s.sig ≡ t.sig → ⊥) stores
        → Each (λ s. IsTrue (well_formed s)) stores
        → hits stores (stripped q) ≡ merged q.spec.index (members_of stores q) }
    ensures agree { (stores : List Store) (q : Query)
        → AllAgree q.spec.index (members_of stores q) }
{}

/// The hits in the stores of eight units are fewer than 2 ^ 32: each store has one soup of a name,
/// and each soup at most 536,870,911 entries.
pub fn hits_are_few()
    ensures { (stores : List Store) (q : Query) → Pairs (λ s t. s.sig ≡ t.sig → ⊥) stores
        → Each (λ s. IsTrue (well_formed s)) stores
        → length stores ≤ 8 → length (hits stores q) < 2 ^ 32 }
{}
