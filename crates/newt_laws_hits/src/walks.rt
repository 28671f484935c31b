//! Laws of walks among hits that rise.
ghost use Rattle.std.specs.Prelude.{◌≡◌, ◌<◌, Bool, not, List, Some, filter, length};
ghost use Rattle.std.specs.Ordering.{is_lt, is_gt};
ghost use Rattle.std.specs.declared.cmp.Ordering.TheVariants.{Less};
ghost use Rattle.newt_spec_graph.specs.Lists.{Pairs};
ghost use Rattle.newt_spec_store.specs.Keys.{IndexSpec, Key, key_cmp};
ghost use Rattle.newt_spec_query.specs.Hits.{Hit, hit_cmp};
ghost use Rattle.newt_spec_query.specs.Cursor.{Place, start, finish, on, is_after, is_before};
ghost use Rattle.newt_spec_query.specs.Cursor.{first_place, last_place, next_place, previous_place};
ghost use Rattle.newt_spec_query.specs.Cursor.{place_at_key};
ghost use Rattle.newt_index.specs.Pairs.{first, last};
ghost use Rattle.newt_laws_hits.specs.Walk.{walked, counted, count_after, count_before};

/// A step among the hits that are kept is a walk among all hits, which goes on as long as what it
/// comes to is not kept.
pub fn walks_pass_over_what_is_not_kept()
    ensures next { (index : IndexSpec) (keep : Hit → Bool) (hs : List Hit) (place : Place)
        → Pairs (λ a b. hit_cmp index a b ≡ Less) hs
        → next_place (filter keep hs) index place ≡ walked keep finish
        (next_place (filter keep hs) index) (first (filter (is_after index place) hs)) }
    ensures previous { (index : IndexSpec) (keep : Hit → Bool) (hs : List Hit) (place : Place)
        → Pairs (λ a b. hit_cmp index a b ≡ Less) hs
        → previous_place (filter keep hs) index place
        ≡ walked keep start (previous_place (filter keep hs) index)
        (last (filter (is_before index place) hs)) }
    ensures first { (index : IndexSpec) (keep : Hit → Bool) (hs : List Hit)
        → Pairs (λ a b. hit_cmp index a b ≡ Less) hs
        → first_place (filter keep hs) ≡ walked keep finish (next_place (filter keep hs) index)
        (first hs) }
    ensures last { (index : IndexSpec) (keep : Hit → Bool) (hs : List Hit)
        → Pairs (λ a b. hit_cmp index a b ≡ Less) hs
        → last_place (filter keep hs) ≡ walked keep start (previous_place (filter keep hs) index)
        (last hs) }
    ensures at_key { (index : IndexSpec) (keep : Hit → Bool) (hs : List Hit) (k : Key)
        → Pairs (λ a b. hit_cmp index a b ≡ Less) hs
        → place_at_key (filter keep hs) index k
        ≡ walked keep finish (next_place (filter keep hs) index)
        (first (filter (λ (h : Hit). not (is_lt (key_cmp index h.key k))) hs)) }
    ensures after { (index : IndexSpec) (hs : List Hit) (at : Hit)
        → filter (is_after index (on at)) hs ≡ filter (λ h. is_lt (hit_cmp index at h)) hs }
    ensures before { (index : IndexSpec) (hs : List Hit) (at : Hit)
        → filter (is_before index (on at)) hs ≡ filter (λ h. is_gt (hit_cmp index at h)) hs }
{}

/// The hits that are kept are counted by a walk among all hits.
pub fn walks_count()
    ensures next { (index : IndexSpec) (keep : Hit → Bool) (hs : List Hit) (place : Place)
        → Pairs (λ a b. hit_cmp index a b ≡ Less) hs
        → count_after index (filter keep hs) place ≡ counted keep
        (count_after index (filter keep hs)) (first (filter (is_after index place) hs)) }
    ensures first { (index : IndexSpec) (keep : Hit → Bool) (hs : List Hit)
        → Pairs (λ a b. hit_cmp index a b ≡ Less) hs
        → length (filter keep hs) ≡ counted keep (count_after index (filter keep hs)) (first hs) }
{}

/// From before all hits the next is the first, from after all hits the previous is the last, and
/// nothing is beyond.
pub fn walks_begin_at_the_ends()
    ensures from_start { (index : IndexSpec) (hs : List Hit)
        → next_place hs index start ≡ first_place hs }
    ensures beyond_finish { (index : IndexSpec) (hs : List Hit)
        → next_place hs index finish ≡ finish }
    ensures from_finish { (index : IndexSpec) (hs : List Hit)
        → previous_place hs index finish ≡ last_place hs }
    ensures beyond_start { (index : IndexSpec) (hs : List Hit)
        → previous_place hs index start ≡ start }
{}

/// Each step of a walk leaves fewer hits ahead of it.
pub fn walks_end()
    ensures next { (index : IndexSpec) (hs : List Hit) (place : Place) (h : Hit)
        → Pairs (λ a b. hit_cmp index a b ≡ Less) hs
        → first (filter (is_after index place) hs) ≡ Some h → count_after index hs (on h)
        < count_after index hs place }
    ensures previous { (index : IndexSpec) (hs : List Hit) (place : Place) (h : Hit)
        → Pairs (λ a b. hit_cmp index a b ≡ Less) hs
        → last (filter (is_before index place) hs) ≡ Some h → count_before index hs (on h)
        < count_before index hs place }
{}
