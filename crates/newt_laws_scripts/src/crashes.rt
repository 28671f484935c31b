//! Laws of one run after another, where devices may fail and a crash may come at any moment.
ghost use Rattle.std.specs.Prelude.{ℕ, ◌≡◌, ◌≤◌, ◌<◌, ◌+◌, ◌++◌, ◌∷◌, [], IsTrue, List, length};
ghost use Rattle.std.specs.Prelude.{Option, Some, Result};
ghost use Rattle.newt_graph.specs.Graph.{RawGraph};
ghost use Rattle.newt_host.specs.Outside.{Outside};
ghost use Rattle.newt_laws_changes.specs.Later.{EntryGone, SoupGone};
ghost use Rattle.newt_laws_scripts.specs.Crashed.{CrashedAt, CrashedAfter, HasEntry, IdGiven};
ghost use Rattle.newt_laws_scripts.specs.Crashed.{IdGivenOn, ReadsLater};
ghost use Rattle.newt_laws_steps.specs.Answering.{ReadsOneOf};
ghost use Rattle.newt_laws_steps.specs.Steps.{StoresLater};
ghost use Rattle.newt_laws_whole.specs.Runs.{IsSound};
ghost use Rattle.newt_script_session.specs.Named.{CountedNamed, RanNamed, first_world, held_by};
ghost use Rattle.newt_script_session.specs.declared.halt.Halt.{Halt as IsHalt};
ghost use Rattle.newt_spec_graph.specs.Lists.{Among, Each};
ghost use Rattle.newt_spec_script.specs.Rows.{IsRun, Row, world_at, last_world};
ghost use Rattle.newt_spec_script.specs.Script.{Item as IsItem};
ghost use Rattle.newt_spec_store.specs.OfImage.{blocks_of};
ghost use Rattle.newt_spec_store.specs.Store.{Soup, Store};
ghost use Rattle.newt_spec_store.specs.Valid.{valid, well_formed};
ghost use Rattle.newt_spec_whole.specs.Step.{WholeStep};
ghost use Rattle.newt_spec_whole.specs.Whole.{Whole};
ghost use Rattle.newt_spec_world.specs.Alias.{Alias as IsAlias, Spot, resolved};
ghost use Rattle.newt_spec_world.specs.Reply.{Reply};
ghost use Rattle.newt_spec_world.specs.World.{World, mounted_store, soup_in, stores_on};
ghost use Rattle.newt_spec_world.specs.declared.command.Command.TheVariants as command;

/// A crash comes after k replies have begun, and the unit had a store then, or one of two. What the
/// crash leaves of the unit is read as a later state of one of these stores, whatever cards fail.
/// So it is in a run of a script over the devices of names (`run`). So it is in a run whose replies
/// are counted, from its start on (`counted`), and of the stores after all of it, once a byte of
/// the summary is out (`summed`). So it is in the rows of any run, where a crash leaves the unit as
/// after m of them, or one more (`rows`).
///
/// Of an image that is read as a store it is so of that store (`made`). Such an image is what a
/// crash leaves on a device to which a store was restored, once a byte of the reply is out.
pub fn crashes_leave_later_stores()
    ensures run { (reads : List ℕ → Option Store) (limit : ℕ)
        (result : Result (Unit {0}) IsHalt) (names : List (List ℕ)) (old new : Outside)
        (ran : RanNamed WholeStep reads limit result names old new) (k unit : ℕ) (s : Store)
        (image : List ℕ) → let rows = ran.played.given.rows in
        let before = stores_on (world_at (first_world reads names old) rows k).world unit in
        CrashedAfter rows old new k unit image → Among before s → ReadsLater reads before image }
    ensures counted { (reads : List ℕ → Option Store) (script : List ℕ)
        (result : Result (Unit {0}) IsHalt) (names : List (List ℕ)) (old new : Outside)
        → CountedNamed WholeStep reads script result names old new → (unit : ℕ) (s : Store)
        (image shown : List ℕ) → let before = stores_on (first_world reads names old).world unit in
        CrashedAt old new unit image shown → Among before s → ReadsLater reads before image }
    ensures summed { (reads : List ℕ → Option Store) (script : List ℕ)
        (result : Result (Unit {0}) IsHalt) (names : List (List ℕ)) (old new : Outside)
        (ran : CountedNamed WholeStep reads script result names old new) (unit : ℕ) (s : Store)
        (image shown : List ℕ)
        → let last = last_world (first_world reads names old) ran.given.rows in
        let before = stores_on last.world unit in CrashedAt old new unit image shown
        → 0 < length shown → Among before s → ReadsLater reads before image }
    ensures rows { (reads : List ℕ → Option Store) (h : Whole) (items : List IsItem)
        (rows : List (Row Whole)) (k m unit : ℕ) (s : Store) (image : List ℕ)
        → IsRun WholeStep h items rows → k ≤ m → Among (stores_on (world_at h rows k).world unit) s
        → ((t : Store) → Among (stores_on (world_at h rows m).world unit) t
        → ReadsOneOf reads (stores_on (world_at h rows m).world unit
        ++ stores_on (world_at h rows (m + 1)).world unit) image)
        → ReadsLater reads (stores_on (world_at h rows k).world unit) image }
    ensures made { (reads : List ℕ → Option Store) (s : Store) (image : List ℕ)
        → reads image ≡ Some s → ReadsLater reads (s ∷ []) image }
{}

/// A run over such an image has later states of those stores on the unit of its name's place, in
/// each of its worlds, whatever cards fail. What a crash leaves of this run is read as a later
/// state too. Since that is so of each run over the one before it, it is so of all.
pub fn later_runs_go_on()
    ensures worlds { (reads : List ℕ → Option Store) (before : List Store) (image : List ℕ)
        → ReadsLater reads before image → (names : List (List ℕ)) (old : Outside) (u : ℕ)
        → length names ≤ 8 → held_by names old u ≡ Some image → (items : List IsItem)
        (rows : List (Row Whole)) (k : ℕ) → IsRun WholeStep (first_world reads names old) items rows
        → StoresLater before (stores_on (world_at (first_world reads names old) rows k).world u) }
    ensures again { (reads : List ℕ → Option Store) (before : List Store) (image : List ℕ)
        → ReadsLater reads before image → (names : List (List ℕ)) (old : Outside) (u : ℕ)
        → length names ≤ 8 → held_by names old u ≡ Some image → (limit : ℕ)
        (result : Result (Unit {0}) IsHalt) (new : Outside)
        (ran : RanNamed WholeStep reads limit result names old new) (left : List ℕ)
        → CrashedAfter ran.played.given.rows old new 0 u left → ReadsLater reads before left }
    ensures counted { (reads : List ℕ → Option Store) (before : List Store) (image : List ℕ)
        → ReadsLater reads before image → (names : List (List ℕ)) (old : Outside) (u : ℕ)
        → length names ≤ 8 → held_by names old u ≡ Some image → (script : List ℕ)
        (result : Result (Unit {0}) IsHalt) (new : Outside)
        → CountedNamed WholeStep reads script result names old new → (left shown : List ℕ)
        → CrashedAt old new u left shown → ReadsLater reads before left }
{}

/// An entry that is there has been given its id. An id that was given in all stores that a unit may
/// have had is given in all later states of them, so the next one is another. An entry or a soup
/// that was gone from them is gone.
pub fn ids_outlive_crashes()
    ensures given { (s : Store) (sig uid : ℕ) → IsTrue (well_formed s) → HasEntry sig uid s
        → IdGiven sig uid s }
    ensures ids { (before after : List Store) (sig uid : ℕ) → Each (IdGiven sig uid) before
        → StoresLater before after → Each (IdGiven sig uid) after }
    ensures entries { (before after : List Store) (sig uid : ℕ) → Each (EntryGone sig uid) before
        → StoresLater before after → Each (EntryGone sig uid) after }
    ensures soups { (before after : List Store) (sig : ℕ) → Each (SoupGone sig) before
        → StoresLater before after → Each (SoupGone sig) after }
{}

/// An alias whose entry is gone from all stores that a unit may have had resolves to nothing on a
/// unit that has later states of them. An alias whose id was given in them resolves to an entry
/// that was there, or to none.
pub fn aliases_outlive_crashes()
    ensures gone { (before : List Store) (w : World) (u : ℕ) (a : IsAlias) (spot : Spot)
        → Each (EntryGone a.soup a.uid) before → StoresLater before (stores_on w u)
        → resolved w a ≡ Some spot → spot.unit ≡ u → ⊥ }
    ensures there { (before : List Store) (w : World) (u : ℕ) (a : IsAlias) (spot : Spot)
        → Each (IdGiven a.soup a.uid) before → StoresLater before (stores_on w u)
        → resolved w a ≡ Some spot → spot.unit ≡ u
        → (s : Store) × Among before s × HasEntry a.soup a.uid s }
{}

/// Each world of a run of a script is sound, whatever cards fail, where all images that are read as
/// stores are read as valid ones.
pub fn worlds_of_runs_are_sound()
    ensures run { (reads : List ℕ → Option Store) → ((image : List ℕ) (s : Store)
        → reads image ≡ Some s → IsTrue (valid (blocks_of image) s)) → (limit : ℕ)
        (result : Result (Unit {0}) IsHalt) (names : List (List ℕ)) (old new : Outside)
        (ran : RanNamed WholeStep reads limit result names old new) (k : ℕ)
        → IsSound (world_at (first_world reads names old) ran.played.given.rows k) }
    ensures counted { (reads : List ℕ → Option Store) → ((image : List ℕ) (s : Store)
        → reads image ≡ Some s → IsTrue (valid (blocks_of image) s)) → (script : List ℕ)
        (result : Result (Unit {0}) IsHalt) (names : List (List ℕ)) (old new : Outside)
        (ran : CountedNamed WholeStep reads script result names old new) (k : ℕ)
        → IsSound (world_at (first_world reads names old) ran.given.rows k) }
{}

/// In a sound world the id of each entry in a mounted store has been given in all stores that its
/// unit may have. So has the id of an alias that resolves, that of an alias that is replied, and
/// the id that an `add` is answered with.
pub fn ids_of_entries_have_been_given()
    ensures there { (h : Whole) (u : ℕ) (t : Store) (sig uid : ℕ) → IsSound h
        → mounted_store h.world u ≡ Some t → HasEntry sig uid t → IdGivenOn h.world u sig uid }
    ensures resolved { (h : Whole) (a : IsAlias) (spot : Spot) → IsSound h
        → resolved h.world a ≡ Some spot → IdGivenOn h.world spot.unit a.soup a.uid }
    ensures replied { (h : Whole) (u : ℕ) (name : List ℕ) (uid store soup id : ℕ) → IsSound h
        → (v : Whole) → WholeStep h (command.Alias u name uid) v (Reply.alias store soup id)
        → IdGivenOn v.world u soup id }
    ensures added { (h : Whole) (u : ℕ) (name : List ℕ) (graph : RawGraph) (id : ℕ) (v : Whole)
        → IsSound v → WholeStep h (command.Add u name graph) v (Reply.number id)
        → (p : Soup) × (soup_in h.world u name ≡ Some p) × IdGivenOn v.world u p.sig id }
{}

/// The id of an alias was given after k replies of a run. A crash comes anywhere after these
/// replies, and the next run is over the image that it left. In every world of that run, whatever
/// cards fail, the alias resolves on that unit to an entry that was there after as many replies as
/// had begun, or to none. The same holds where the id was given in some stores, of every run over
/// an image that is read as a later state of one of them. It does not matter how many runs and
/// crashes are between.
pub fn aliases_lead_to_their_entry_or_to_none()
    ensures next { (reads : List ℕ → Option Store) (limit : ℕ) (result : Result (Unit {0}) IsHalt)
        (names : List (List ℕ)) (old new : Outside)
        (ran : RanNamed WholeStep reads limit result names old new)
        → let rows = ran.played.given.rows in let first = first_world reads names old in
        (k m unit : ℕ) (a : IsAlias) (image : List ℕ)
        → IdGivenOn (world_at first rows k).world unit a.soup a.uid → k ≤ m
        → CrashedAfter rows old new m unit image → (names2 : List (List ℕ)) (old2 : Outside)
        (u : ℕ) → length names2 ≤ 8 → held_by names2 old2 u ≡ Some image
        → let first2 = first_world reads names2 old2 in (items2 : List IsItem)
        (rows2 : List (Row Whole)) (j : ℕ) → IsRun WholeStep first2 items2 rows2 → (spot : Spot)
        → resolved (world_at first2 rows2 j).world a ≡ Some spot → spot.unit ≡ u
        → (s : Store) × Among (stores_on (world_at first rows m).world unit) s
        × HasEntry a.soup a.uid s }
    ensures later { (reads : List ℕ → Option Store) (before : List Store) (image : List ℕ)
        (a : IsAlias) → Each (IdGiven a.soup a.uid) before → ReadsLater reads before image
        → (names : List (List ℕ)) (old : Outside) (u : ℕ) → length names ≤ 8
        → held_by names old u ≡ Some image → let first = first_world reads names old in
        (items : List IsItem) (rows : List (Row Whole)) (j : ℕ) → IsRun WholeStep first items rows
        → (spot : Spot) → resolved (world_at first rows j).world a ≡ Some spot → spot.unit ≡ u
        → (s : Store) × Among before s × HasEntry a.soup a.uid s }
{}
