//! Laws of steps and runs.
ghost use Rattle.std.specs.Prelude.{ℕ, ◌≡◌, IsTrue, List, Option};
ghost use Rattle.newt_laws_world.specs.Settled.{IsSettled, MountedApart};
ghost use Rattle.newt_laws_world.specs.Worlds.{AllValid, has_form};
ghost use Rattle.newt_laws_steps.specs.Meant.{MountedSure};
ghost use Rattle.newt_laws_steps.specs.Steps.{AllSure, AreQuiet, EntryGoneOn, IsQuiet, SoupGoneOn};
ghost use Rattle.newt_laws_steps.specs.Steps.{WorldMayBeLater};
ghost use Rattle.newt_spec_script.specs.Rows.{IsRun, Row, replies_of, last_world};
ghost use Rattle.newt_spec_script.specs.Script.{Item as IsItem, replies_to, world_after};
ghost use Rattle.newt_spec_store.specs.Store.{Store};
ghost use Rattle.newt_spec_world.specs.Answer.{answer};
ghost use Rattle.newt_spec_world.specs.First.{world_of};
ghost use Rattle.newt_spec_world.specs.Reply.{Reply};
ghost use Rattle.newt_spec_world.specs.Step.{Step};
ghost use Rattle.newt_spec_world.specs.World.{World};
ghost use Rattle.newt_spec_world.specs.declared.command.Command.{Command as IsCommand};

/// At the start it is known what each unit holds. Where that is so and no device fails, a step is
/// the answer of the plain world, and a run of a script is that of the plain world.
pub fn quiet_steps_are_plain()
    ensures first { (reads : List ℕ → Option Store) (held : List ℕ → Option (List ℕ))
        (names : List (List ℕ)) → AllSure (world_of reads held names) }
    ensures step { (w : World) (c : IsCommand) (v : World) (r : Reply) → AllSure w → Step w c v r
        → IsQuiet r → answer w c ≡ (v, r) }
    ensures sure { (w : World) (c : IsCommand) → AllSure w → AllSure (answer w c).0 }
    ensures replies { (w : World) (items : List IsItem) (rows : List (Row World)) → AllSure w
        → IsRun Step w items rows → AreQuiet rows → replies_of rows ≡ replies_to answer w items }
    ensures world { (w : World) (items : List IsItem) (rows : List (Row World)) → AllSure w
        → IsRun Step w items rows → AreQuiet rows → last_world w rows ≡ world_after answer w items }
{}

/// Each command can be answered in each world.
pub fn steps_are_there()
    ensures { (w : World) (c : IsCommand) → (v : World) × (r : Reply) × Step w c v r }
{}

/// Once a unit has a store, or one of two, it has a later state of one of them after each step, and
/// so after each run. An id or a signature that is gone from every store that it may have is never
/// given again.
pub fn ids_stay_given()
    ensures step { (w : World) (c : IsCommand) (v : World) (r : Reply) → Step w c v r
        → WorldMayBeLater w v }
    ensures run { (w : World) (items : List IsItem) (rows : List (Row World)) → IsRun Step w items rows
        → WorldMayBeLater w (last_world w rows) }
    ensures entries { (w v : World) (u sig uid : ℕ) → WorldMayBeLater w v
        → EntryGoneOn w u sig uid → EntryGoneOn v u sig uid }
    ensures soups { (w v : World) (u sig : ℕ) → WorldMayBeLater w v → SoupGoneOn w u sig
        → SoupGoneOn v u sig }
{}

/// Four facts hold after any step where they held before it. It is known of each mounted unit what
/// it holds. No cursor has another key than its hit. No two mounted stores have one signature. Each
/// store that a unit has or may have is valid, where the words of the command have their forms.
pub fn worlds_stand_after_steps()
    ensures sure { (w : World) (c : IsCommand) (v : World) (r : Reply) → MountedSure w
        → Step w c v r → MountedSure v }
    ensures settled { (w : World) (c : IsCommand) (v : World) (r : Reply) → MountedSure w
        → IsSettled w → Step w c v r → IsSettled v }
    ensures apart { (w : World) (c : IsCommand) (v : World) (r : Reply) → MountedSure w
        → MountedApart w → Step w c v r → MountedApart v }
    ensures valid { (w : World) (c : IsCommand) (v : World) (r : Reply) → AllValid w
        → IsTrue (has_form c) → Step w c v r → AllValid v }
{}
