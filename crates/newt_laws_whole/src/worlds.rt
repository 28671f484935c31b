//! Laws of the world in the whole where devices may fail, after each step and each run.
ghost use Rattle.std.specs.Prelude.{ℕ, ◌≡◌, ◌⊎◌, ◌≤◌, true, false, IsTrue, List, Option, Some};
ghost use Rattle.newt_laws_steps.specs.Steps.{IsQuiet, WorldMayBeLater};
ghost use Rattle.newt_laws_whole.specs.Runs.{AllFormed, DraftsFit, IsSound};
ghost use Rattle.newt_laws_whole.specs.Steps.{WorldStep, noting, notes_after};
ghost use Rattle.newt_laws_world.specs.Scripts.{ItemHasForm};
ghost use Rattle.newt_laws_world.specs.Worlds.{has_form, is_plain};
ghost use Rattle.newt_spec_graph.specs.Lists.{Each};
ghost use Rattle.newt_spec_script.specs.Rows.{IsRun, Row, world_at, last_world};
ghost use Rattle.newt_spec_script.specs.Script.{Item as IsItem};
ghost use Rattle.newt_spec_store.specs.OfImage.{blocks_of};
ghost use Rattle.newt_spec_store.specs.Store.{Store};
ghost use Rattle.newt_spec_store.specs.Valid.{valid};
ghost use Rattle.newt_spec_whole.specs.Answer.{whole_answer};
ghost use Rattle.newt_spec_whole.specs.First.{whole_of};
ghost use Rattle.newt_spec_whole.specs.Step.{WholeStep};
ghost use Rattle.newt_spec_whole.specs.Whole.{Whole};
ghost use Rattle.newt_spec_world.specs.Reply.{Reply};
ghost use Rattle.newt_spec_world.specs.Step.{Step};
ghost use Rattle.newt_spec_world.specs.declared.command.Command.{Command as IsCommand};

/// A step of the whole by a command of the world is the world's step, with the notes that the world
/// after it shows. A command of watches and copies whose reply names no failed device is answered
/// as the whole answers it. Whatever fails, the world stays, or makes one step by a command that is
/// asked of it.
pub fn whole_steps_are_steps_of_the_world()
    ensures plain { (h : Whole) (c : IsCommand) (v : Whole) (r : Reply) → is_plain c ≡ true
        → WholeStep h c v r → Step h.world c v.world r
        × (v ≡ noting h v.world (notes_after h.world c v.world r)) }
    ensures others { (h : Whole) (c : IsCommand) (v : Whole) (r : Reply) → is_plain c ≡ false
        → WholeStep h c v r → IsQuiet r → whole_answer h c ≡ (v, r) }
    ensures world { (h : Whole) (c : IsCommand) (v : Whole) (r : Reply) → AllFormed h.world
        → DraftsFit h.copies → WholeStep h c v r → (v.world ≡ h.world) ⊎ WorldStep h c v }
{}

/// Once a unit has a store, or one of two, it has a later state of one of them, whatever the whole
/// is asked and whatever fails. So it is from each world of a run to each later one.
pub fn whole_runs_keep_ids()
    ensures step { (h : Whole) (c : IsCommand) (v : Whole) (r : Reply) → WholeStep h c v r
        → WorldMayBeLater h.world v.world }
    ensures run { (h : Whole) (items : List IsItem) (rows : List (Row Whole))
        → IsRun WholeStep h items rows → WorldMayBeLater h.world (last_world h rows).world }
    ensures between { (h : Whole) (items : List IsItem) (rows : List (Row Whole)) (k m : ℕ)
        → IsRun WholeStep h items rows → k ≤ m
        → WorldMayBeLater (world_at h rows k).world (world_at h rows m).world }
{}

/// A whole is sound at the start of a run over images that are read as valid stores. It stays so in
/// each step, whatever fails, and so in each run, where the words of the commands have their forms.
pub fn wholes_stay_sound()
    ensures first { (reads : List ℕ → Option Store) (held : List ℕ → Option (List ℕ))
        (names : List (List ℕ)) → ((image : List ℕ) (s : Store) → reads image ≡ Some s
        → IsTrue (valid (blocks_of image) s)) → IsSound (whole_of reads held names) }
    ensures step { (h : Whole) (c : IsCommand) (v : Whole) (r : Reply) → IsSound h
        → IsTrue (has_form c) → WholeStep h c v r → IsSound v }
    ensures run { (h : Whole) (items : List IsItem) (rows : List (Row Whole)) (k : ℕ) → IsSound h
        → Each ItemHasForm items → IsRun WholeStep h items rows → IsSound (world_at h rows k) }
    ensures formed { (h : Whole) → IsSound h → AllFormed h.world }
{}
