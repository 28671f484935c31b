//! Laws of steps of the whole, where devices may fail.
ghost use Rattle.std.specs.Prelude.{ℕ, ◌≡◌, true, List, Option};
ghost use Rattle.newt_laws_steps.specs.Steps.{AllSure, AreQuiet, IsQuiet};
ghost use Rattle.newt_laws_whole.specs.Steps.{notes_after, noting};
ghost use Rattle.newt_laws_world.specs.Worlds.{is_plain};
ghost use Rattle.newt_spec_script.specs.Rows.{IsRun, Row, replies_of, last_world};
ghost use Rattle.newt_spec_script.specs.Script.{Item as IsItem, replies_to, world_after};
ghost use Rattle.newt_spec_store.specs.Store.{Store};
ghost use Rattle.newt_spec_whole.specs.Answer.{whole_answer};
ghost use Rattle.newt_spec_whole.specs.First.{whole_of};
ghost use Rattle.newt_spec_whole.specs.Step.{WholeStep};
ghost use Rattle.newt_spec_whole.specs.Whole.{Whole};
ghost use Rattle.newt_spec_world.specs.Reply.{Reply};
ghost use Rattle.newt_spec_world.specs.Step.{Step};
ghost use Rattle.newt_spec_world.specs.World.{World};
ghost use Rattle.newt_spec_world.specs.declared.command.Command.{Command as IsCommand};

/// At the start it is known what each unit holds. Where that is so and no device fails, a step is
/// the answer of the whole, and a run of a script is that of the whole.
pub fn quiet_whole_steps_are_plain()
    ensures first { (reads : List ℕ → Option Store) (held : List ℕ → Option (List ℕ))
        (names : List (List ℕ)) → AllSure (whole_of reads held names).world }
    ensures step { (h : Whole) (c : IsCommand) (v : Whole) (r : Reply) → AllSure h.world
        → WholeStep h c v r → IsQuiet r → whole_answer h c ≡ (v, r) }
    ensures sure { (h : Whole) (c : IsCommand) → AllSure h.world
        → AllSure (whole_answer h c).0.world }
    ensures replies { (h : Whole) (items : List IsItem) (rows : List (Row Whole))
        → AllSure h.world → IsRun WholeStep h items rows → AreQuiet rows
        → replies_of rows ≡ replies_to whole_answer h items }
    ensures world { (h : Whole) (items : List IsItem) (rows : List (Row Whole))
        → AllSure h.world → IsRun WholeStep h items rows → AreQuiet rows
        → last_world h rows ≡ world_after whole_answer h items }
{}

/// Where the world makes a step by a command that is not of watches and copies, the whole makes one
/// too, with the notes that the world after it shows.
pub fn steps_of_the_world_tell_their_notes()
    ensures { (h : Whole) (c : IsCommand) (v : World) (r : Reply) → is_plain c ≡ true
        → Step h.world c v r → WholeStep h c (noting h v (notes_after h.world c v r)) r }
{}
