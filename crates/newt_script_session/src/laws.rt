//! Laws of scripts.
ghost use Rattle.std.specs.Prelude.{◌≡◌, ℕ, List};
ghost use Rattle.newt_host.specs.Outside.{Rose};
ghost use Rattle.newt_laws_steps.specs.Steps.{AllSure};
ghost use Rattle.newt_laws_steps.specs.Thrown.{RowsThrew};
ghost use Rattle.newt_script.specs.Graphs.{readers};
ghost use Rattle.newt_script_session.specs.Lines.{lines_of};
ghost use Rattle.newt_script_session.specs.Script.{commands_of};
ghost use Rattle.newt_spec_script.specs.Rows.{IsRun, Row, replies_of, last_world};
ghost use Rattle.newt_spec_script.specs.Script as plain;
ghost use Rattle.newt_spec_whole.specs.Answer.{whole_answer};
ghost use Rattle.newt_spec_whole.specs.Step.{WholeStep};
ghost use Rattle.newt_spec_whole.specs.Whole.{Whole};

/// The lines that are answered are those of the definitions of a script, with the readings that the
/// code has; and so are their items, up to a quit.
pub fn lines_are_spelled()
    ensures lines { (script : List ℕ) → lines_of script ≡ plain.lines script }
    ensures items { (script : List ℕ)
        → commands_of (lines_of script) ≡ plain.up_to_quit (plain.items_of readers script) }
{}

/// A run over devices that did not fail is that of the plain world. Let it be known what each unit
/// holds, let no count of the faults of a device have risen, and let the replies tell no more
/// faults than these counts. Then the run's worlds and replies are what the plain world, with its
/// watches and working copies, answers to the items one after another.
pub fn faultless_runs_are_plain()
    ensures world { (world : Whole) (items : List plain.Item) (rows : List (Row Whole))
        (was is : ℕ → ℕ) → AllSure world.world → IsRun WholeStep world items rows
        → RowsThrew rows was is → ((unit : ℕ) → ¬ Rose (was unit) (is unit))
        → last_world world rows ≡ plain.world_after whole_answer world items }
    ensures replies { (world : Whole) (items : List plain.Item) (rows : List (Row Whole))
        (was is : ℕ → ℕ) → AllSure world.world → IsRun WholeStep world items rows
        → RowsThrew rows was is → ((unit : ℕ) → ¬ Rose (was unit) (is unit))
        → replies_of rows ≡ plain.replies_to whole_answer world items }
{}
