//! Laws of watches.
ghost use Rattle.std.specs.Prelude.{ℕ, ◌≡◌, List, [], Some};
ghost use Rattle.newt_laws_whole.specs.Since.{IsDone};
ghost use Rattle.newt_laws_whole.specs.Steps.{notes_of};
ghost use Rattle.newt_laws_whole.specs.Told.{told_to, entries_on};
ghost use Rattle.newt_notify.specs.Watch.{Watching, emptied};
ghost use Rattle.newt_spec_whole.specs.Answer.{notes_reply, whole_answer};
ghost use Rattle.newt_spec_whole.specs.Whole.{Whole, watch};
ghost use Rattle.newt_spec_world.specs.Answer.{answer};
ghost use Rattle.newt_spec_world.specs.World.{World};
ghost use Rattle.newt_spec_world.specs.declared.command.Command.{Command as IsCommand};
ghost use Rattle.newt_spec_world.specs.declared.command.Command.TheVariants as command;

/// A watch that is asked for its notes answers the last of them and the number of those that are
/// lost, and has none afterwards.
pub fn notes_are_taken_once()
    ensures { (h : Whole) (n : ℕ) (w : Watching) → IsDone h (command.Notes n) → watch h n ≡ Some w
        → (watch (whole_answer h (command.Notes n)).0 n ≡ Some (emptied w))
        × ((whole_answer h (command.Notes n)).1 ≡ notes_reply w) }
{}

/// A soup of whose name a command gives no note has the entries that it had, on each unit, and is
/// there exactly where it was.
pub fn what_changes_is_told()
    ensures { (w : World) (c : IsCommand) (u : ℕ) (name : List ℕ)
        → told_to name (notes_of w c) ≡ [] → entries_on (answer w c).0 u name ≡ entries_on w u name }
{}
