//! Laws of the world in the whole: it goes through worlds of a run of its own commands.
ghost use Rattle.std.specs.Prelude.{ℕ, ◌≡◌, true, Some, None};
ghost use Rattle.newt_laws_whole.specs.Runs.{CanBeEntry, AllFormed, DraftsFit};
ghost use Rattle.newt_laws_whole.specs.Since.{IsDone};
ghost use Rattle.newt_laws_whole.specs.Steps.{notes_of, noting};
ghost use Rattle.newt_laws_world.specs.Worlds.{is_plain};
ghost use Rattle.newt_spec_whole.specs.Answer.{whole_answer};
ghost use Rattle.newt_spec_whole.specs.Whole.{Whole, copy, living, asks, change_of};
ghost use Rattle.newt_spec_world.specs.Alias.{Spot};
ghost use Rattle.newt_spec_world.specs.Answer.{answer};
ghost use Rattle.newt_spec_world.specs.declared.command.Command.{Command as IsCommand};
ghost use Rattle.newt_spec_world.specs.declared.command.Command.TheVariants as command;
ghost use Rattle.newt_work.specs.Work.{Copy};

/// A command that is not of watches and copies is answered as the world answers it, and its notes
/// are given.
pub fn plain_commands()
    ensures { (h : Whole) (c : IsCommand) → is_plain c ≡ true → let a = answer h.world c in
        whole_answer h c ≡ (noting h a.0 (notes_of h.world c), a.1) }
{}

/// A command that asks nothing of the world leaves it.
pub fn other_commands()
    ensures { (h : Whole) (c : IsCommand) → asks h c ≡ None
        → (whole_answer h c).0.world ≡ h.world }
{}

/// A save that is done is answered by the world as the change of the entry to the draft.
pub fn saves_are_changes()
    ensures { (h : Whole) (n : ℕ) (k : Copy) → AllFormed h.world → CanBeEntry k.draft
        → IsDone h (command.Save n) → copy h n ≡ Some k
        → (s : Spot) × (living h k ≡ Some s) × ((whole_answer h (command.Save n)).0.world
        ≡ (answer h.world (change_of k s)).0) }
{}

/// Each copy's draft stays one that can be the graph of an entry.
pub fn drafts_stay_fit()
    ensures { (h : Whole) (c : IsCommand) → AllFormed h.world → DraftsFit h.copies
        → DraftsFit (whole_answer h c).0.copies }
{}
