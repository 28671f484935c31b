//! Laws of the commands that use no cursor.
ghost use Rattle.std.specs.Prelude.{◌≡◌, List, IsTrue, Option, None, false};
ghost use Rattle.newt_spec_query.specs.Cursor.{Cursor};
ghost use Rattle.newt_spec_world.specs.declared.command.Command.{Command as IsCommand};
ghost use Rattle.newt_spec_world.specs.World.{World, settle};
ghost use Rattle.newt_spec_world.specs.Changed.{changed};
ghost use Rattle.newt_spec_world.specs.Refused.{checks};
ghost use Rattle.newt_spec_world.specs.Answer.{answer, answered, fields};
ghost use Rattle.newt_laws_world.specs.Cursors.{with_cursors, all_closed, uses_cursors};

/// A command that uses no cursor is refused, changes and replies the same whatever cursors are
/// open.
pub fn other_commands_see_no_cursors()
    ensures checks { (ks : List (Option Cursor)) (w : World) (c : IsCommand)
        → uses_cursors c ≡ false → checks (with_cursors ks w) c ≡ checks w c }
    ensures changed { (ks : List (Option Cursor)) (w : World) (c : IsCommand)
        → uses_cursors c ≡ false
        → changed (with_cursors ks w) c ≡ with_cursors ks (changed w c) }
    ensures kept { (w : World) (c : IsCommand) → uses_cursors c ≡ false
        → (changed w c).cursors ≡ w.cursors }
    ensures fields { (ks ls : List (Option Cursor)) (w v : World) (c : IsCommand)
        → uses_cursors c ≡ false
        → fields (with_cursors ks w) (with_cursors ls v) c ≡ fields w v c }
{}

/// Such a command is answered as it is where no cursor is open, and then those that are open are
/// settled.
pub fn other_commands_are_answered_without_cursors()
    ensures any { (ks : List (Option Cursor)) (w : World) (c : IsCommand) → uses_cursors c ≡ false
        → answered (with_cursors ks w) c None ≡ (
          settle (with_cursors ks (changed w c)),
          (answered w c None).1,
        ) }
    ensures closed { (w : World) (c : IsCommand) → uses_cursors c ≡ false → IsTrue (all_closed w)
        → answered w c None ≡ (changed w c, fields w (changed w c) c) }
    ensures whole { (ks : List (Option Cursor)) (w : World) (c : IsCommand) → uses_cursors c ≡ false
        → IsTrue (all_closed w)
        → settle (with_cursors ks w) ≡ with_cursors ks w → answer (with_cursors ks w) c
        ≡ (settle (with_cursors ks (answer w c).0), (answer w c).1) }
    ensures settled { (w : World) → IsTrue (all_closed w) → settle w ≡ w }
{}
