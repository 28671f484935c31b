//! Laws of lines.
ghost use Rattle.std.specs.Prelude.{◌≡◌, ℕ, List, Ok, Some, IsTrue};
ghost use Rattle.newt_laws_world.specs.Worlds.{has_form};
ghost use Rattle.newt_script.specs.Defined.{ReadsLiteral};
ghost use Rattle.newt_script.specs.Graphs.{readers};
ghost use Rattle.newt_script.specs.Lines.{line_command};
ghost use Rattle.newt_spec_nsof.specs.Text.{Spells, SpellsWide};
ghost use Rattle.newt_spec_script.specs.Script.{IsScript, Item, items_of};
ghost use Rattle.newt_spec_world.specs.declared.command.Command as asked;

/// A command that a line gives has the form of its words: each literal and each object stream in it
/// is a graph within the limits.
pub fn commands_have_their_forms()
    ensures { (line : List ℕ) (c : asked.Command) → line_command line ≡ Ok (Some c)
        → IsTrue (has_form c) }
{}

/// A script gives just the items that the two grammars say, and no others. A literal is the graph
/// that its text is a literal of, and is refused only where it is a literal of none. An object
/// stream is the graph that it spells. It is compressed where it spells one but for a flag, and
/// otherwise malformed.
pub fn scripts_are_read_as_defined()
    ensures read { (script : List ℕ)
        → IsScript ReadsLiteral Spells SpellsWide script (items_of readers script) }
    ensures only { (script : List ℕ) (items : List Item)
        → IsScript ReadsLiteral Spells SpellsWide script items → items ≡ items_of readers script }
{}
