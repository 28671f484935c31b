//! Laws of scripts.
ghost use Rattle.std.specs.Prelude.{ℕ, List};
ghost use Rattle.newt_spec_graph.specs.Lists.{Each};
ghost use Rattle.newt_spec_world.specs.World.{World};
ghost use Rattle.newt_spec_script.specs.Script.{Item as IsItem, Readers, items_of, world_after};
ghost use Rattle.newt_spec_world.specs.Answer.{answer};
ghost use Rattle.newt_laws_world.specs.Scripts.{ReadsWithin, ItemHasForm};
ghost use Rattle.newt_laws_world.specs.Settled.{IsSettled, MountedApart};
ghost use Rattle.newt_laws_world.specs.Worlds.{AllValid};

/// The commands of a script have the forms of their words, where literals and streams are read as
/// graphs within the limits.
pub fn commands_have_their_forms()
    ensures { (rs : Readers) (script : List ℕ) → ReadsWithin rs
        → Each ItemHasForm (items_of rs script) }
{}

/// What holds of a world holds of all later worlds of a script. Its stores are valid, where the
/// words of the commands have their forms. Its cursors show the present keys. No two mounted stores
/// have one signature.
pub fn scripts_keep_all()
    ensures valid { (w : World) (items : List IsItem) → AllValid w → Each ItemHasForm items
        → AllValid (world_after answer w items) }
    ensures settled { (w : World) (items : List IsItem) → IsSettled w
        → IsSettled (world_after answer w items) }
    ensures apart { (w : World) (items : List IsItem) → MountedApart w
        → MountedApart (world_after answer w items) }
{}
