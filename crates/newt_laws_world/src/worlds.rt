//! Laws of the world under commands.
ghost use Rattle.std.specs.Prelude.{ℕ, ◌≡◌, List, IsTrue, Option, Some, false};
ghost use Rattle.newt_spec_store.specs.Store.{Store};
ghost use Rattle.newt_spec_store.specs.OfImage.{blocks_of};
ghost use Rattle.newt_spec_world.specs.First.{world_of};
ghost use Rattle.newt_spec_store.specs.Valid.{valid};
ghost use Rattle.newt_spec_world.specs.World.{World};
ghost use Rattle.newt_spec_world.specs.Answer.{answer, after};
ghost use Rattle.newt_spec_world.specs.declared.command.Command.{Command as IsCommand};
ghost use Rattle.newt_spec_world.specs.Changed.{changed};
ghost use Rattle.newt_laws_world.specs.Settled.{IsSettled, MountedApart, moves_keys};
ghost use Rattle.newt_laws_world.specs.Worlds.{AllValid, has_form};
ghost use Rattle.newt_spec_graph.specs.Lists.{Each};

/// A command whose words have their forms leaves every store valid, where all were.
pub fn stores_stay_valid()
    ensures { (w : World) (c : IsCommand) → AllValid w → IsTrue (has_form c)
        → AllValid (answer w c).0 }
{}

/// After each command the cursors show the present keys, where they did before.
pub fn worlds_stay_settled()
    ensures { (w : World) (c : IsCommand) → IsSettled w → IsSettled (answer w c).0 }
{}

/// In a settled world, a command that moves no key leaves nothing to settle. Most commands are
/// such.
pub fn few_commands_move_keys()
    ensures { (w : World) (c : IsCommand) → AllValid w → MountedApart w → IsSettled w
        → moves_keys c ≡ false → IsSettled (changed w c) }
{}

/// No two mounted stores have one signature after a command, where none had before.
pub fn signatures_stay_apart()
    ensures { (w : World) (c : IsCommand) → MountedApart w → MountedApart (answer w c).0 }
{}

/// What holds of a world holds of all later worlds of its run. Its stores are valid, where the
/// words of the commands have their forms. Its cursors show the present keys. No two mounted stores
/// have one signature.
pub fn runs_keep_all()
    ensures valid { (w : World) (cs : List IsCommand) → AllValid w
        → Each (λ c. IsTrue (has_form c)) cs → AllValid (after w cs) }
    ensures settled { (w : World) (cs : List IsCommand) → IsSettled w → IsSettled (after w cs) }
    ensures apart { (w : World) (cs : List IsCommand) → MountedApart w → MountedApart (after w cs) }
{}

/// What holds of the first world of a run, where images are read as valid stores.
pub fn first_worlds_keep_all()
    ensures valid { (store_of_image : List ℕ → Option Store) (held : List ℕ → Option (List ℕ))
        (names : List (List ℕ))
        → ((image : List ℕ) (s : Store) → store_of_image image ≡ Some s
        → IsTrue (valid (blocks_of image) s)) → AllValid (world_of store_of_image held names) }
    ensures settled { (store_of_image : List ℕ → Option Store) (held : List ℕ → Option (List ℕ))
        (names : List (List ℕ)) → IsSettled (world_of store_of_image held names) }
    ensures apart { (store_of_image : List ℕ → Option Store) (held : List ℕ → Option (List ℕ))
        (names : List (List ℕ)) → MountedApart (world_of store_of_image held names) }
{}
