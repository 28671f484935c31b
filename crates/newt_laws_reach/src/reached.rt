//! Laws of the cursors that a command reaches.
ghost use Rattle.std.specs.Prelude.{◌≡◌, false};
ghost use Rattle.newt_spec_world.specs.World.{World, settle};
ghost use Rattle.newt_spec_world.specs.declared.command.Command.{Command as IsCommand};
ghost use Rattle.newt_spec_world.specs.Changed.{changed};
ghost use Rattle.newt_laws_world.specs.Settled.{IsSettled, MountedApart, moves_keys};
ghost use Rattle.newt_laws_world.specs.Worlds.{AllValid};
ghost use Rattle.newt_laws_reach.specs.Reach.{nowhere, reach, settle_reached};

/// From a settled world, only the cursors that a command reaches have to be settled after it. A
/// command that moves no key reaches none.
pub fn commands_reach_few_cursors()
    ensures reached { (w : World) (c : IsCommand) → AllValid w → MountedApart w → IsSettled w
        → settle (changed w c) ≡ settle_reached (reach w c) (changed w c) }
    ensures none { (w : World) (c : IsCommand) → moves_keys c ≡ false
        → reach w c ≡ nowhere }
{}
