//! What an engine promises for one command.
ghost use Rattle.std.specs.Prelude.{◌≡◌, ◌≤◌, ℕ, List, Bool, true, Option, None, length, map};
ghost use Rattle.std.specs.Prelude.{IsTrue, IfOk, OnOk, string_bytes};
ghost use Rattle.newt_host.specs.Meanings.{held};
ghost use Rattle.newt_host.specs.Moments.{MayLeave};
ghost use Rattle.newt_host.specs.Outside.{Outside, OnDevices};
ghost use Rattle.newt_host_attach.specs.Named.{AreAttached, AreDistinct};
ghost use Rattle.newt_laws_steps.specs.Answering.{ReadsOneOf};
ghost use Rattle.newt_laws_world.specs.Worlds.{has_form};
ghost use Rattle.newt_laws_steps.specs.Devices.{SameDevices};
ghost use Rattle.newt_script_session.specs.Steps.{Stepped};
ghost use Rattle.newt_spec_graph.specs.Lists.{Among};
ghost use Rattle.newt_spec_store.specs.Store.{Store};
ghost use Rattle.newt_spec_whole.specs.First.{whole_of};
ghost use Rattle.newt_spec_world.specs.Reply as plain;
ghost use Rattle.newt_spec_whole.specs.Whole.{Whole, stores_on};
ghost use Rattle.newt_spec_world.specs.declared.command.Command as asked;

use newt_host::Host;
use newt_reply::Reply;
use newt_script::Command;
use std::alloc::{AllocError, Global};

/// What answers commands over the devices of a host. It and the devices stand for a world, with
/// watches and working copies beside it. Where they do not tell all of it, they stand for several.
pub trait Interpreter: Sized + Drop {
    /// The store that an image is read as.
    ghost store_of_image: { List ℕ → Option Store };

    /// How a command may turn one world into the next, and what is replied.
    ghost step: { Whole → asked.Command → Whole → plain.Reply → Type 0 };

    /// It stands for the devices of a host, which tells bytes or does not.
    ghost stands: { Bool → Self → Outside → Type 0 };

    /// It stands for this world, perhaps among others.
    ghost means: { Self → Outside → Whole → Type 0 };

    /// Attaches the devices of the names, each to the unit of its place. It begins with them, and
    /// nothing is mounted.
    fn new<H: Host>(alloc: Global, host: &mut H, names: &[String]) -> Result<Self, AllocError>
        requires few { length names.now ≤ 8 }
        requires distinct { AreDistinct (map string_bytes names.now) }
        requires free { (unit : ℕ) → (H.outside host.old).card unit ≡ None }
        ensures stands { IfOk result (λ it. stands H.told it (H.outside host.new)) }
        ensures world { IsTrue H.told → IfOk result (λ it. means it (H.outside host.new)
            (whole_of store_of_image (held (H.outside host.old)) (map string_bytes names.now))) }
        ensures attached { AreAttached H.told (map string_bytes names.now)
            (H.outside host.old) (H.outside host.new) };

    /// Answers one command, by a step from each world that it stands for. A device that fails does
    /// not end the run: its unit is thrown out, and the reply says so. The error is that memory was
    /// refused; after it the interpreter is spent.
    fn apply<H: Host>(&mut self, host: &mut H, command: Command) -> Result<Reply, AllocError>
        requires stands { stands H.told self.old (H.outside host.old) }
        requires form { IsTrue (has_form command) }
        ensures stands { OnOk result (stands H.told self.new (H.outside host.new)) }
        ensures stepped { IsTrue H.told → (world : Whole) → means self.old (H.outside host.old) world
            → Stepped step store_of_image command result world
            (means self.new (H.outside host.new)) (H.outside host.old).now (H.outside host.new).now
            (H.outside host.old).dev_faults (H.outside host.new).dev_faults }
        ensures alone { OnDevices (H.outside host.old) (H.outside host.new) };

    /// It stands for some world.
    ghost has_world: { (it : Self) (outside : Outside) → stands true it outside
        → (world : Whole) × means it outside world };

    /// Where no device has changed, it stands as before.
    ghost kept: { (told : Bool) (it : Self) (old new : Outside) → SameDevices told old new
        → stands told it old → stands told it new };

    /// It then stands for the same worlds.
    ghost same_worlds: { (it : Self) (old new : Outside) (world : Whole)
        → SameDevices true old new → means it old world → means it new world };

    /// Between two commands a crash leaves each unit that has a store, or one of two, as one of
    /// these.
    ghost leaves: { (it : Self) (outside : Outside) (world : Whole) → stands true it outside
        → means it outside world → (unit : ℕ) (store : Store) (left : List ℕ)
        → Among (stores_on world unit) store → MayLeave unit outside.now left
        → ReadsOneOf store_of_image (stores_on world unit) left };
}
