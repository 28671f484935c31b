//! Commands that use no cursor and change no store that is mounted.
ghost use Rattle.std.specs.Prelude.{◌≡◌, false, true};
ghost use Rattle.newt_laws_effects.specs.Tells.{is_mount, is_of_stores};
ghost use Rattle.newt_laws_world.specs.Worlds.{has_form};
ghost use Rattle.newt_laws_world.specs.Cursors.{uses_cursors};
ghost use Rattle.newt_engine.specs.Calls.{Obeyed};
ghost use Rattle.newt_engine.specs.Standing.{UnitsStand};

use crate::replies::{done, hex, timed, timed_nsof};
use crate::world::World;
use newt_engine_card::Card;
use newt_engine_commands as commands;
use newt_host::Host;
use newt_reply::Reply;
use newt_script::Command;
use newt_store_change::StoreFault;

impl<C: Card> World<C> {
    /// Obeys a command that uses no cursor, changes no store that is mounted and mounts none. A
    /// fault is its refusal, or the end of the run.
    pub(crate) fn obey<H: Host>(
        &mut self,
        host: &mut H,
        command: Command,
    ) -> Result<Reply, StoreFault>
        requires stands { UnitsStand C.place C.stands H.told self.old (H.outside host.old) }
        requires no_cursor { uses_cursors command ≡ false }
        requires no_change { is_of_stores command ≡ false }
        requires no_mount { is_mount command ≡ false }
        requires form { has_form command ≡ true }
        ensures { Obeyed C.reads C.place C.stands H.told command self.old self.new
            (H.outside host.old) (H.outside host.new) result }
    {
        let World { units, .. } = self;
        match command {
            Command::Nsof(graph) => Ok(Reply::Nsof(graph)),
            Command::Lit(graph) => Ok(Reply::Literal(graph)),
            Command::Format(unit, name, sig) => done(units.format(host, unit, &name, sig)),
            Command::Get(unit, name, uid) => timed(commands::get(units, host, unit, &name, uid)),
            Command::Getx(unit, name, uid) => {
                timed_nsof(commands::get(units, host, unit, &name, uid))
            }
            Command::Vread(unit, name, uid, path, at, len) => {
                hex(commands::vread(units, host, unit, &name, uid, &path, at, len))
            }
            other => {
                let obeyed = self.obey_in_memory(&other);
                // Let go here as one value: else each exit lets go of each variant's parts.
                drop(other);
                obeyed
            }
        }
    }
}
