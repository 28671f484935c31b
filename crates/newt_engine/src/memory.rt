//! Commands that use no device.
ghost use Rattle.std.specs.Prelude.{◌≡◌, false};
ghost use Rattle.newt_engine.specs.Calls.{ObeyedInMemory};
ghost use Rattle.newt_engine.specs.Ends.{uses_device};
ghost use Rattle.newt_engine.specs.Groups.{is_shown};
ghost use Rattle.newt_laws_world.specs.Cursors.{uses_cursors};

use crate::replies::{alias_of, done, literal, place, soup_rows, spec_rows, tag_row};
use crate::world::World;
use newt_engine_card::Card;
use newt_engine_commands as commands;
use newt_reply::Reply;
use newt_script::Command;
use newt_store_change::StoreFault;

impl<C: Card> World<C> {
    /// Obeys a command that uses no device and shows no given graph.
    pub(crate) fn obey_in_memory(&mut self, command: &Command) -> Result<Reply, StoreFault>
        requires not_shown { is_shown command.now ≡ false }
        requires no_device { uses_device command.now ≡ false }
        requires no_cursor { uses_cursors command.now ≡ false }
        ensures { ObeyedInMemory C.reads C.place C.stands command.now self.old self.new result }
    {
        match command {
            Command::Time(minute) => {
                self.units.set_minute(*minute);
                Ok(Reply::Done)
            }
            Command::Quit => Ok(Reply::Done),
            Command::Unmount(unit) => done(self.units.unmount(*unit)),
            Command::Stores => Ok(Reply::Stores(self.units.stores()?)),
            Command::Default(unit) => done(self.units.set_default(*unit)),
            Command::Soups(unit) => soup_rows(self.units.soups(*unit)),
            Command::Indexes(unit, name) => {
                spec_rows(commands::indexes(&self.units, *unit, name))
            }
            Command::Tags(unit, name) => tag_row(commands::tags(&self.units, *unit, name)),
            Command::Info(unit, name) => literal(commands::info(&self.units, *unit, name)),
            Command::Alias(unit, name, uid) => {
                alias_of(commands::alias(&self.units, *unit, name, *uid), *uid)
            }
            Command::Resolve(graph) => place(self.units.resolve(graph)),
            // `watch` to `discard`: never asked of the world, which would do nothing
            _ => Ok(Reply::Done),
        }
    }
}
