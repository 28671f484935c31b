//! Commands with the cursors settled after them.
ghost use Rattle.std.specs.Prelude.{◌≡◌, false, true};
ghost use Rattle.newt_laws_effects.specs.Tells.{is_mount, is_of_stores};
ghost use Rattle.newt_laws_world.specs.Cursors.{uses_cursors};
ghost use Rattle.newt_laws_world.specs.Worlds.{has_form};
ghost use Rattle.newt_spec_world.specs.declared.command.Command.{Command as Asked};
ghost use Rattle.newt_engine_cursors.specs.Reached.{seen_reach};
ghost use Rattle.newt_engine.specs.Calls.{Served, Settles};
ghost use Rattle.newt_engine.specs.Groups.{is_between};
ghost use Rattle.newt_engine.specs.Standing.{CursorsFit, IsStanding, UnitsStand};

use crate::replies::{told, words_of};
use crate::world::World;
use newt_engine_card::Card;
use newt_engine_commands as commands;
use newt_engine_commands::changes_stores;
use newt_engine_cursors::{Reach, reach_of, settle_reached};
use newt_host::{Host, Unit};
use newt_reply::Reply;
use newt_script::Command;
use newt_store_change::StoreFault;

impl<C: Card> World<C> {
    /// Obeys a command, with the cursors. A fault is its refusal, or the end of the run.
    pub(crate) fn serve<H: Host>(
        &mut self,
        host: &mut H,
        command: Command,
    ) -> Result<Reply, StoreFault>
        requires stands { IsStanding C.reads C.place C.stands H.told self.old
            (H.outside host.old) }
        requires form { has_form command ≡ true }
        ensures { Served C.reads C.place C.stands H.told command self.old self.new
            (H.outside host.old) (H.outside host.new) result }
    {
        if is_on_cursor(&command) {
            let served = self.obey_on_cursor(host, &command);
            // Let go here as one value: else each exit lets go of each variant's parts.
            drop(command);
            served
        } else {
            self.obey_with_cursors(host, command)
        }
    }

    /// Obeys a command that uses no cursor, and settles the cursors where keys may have changed.
    fn obey_with_cursors<H: Host>(
        &mut self,
        host: &mut H,
        command: Command,
    ) -> Result<Reply, StoreFault>
        requires stands { IsStanding C.reads C.place C.stands H.told self.old
            (H.outside host.old) }
        requires no_cursor { uses_cursors command ≡ false }
        requires form { has_form command ≡ true }
        ensures { Served C.reads C.place C.stands H.told command self.old self.new
            (H.outside host.old) (H.outside host.new) result }
    {
        match command {
            Command::Move(unit, name, uid, to, target) => {
                if unit == to {
                    self.obey_and_settle(host, Command::Move(unit, name, uid, to, target))
                } else {
                    self.move_between(host, unit, &name, uid, to, &target)
                }
            }
            Command::Mount(unit) => self.mount_and_settle(host, unit),
            other => self.obey_and_settle(host, other),
        }
    }

    /// Mounts the store of a unit, and settles the cursors on its entries.
    fn mount_and_settle<H: Host>(&mut self, host: &mut H, unit: Unit) -> Result<Reply, StoreFault>
        requires stands { IsStanding C.reads C.place C.stands H.told self.old
            (H.outside host.old) }
        ensures { Served C.reads C.place C.stands H.told (Asked.Mount unit) self.old self.new
            (H.outside host.old) (H.outside host.new) result }
    {
        match self.units.mount(host, unit) {
            Ok((store, name)) => {
                self.settled(host, &Reach::Store(store), Reply::Store(store, name))
            }
            Err(fault) => Err(fault),
        }
    }

    /// Obeys a command that uses no cursor, mounts nothing and moves nothing to another store, and
    /// settles the cursors where it changes a store.
    fn obey_and_settle<H: Host>(
        &mut self,
        host: &mut H,
        command: Command,
    ) -> Result<Reply, StoreFault>
        requires stands { IsStanding C.reads C.place C.stands H.told self.old
            (H.outside host.old) }
        requires no_cursor { uses_cursors command ≡ false }
        requires no_mount { is_mount command ≡ false }
        requires within { is_between command ≡ false }
        requires form { has_form command ≡ true }
        ensures { Served C.reads C.place C.stands H.told command self.old self.new
            (H.outside host.old) (H.outside host.new) result }
    {
        if changes_stores(&command) {
            self.change_and_settle(host, command)
        } else {
            self.obey(host, command)
        }
    }

    /// Obeys a command that changes one store, and settles the cursors on what it did there.
    fn change_and_settle<H: Host>(
        &mut self,
        host: &mut H,
        command: Command,
    ) -> Result<Reply, StoreFault>
        requires stands { IsStanding C.reads C.place C.stands H.told self.old
            (H.outside host.old) }
        requires no_cursor { uses_cursors command ≡ false }
        requires of_stores { is_of_stores command ≡ true }
        requires within { is_between command ≡ false }
        requires form { has_form command ≡ true }
        ensures { Served C.reads C.place C.stands H.told command self.old self.new
            (H.outside host.old) (H.outside host.new) result }
    {
        let words = words_of(&command);
        match commands::obey(&mut self.units, host, command) {
            Ok(effect) => {
                let reach = reach_of(&self.units, &effect);
                self.settled(host, &reach, told(words, effect))
            }
            Err(fault) => Err(fault),
        }
    }

    /// Settles the cursors on what a command with this reply has reached, and hands the reply on.
    pub(crate) fn settled<H: Host>(
        &mut self,
        host: &mut H,
        reach: &Reach,
        reply: Reply,
    ) -> Result<Reply, StoreFault>
        requires stands { UnitsStand C.place C.stands H.told self.old (H.outside host.old) }
        requires desk { CursorsFit self.old }
        ensures { Settles C.reads C.place C.stands H.told (seen_reach reach.now) reply
            self.old self.new (H.outside host.old) (H.outside host.new) result }
    {
        match settle_reached(&mut self.units, &mut self.desk, host, reach) {
            Ok(()) => Ok(reply),
            Err(stop) => {
                drop(reply);
                Err(StoreFault::Stop(stop))
            }
        }
    }
}

/// Whether a command opens, moves, shows or closes a cursor.
#[tactic(auto, unfolding(newt_laws_world::specs::Cursors::uses_cursors))]
fn is_on_cursor(command: &Command) -> bool
    ensures { result ≡ uses_cursors command.now }
{
    matches!(
        command,
        Command::Query(_, _, _)
            | Command::QueryAll(_, _)
            | Command::Entry(_)
            | Command::Next(_)
            | Command::Prev(_)
            | Command::Reset(_)
            | Command::End(_)
            | Command::Moveby(_, _)
            | Command::Goto(_, _, _)
            | Command::Gotokey(_, _)
            | Command::Count(_)
            | Command::Which(_)
            | Command::Clone(_)
            | Command::Close(_)
    )
}
