//! Commands that open, move, show or close a cursor.
ghost use Rattle.std.specs.Prelude.{◌≡◌, true};
ghost use Rattle.newt_laws_world.specs.Cursors.{uses_cursors};
ghost use Rattle.newt_engine.specs.Calls.{Served, Walked};
ghost use Rattle.newt_engine.specs.Groups.{on_place};
ghost use Rattle.newt_engine.specs.Standing.{CursorsFit, IsStanding, UnitsStand};

use crate::replies::{done, numbered, opened, shown, sided};
use crate::world::World;
use newt_base::Refusal;
use newt_engine_card::Card;
use newt_host::Host;
use newt_reply::Reply;
use newt_script::Command;
use newt_store_change::StoreFault;

impl<C: Card> World<C> {
    /// Obeys a command that opens, moves, shows or closes a cursor.
    pub(crate) fn obey_on_cursor<H: Host>(
        &mut self,
        host: &mut H,
        command: &Command,
    ) -> Result<Reply, StoreFault>
        requires stands { IsStanding C.reads C.place C.stands H.told self.old
            (H.outside host.old) }
        requires on_cursor { uses_cursors command.now ≡ true }
        ensures { Served C.reads C.place C.stands H.told command.now self.old self.new
            (H.outside host.old) (H.outside host.new) result }
    {
        self.walk(host, command)
    }

    /// Moves or shows a cursor, or opens or closes one.
    fn walk<H: Host>(&mut self, host: &mut H, command: &Command) -> Result<Reply, StoreFault>
        requires desk { CursorsFit self.old }
        requires stands { UnitsStand C.place C.stands H.told self.old (H.outside host.old) }
        requires on_cursor { uses_cursors command.now ≡ true }
        ensures { Walked C.reads C.place C.stands H.told command.now self.old self.new
            (H.outside host.old) (H.outside host.new) result }
    {
        let World { units, desk } = self;
        match command {
            Command::Entry(cursor) => shown(newt_engine_cursors::entry(units, desk, host, *cursor)),
            Command::Next(cursor) => shown(newt_engine_cursors::next(units, desk, host, *cursor)),
            Command::Prev(cursor) => shown(newt_engine_cursors::prev(units, desk, host, *cursor)),
            Command::Reset(cursor) => shown(newt_engine_cursors::reset(units, desk, host, *cursor)),
            Command::End(cursor) => shown(newt_engine_cursors::end(units, desk, host, *cursor)),
            Command::Moveby(cursor, by) => {
                shown(newt_engine_cursors::moveby(units, desk, host, *cursor, *by))
            }
            Command::Goto(cursor, unit, uid) => {
                shown(newt_engine_cursors::go_to(units, desk, host, *cursor, *unit, *uid))
            }
            Command::Gotokey(cursor, graph) => {
                shown(newt_engine_cursors::go_to_key(units, desk, host, *cursor, graph))
            }
            _ => self.change_places(host, command),
        }
    }

    /// Opens, counts, clones or closes a cursor, or tells its side.
    fn change_places<H: Host>(
        &mut self,
        host: &mut H,
        command: &Command,
    ) -> Result<Reply, StoreFault>
        requires desk { CursorsFit self.old }
        requires stands { UnitsStand C.place C.stands H.told self.old (H.outside host.old) }
        requires on_place { on_place command.now ≡ true }
        ensures { Walked C.reads C.place C.stands H.told command.now self.old self.new
            (H.outside host.old) (H.outside host.new) result }
    {
        let World { units, desk } = self;
        match command {
            Command::Query(unit, name, graph) => {
                opened(newt_engine_cursors::query(units, desk, host, *unit, name, graph))
            }
            Command::QueryAll(name, graph) => {
                opened(newt_engine_cursors::query_all(units, desk, host, name, graph))
            }
            Command::Count(cursor) => numbered(newt_engine_cursors::count(
                units, desk, host, *cursor,
            )),
            Command::Which(cursor) => sided(newt_engine_cursors::which(desk, *cursor)),
            Command::Clone(cursor) => opened(newt_engine_cursors::clone_of(desk, *cursor)),
            Command::Close(cursor) => done(newt_engine_cursors::close(desk, *cursor)),
            _ => Err(StoreFault::Refused(Refusal::Command)),
        }
    }
}
