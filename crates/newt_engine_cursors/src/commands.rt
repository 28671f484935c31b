//! The commands that show, count, clone and close a cursor. Where the number is of no open cursor,
//! each is refused as `Cursor`.
ghost use Rattle.std.specs.Prelude.{◌≡◌, IfErr};
ghost use Rattle.newt_cursor.specs.Seen.{place_of};
ghost use Rattle.newt_spec_world.specs.Reply.{Reply};
ghost use Rattle.newt_spec_world.specs.World.{World};
ghost use Rattle.newt_spec_world.specs.declared.command.Command.{Command};
ghost use Rattle.newt_laws_world.specs.Settled.{IsSettled};
ghost use Rattle.newt_store_change.specs.Faults.{IsRefusal, NoDevice};
ghost use Rattle.newt_laws_world.specs.Cursors.{with_cursors};
ghost use Rattle.newt_engine_units.specs.Stands.{Stands};
ghost use Rattle.newt_engine_cursors.specs.Fits.{DeskFits};
ghost use Rattle.newt_engine_units.specs.Answers.{Answers};
ghost use Rattle.newt_engine_cursors.specs.Replies.{shown_reply, side_at, side_reply};
ghost use Rattle.newt_engine_cursors.specs.Calls.{Walks};

use crate::desks::open_cursor;
use crate::show::{Shown, Side, show};
use newt_base::Refusal;
use newt_cursor::{Desk, DeskFault, Place};
use newt_engine_card::Card;
use newt_engine_hits::count_hits;
use newt_engine_units::Units;
use newt_host::Host;
use newt_pagebook::Stop;
use newt_store_change::StoreFault;

/// Shows a cursor.
pub fn entry<C: Card, H: Host>(
    units: &mut Units<C>,
    desk: &mut Desk,
    host: &mut H,
    cursor: u8,
) -> Result<Shown, StoreFault>
    requires stands { Stands C.place C.stands H.told units.old (H.outside host.old) }
    requires desk { DeskFits desk.old }
    ensures { Walks C.reads C.place C.stands H.told (Command.Entry cursor) shown_reply
        units.old units.new desk.old desk.new (H.outside host.old) (H.outside host.new) result }
{
    let Some((query, place)) = open_cursor(desk, cursor) else {
        return Err(StoreFault::Refused(Refusal::Cursor));
    };
    Ok(show(units, host, query, place, false)?)
}

/// The number of the hits of a cursor's query.
pub fn count<C: Card, H: Host>(
    units: &mut Units<C>,
    desk: &mut Desk,
    host: &mut H,
    cursor: u8,
) -> Result<u32, StoreFault>
    requires stands { Stands C.place C.stands H.told units.old (H.outside host.old) }
    requires desk { DeskFits desk.old }
    ensures { Walks C.reads C.place C.stands H.told (Command.Count cursor) (λ n. Reply.number n)
        units.old units.new desk.old desk.new (H.outside host.old) (H.outside host.new) result }
{
    let Some(query) = desk.query(cursor) else {
        return Err(StoreFault::Refused(Refusal::Cursor));
    };
    Ok(count_hits(units, host, query)?)
}

/// The side of the hits on which a cursor stands.
pub fn which(desk: &Desk, cursor: u8) -> Result<Side, StoreFault>
    ensures answered { (w : World) → IsSettled (with_cursors desk.now w)
        → Answers (with_cursors desk.now w) (with_cursors desk.now w)
        (Command.Which cursor) side_reply result }
    ensures only { IfErr result (λ fault. IsRefusal fault) }
{
    match desk.place(cursor) {
        Some(place) => Ok(side_of(place)),
        None => Err(StoreFault::Refused(Refusal::Cursor)),
    }
}

/// Opens another cursor with the same query and place, and answers its number, from 0 to 31. Where
/// all 32 places are taken it is refused as `Limit`.
pub fn clone_of(desk: &mut Desk, cursor: u8) -> Result<u8, StoreFault>
    requires { DeskFits desk.old }
    ensures desk { DeskFits desk.new }
    ensures answered { (w : World) → IsSettled (with_cursors desk.old w)
        → Answers (with_cursors desk.old w) (with_cursors desk.new w)
        (Command.Clone cursor) (λ n. Reply.number n) result }
    ensures only { IfErr result (λ fault. NoDevice fault) }
    ensures kept { IfErr result (λ fault. desk.new ≡ desk.old) }
{
    if desk.query(cursor).is_none() {
        return Err(StoreFault::Refused(Refusal::Cursor));
    }
    match desk.clone_of(cursor) {
        Ok(clone) => Ok(clone),
        Err(DeskFault::Limit) => Err(StoreFault::Refused(Refusal::Limit)),
        Err(DeskFault::Memory) => Err(StoreFault::Stop(Stop::Memory)),
    }
}

/// Closes a cursor.
pub fn close(desk: &mut Desk, cursor: u8) -> Result<(), StoreFault>
    requires { DeskFits desk.old }
    ensures desk { DeskFits desk.new }
    ensures answered { (w : World) → IsSettled (with_cursors desk.old w)
        → Answers (with_cursors desk.old w) (with_cursors desk.new w)
        (Command.Close cursor) (λ _. Reply.done) result }
    ensures only { IfErr result (λ fault. IsRefusal fault) }
    ensures kept { IfErr result (λ fault. desk.new ≡ desk.old) }
{
    if desk.query(cursor).is_none() {
        return Err(StoreFault::Refused(Refusal::Cursor));
    }
    desk.close(cursor);
    Ok(())
}

/// The side of the hits on which a place is.
fn side_of(place: &Place) -> Side
    ensures { side_reply result ≡ side_at (place_of place.now) }
{
    match place {
        Place::Start => Side::Begin,
        Place::Finish => Side::End,
        Place::On(_) => Side::Nil,
    }
}
