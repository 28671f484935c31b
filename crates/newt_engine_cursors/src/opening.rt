//! The commands that open a cursor.
ghost use Rattle.std.specs.Prelude.{◌≡◌, false, true, IfErr, Some, ◌++◌, is_some};
ghost use Rattle.std.specs.List.{list_any};
ghost use Rattle.newt_host.specs.Outside.{Outside};
ghost use Rattle.newt_cursor.specs.Seen.{query_of};
ghost use Rattle.newt_spec_world.specs.Changed.{query_of as asked_query, sig_of};
ghost use Rattle.newt_spec_world.specs.Reply.{Reply};
ghost use Rattle.newt_spec_world.specs.World.{mounted, soup_in};
ghost use Rattle.newt_spec_world.specs.declared.command.Command.{Command};
ghost use Rattle.newt_laws_answers.specs.Tests.{soup_checks};
ghost use Rattle.newt_query.specs.Filter.{asks_texts};
ghost use Rattle.newt_store_change.specs.Faults.{NoDevice};
ghost use Rattle.newt_engine_card.specs.Bounds.{FetchesAtMost};
ghost use Rattle.newt_engine_units.specs.Stands.{Eight, Stands, world_of};
ghost use Rattle.newt_engine_cursors.specs.Fits.{DeskFits};
ghost use Rattle.newt_engine_cursors.specs.Opening.{Binds, Opens, bind_tests};
ghost use Rattle.newt_engine_cursors.specs.Calls.{Turns, Walks};

use crate::asking::query_for;
use newt_base::{Name, Refusal};
use newt_cursor::{Desk, DeskFault, Query, Scope};
use newt_engine_card::Card;
use newt_engine_hits::{Way, outermost};
use newt_engine_units::Units;
use newt_graph::Graph;
use newt_host::{Host, UNITS, Unit};
use newt_pagebook::Stop;
use newt_store_change::StoreFault;

/// Opens a cursor on the first hit of a query in the soup of a name in one store, or after all
/// where it has no hits, and answers its number, from 0 to 31. Where all 32 places are taken it is
/// refused as `Limit`.
pub fn query<C: Card, H: Host>(
    units: &mut Units<C>,
    desk: &mut Desk,
    host: &mut H,
    unit: Unit,
    name: &Name,
    graph: &Graph,
) -> Result<u8, StoreFault>
    requires stands { Stands C.place C.stands H.told units.old (H.outside host.old) }
    requires desk { DeskFits desk.old }
    ensures { Walks C.reads C.place C.stands H.told (Command.Query unit name.now graph.now)
        (λ n. Reply.number n) units.old units.new desk.old desk.new
        (H.outside host.old) (H.outside host.new) result }
{
    let asked = query_on(units, unit, name, graph);
    match asked {
        Ok(query) => open(units, desk, host, query),
        Err(fault) => Err(fault),
    }
}

/// The same over the soups of a name in all stores that are mounted, now and later; refused as
/// `Soup` where none has one now.
pub fn query_all<C: Card, H: Host>(
    units: &mut Units<C>,
    desk: &mut Desk,
    host: &mut H,
    name: &Name,
    graph: &Graph,
) -> Result<u8, StoreFault>
    requires stands { Stands C.place C.stands H.told units.old (H.outside host.old) }
    requires desk { DeskFits desk.old }
    ensures { Walks C.reads C.place C.stands H.told (Command.QueryAll name.now graph.now)
        (λ n. Reply.number n) units.old units.new desk.old desk.new
        (H.outside host.old) (H.outside host.new) result }
{
    if !has_soup(units, name) {
        return Err(StoreFault::Refused(Refusal::Soup));
    }
    let asked = query_for(units, Scope::All, name, graph);
    match asked {
        Ok(query) => open(units, desk, host, query),
        Err(fault) => Err(fault),
    }
}

/// What a frame asks of the soup of a name on a unit.
fn query_on<C: Card>(
    units: &Units<C>,
    unit: Unit,
    name: &Name,
    graph: &Graph,
) -> Result<Query, StoreFault>
    ensures bound { (outside : Outside) → Eight outside
        → Stands C.place C.stands true units.now outside
        → let w = world_of C.reads units.now outside in let scope = Some (sig_of w unit) in
        Binds (soup_checks w unit name.now ++ bind_tests w scope name.now graph.now)
        (asked_query w scope name.now graph.now) result }
    ensures cause { IfErr result NoDevice }
{
    match units.find_soup(unit, name) {
        Ok(_) => match units.card(unit) {
            Some(card) => query_for(units, Scope::One(card.sig()), name, graph),
            None => Err(StoreFault::Refused(Refusal::Notmounted)),
        },
        Err(fault) => Err(fault),
    }
}

/// Whether a mounted store has a soup of this name.
fn has_soup<C: Card>(units: &Units<C>, name: &Name) -> bool
    ensures { (outside : Outside) → Eight outside → Stands C.place C.stands true units.now outside
        → let w = world_of C.reads units.now outside in
        result ≡ list_any (λ m. is_some (soup_in w m.0 name.now)) (mounted w) }
{
    for number in 0..UNITS {
        if units.soup_sig(Unit(number), name).is_some() {
            return true;
        }
    }
    false
}

/// Opens a cursor on the first hit of a query, or after all where it has none.
fn open<C: Card, H: Host>(
    units: &mut Units<C>,
    desk: &mut Desk,
    host: &mut H,
    query: Query,
) -> Result<u8, StoreFault>
    requires stands { Stands C.place C.stands H.told units.old (H.outside host.old) }
    requires desk { DeskFits desk.old }
    ensures turns { Turns C.reads C.place C.stands H.told
        (λ w v. Opens w v (query_of query) result) units.old units.new
        desk.old desk.new (H.outside host.old) (H.outside host.new) result }
    ensures unread { asks_texts query.spec ≡ false
        → FetchesAtMost (λ u. 0) (H.outside host.old) (H.outside host.new) }
{
    let first = outermost(units, host, &query, Way::On)?;
    match desk.open(query, first) {
        Ok(cursor) => Ok(cursor),
        Err(DeskFault::Limit) => Err(StoreFault::Refused(Refusal::Limit)),
        Err(DeskFault::Memory) => Err(StoreFault::Stop(Stop::Memory)),
    }
}
