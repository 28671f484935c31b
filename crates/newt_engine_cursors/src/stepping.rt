//! The commands that move a cursor. Where the number is of no open cursor, each is refused as
//! `Cursor`.
ghost use Rattle.std.specs.Prelude.{◌≡◌, ◌*◌, true, IsTrue, Some, IfOk, IfSome, option_map};
ghost use Rattle.std.specs.Prelude.{slice_get};
ghost use Rattle.newt_host.specs.Outside.{Outside};
ghost use Rattle.newt_keys.specs.KeyForm.{IsKeyOf};
ghost use Rattle.newt_cursor.specs.Seen.{place_of, query_of};
ghost use Rattle.newt_spec_store.specs.Store.{soup_named};
ghost use Rattle.newt_spec_query.specs.Cursor.{Cursor};
ghost use Rattle.newt_spec_world.specs.Changed.{hit_for, key_from, sig_of, stepped};
ghost use Rattle.newt_spec_world.specs.World.{flat, hits_of, set_place, soup_in};
ghost use Rattle.newt_spec_world.specs.declared.command.Command.TheVariants as Command;
ghost use Rattle.newt_laws_answers.specs.Fetched.{pages_shown};
ghost use Rattle.newt_laws_world.specs.Settled.{MountedApart};
ghost use Rattle.newt_query.specs.Filter.{asks_texts};
ghost use Rattle.newt_engine_card.specs.Bounds.{FetchesAtMost};
ghost use Rattle.newt_engine_units.specs.Stands.{Eight, Stands, world_of};
ghost use Rattle.newt_index.specs.Spots.{spot_hit};
ghost use Rattle.newt_engine_cursors.specs.Fits.{DeskFits};
ghost use Rattle.newt_engine_hits.specs.Fits.{PlaceFits};
ghost use Rattle.newt_engine_cursors.specs.Motions.{CanMove, ComesAmong, MotionFits, Steers};
ghost use Rattle.newt_engine_cursors.specs.Motions.{leads_to_hits, step_of};
ghost use Rattle.newt_engine_cursors.specs.Replies.{shown_at, shown_reply};
ghost use Rattle.newt_engine_cursors.specs.Unread.{is_unread};
ghost use Rattle.newt_engine_cursors.specs.World.{world_with};
ghost use Rattle.newt_engine_hits.specs.Calls.{IsReading};
ghost use Rattle.newt_engine_cursors.specs.Calls.{FetchesAnswered, FetchesShown, Settles};
ghost use Rattle.newt_engine_cursors.specs.Calls.{Shows, Turns, Walks};

use crate::desks::open_cursor;
use crate::show::{Shown, show};
use newt_base::{Name, Refusal, Sig, Uid};
use newt_cursor::{Desk, Place, Query};
use newt_engine_card::Card;
use newt_engine_hits::{Way, at_key, find_hit, moved, outermost, step};
use newt_engine_units::Units;
use newt_graph::Graph;
use newt_host::{Host, Unit};
use newt_index::Spot;
use newt_keys::{Key, key_from};
use newt_pagebook::Stop;
use newt_store_change::StoreFault;
use std::alloc::{AllocError, Global};

/// How a cursor is moved.
#[derive(Drop)]
enum Motion {
    /// One step on a way.
    Step(Way),
    /// To the hit that a way meets first.
    Leap(Way),
    /// So many steps on, or back where the number is below zero.
    By(i32),
    /// To the first hit whose key is not before this one.
    Key(Key),
}

/// Moves a cursor on to the next hit, or after all.
pub fn next<C: Card, H: Host>(
    units: &mut Units<C>,
    desk: &mut Desk,
    host: &mut H,
    cursor: u8,
) -> Result<Shown, StoreFault>
    requires stands { Stands C.place C.stands H.told units.old (H.outside host.old) }
    requires desk { DeskFits desk.old }
    ensures { Walks C.reads C.place C.stands H.told (Command.Next cursor) shown_reply
        units.old units.new desk.old desk.new (H.outside host.old) (H.outside host.new) result }
{
    steer(units, desk, host, cursor, Motion::Step(Way::On))
}

/// Moves a cursor back to the hit before, or before all.
pub fn prev<C: Card, H: Host>(
    units: &mut Units<C>,
    desk: &mut Desk,
    host: &mut H,
    cursor: u8,
) -> Result<Shown, StoreFault>
    requires stands { Stands C.place C.stands H.told units.old (H.outside host.old) }
    requires desk { DeskFits desk.old }
    ensures { Walks C.reads C.place C.stands H.told (Command.Prev cursor) shown_reply
        units.old units.new desk.old desk.new (H.outside host.old) (H.outside host.new) result }
{
    steer(units, desk, host, cursor, Motion::Step(Way::Back))
}

/// Moves a cursor to the first hit, or after all.
pub fn reset<C: Card, H: Host>(
    units: &mut Units<C>,
    desk: &mut Desk,
    host: &mut H,
    cursor: u8,
) -> Result<Shown, StoreFault>
    requires stands { Stands C.place C.stands H.told units.old (H.outside host.old) }
    requires desk { DeskFits desk.old }
    ensures { Walks C.reads C.place C.stands H.told (Command.Reset cursor) shown_reply
        units.old units.new desk.old desk.new (H.outside host.old) (H.outside host.new) result }
{
    steer(units, desk, host, cursor, Motion::Leap(Way::On))
}

/// Moves a cursor to the last hit, or before all.
pub fn end<C: Card, H: Host>(
    units: &mut Units<C>,
    desk: &mut Desk,
    host: &mut H,
    cursor: u8,
) -> Result<Shown, StoreFault>
    requires stands { Stands C.place C.stands H.told units.old (H.outside host.old) }
    requires desk { DeskFits desk.old }
    ensures { Walks C.reads C.place C.stands H.told (Command.End cursor) shown_reply
        units.old units.new desk.old desk.new (H.outside host.old) (H.outside host.new) result }
{
    steer(units, desk, host, cursor, Motion::Leap(Way::Back))
}

/// Moves a cursor by so many hits, back where the number is below zero.
pub fn moveby<C: Card, H: Host>(
    units: &mut Units<C>,
    desk: &mut Desk,
    host: &mut H,
    cursor: u8,
    by: i32,
) -> Result<Shown, StoreFault>
    requires stands { Stands C.place C.stands H.told units.old (H.outside host.old) }
    requires desk { DeskFits desk.old }
    ensures { Walks C.reads C.place C.stands H.told (Command.Moveby cursor by) shown_reply
        units.old units.new desk.old desk.new (H.outside host.old) (H.outside host.new) result }
{
    steer(units, desk, host, cursor, Motion::By(by))
}

/// Moves a cursor to the first hit whose key is not before the one that a literal writes down, or
/// after all. Where the literal is no key of the query's index, or the query has none, it is
/// refused as `Key`.
pub fn go_to_key<C: Card, H: Host>(
    units: &mut Units<C>,
    desk: &mut Desk,
    host: &mut H,
    cursor: u8,
    graph: &Graph,
) -> Result<Shown, StoreFault>
    requires stands { Stands C.place C.stands H.told units.old (H.outside host.old) }
    requires desk { DeskFits desk.old }
    ensures { Walks C.reads C.place C.stands H.told (Command.Gotokey cursor graph.now) shown_reply
        units.old units.new desk.old desk.new (H.outside host.old) (H.outside host.new) result }
{
    let Some((query, _)) = open_cursor(desk, cursor) else {
        return Err(StoreFault::Refused(Refusal::Cursor));
    };
    let Some(key) = key_given(units.alloc(), query, graph)? else {
        return Err(StoreFault::Refused(Refusal::Key));
    };
    steer(units, desk, host, cursor, Motion::Key(key))
}

/// Moves a cursor to the hit of this id in the soup of its query's name on a unit. A unit that is
/// none, or has no mounted store, is refused before the cursor is looked at; where the entry is no
/// hit it is refused as `Entry`.
pub fn go_to<C: Card, H: Host>(
    units: &mut Units<C>,
    desk: &mut Desk,
    host: &mut H,
    cursor: u8,
    unit: Unit,
    uid: Uid,
) -> Result<Shown, StoreFault>
    requires stands { Stands C.place C.stands H.told units.old (H.outside host.old) }
    requires desk { DeskFits desk.old }
    ensures { Walks C.reads C.place C.stands H.told (Command.Goto cursor unit uid) shown_reply
        units.old units.new desk.old desk.new (H.outside host.old) (H.outside host.new) result }
{
    units.find_unit(unit)?;
    let Some((query, _)) = open_cursor(desk, cursor) else {
        return Err(StoreFault::Refused(Refusal::Cursor));
    };
    let Some(spot) = spot_on(units, host, query, unit, uid)? else {
        return Err(StoreFault::Refused(Refusal::Entry));
    };
    Ok(move_to(units, desk, host, cursor, Place::On(spot))?)
}

/// Moves a cursor, and shows it. Only where it is not open is it refused.
fn steer<C: Card, H: Host>(
    units: &mut Units<C>,
    desk: &mut Desk,
    host: &mut H,
    cursor: u8,
    motion: Motion,
) -> Result<Shown, StoreFault>
    requires stands { Stands C.place C.stands H.told units.old (H.outside host.old) }
    requires desk { DeskFits desk.old }
    requires fits { (k : Cursor) → flat (slice_get desk.old cursor) ≡ Some k
        → MotionFits k.query.spec.index motion }
    ensures turns { Turns C.reads C.place C.stands H.told
        (λ w v. Steers w v cursor (step_of motion) result) units.old units.new
        desk.old desk.new (H.outside host.old) (H.outside host.new) result }
    ensures pages { is_unread (flat (slice_get desk.old cursor)) ≡ true
        → FetchesAnswered shown_reply result (H.outside host.old) (H.outside host.new) }
    ensures fetches { IsTrue H.told
        → let w = world_with C.reads units.old desk.old (H.outside host.old) in MountedApart w
        → is_unread (flat (slice_get desk.old cursor)) ≡ true → FetchesAtMost
        (λ u. 512 * pages_shown (shown_at (stepped w cursor (step_of motion)) cursor) u)
        (H.outside host.old) (H.outside host.new) }
{
    let Some((query, place)) = open_cursor(desk, cursor) else {
        return Err(StoreFault::Refused(Refusal::Cursor));
    };
    let is_found = finds(&motion);
    let place = target(units, host, query, place, motion)?;
    Ok(come_to(units, desk, host, cursor, place, is_found)?)
}

/// Whether a cursor that is moved so comes to a hit or to a side. One that goes on by no hit stays
/// where it is.
fn finds(motion: &Motion) -> bool
    ensures { result ≡ leads_to_hits motion.now }
{
    !matches!(motion, Motion::By(_))
}

/// Where a cursor of a query comes to from a place.
fn target<C: Card, H: Host>(
    units: &mut Units<C>,
    host: &mut H,
    query: &Query,
    place: &Place,
    motion: Motion,
) -> Result<Place, Stop>
    requires stands { Stands C.place C.stands H.told units.old (H.outside host.old) }
    requires fits { CanMove query.now.spec.index (place_of place.now) motion }
    ensures reading { IsReading C.reads C.place C.stands (asks_texts query.now.spec) H.told
        units.old units.new (H.outside host.old) (H.outside host.new) result }
    ensures fits { IfOk result (λ place. PlaceFits query.now.spec.index (place_of place)) }
    ensures place { IsTrue H.told → let w = world_of C.reads units.old (H.outside host.old) in
        let q = query_of query.now in MountedApart w
        → IfOk result (λ next. place_of next ≡ step_of motion (hits_of w q) q.spec.index
        (place_of place.now)) }
{
    match motion {
        Motion::Step(way) => step(units, host, query, way, place),
        Motion::Leap(way) => outermost(units, host, query, way),
        Motion::By(by) => {
            let from = place.copy()?;
            moved(units, host, query, by, from)
        }
        Motion::Key(key) => at_key(units, host, query, &key),
    }
}

/// Puts a cursor at a place, and shows it.
fn move_to<C: Card, H: Host>(
    units: &mut Units<C>,
    desk: &mut Desk,
    host: &mut H,
    cursor: u8,
    place: Place,
) -> Result<Shown, Stop>
    requires stands { Stands C.place C.stands H.told units.old (H.outside host.old) }
    requires desk { DeskFits desk.old }
    requires fits { (k : Cursor) → flat (slice_get desk.old cursor) ≡ Some k
        → PlaceFits k.query.spec.index (place_of place) }
    ensures moved { Settles C.reads C.place C.stands H.told
        (λ w v. IfOk result (Shows (set_place w cursor (place_of place)) v cursor))
        units.old units.new desk.old desk.new (H.outside host.old) (H.outside host.new) result }
    ensures pages { is_unread (flat (slice_get desk.old cursor)) ≡ true → IfOk result (λ shown.
        FetchesShown (shown_reply shown) (H.outside host.old) (H.outside host.new)) }
    ensures fetches { IsTrue H.told
        → let w = world_with C.reads units.old desk.old (H.outside host.old) in MountedApart w
        → is_unread (flat (slice_get desk.old cursor)) ≡ true → FetchesAtMost
        (λ u. 512 * pages_shown (shown_at (set_place w cursor (place_of place)) cursor) u)
        (H.outside host.old) (H.outside host.new) }
{
    come_to(units, desk, host, cursor, place, false)
}

/// Shows a cursor at a place, and puts it there. Where that is known to be a hit of its query, or a
/// side, the hit is not searched. Where it could not be shown it stays where it is.
fn come_to<C: Card, H: Host>(
    units: &mut Units<C>,
    desk: &mut Desk,
    host: &mut H,
    cursor: u8,
    place: Place,
    is_found: bool,
) -> Result<Shown, Stop>
    requires stands { Stands C.place C.stands H.told units.old (H.outside host.old) }
    requires desk { DeskFits desk.old }
    requires fits { (k : Cursor) → flat (slice_get desk.old cursor) ≡ Some k
        → PlaceFits k.query.spec.index (place_of place) }
    ensures moved { Settles C.reads C.place C.stands H.told
        (λ w v. (is_found ≡ true → ComesAmong w cursor (place_of place))
        → IfOk result (Shows (set_place w cursor (place_of place)) v cursor))
        units.old units.new desk.old desk.new (H.outside host.old) (H.outside host.new) result }
    ensures pages { is_unread (flat (slice_get desk.old cursor)) ≡ true → IfOk result (λ shown.
        FetchesShown (shown_reply shown) (H.outside host.old) (H.outside host.new)) }
    ensures fetches { IsTrue H.told
        → let w = world_with C.reads units.old desk.old (H.outside host.old) in MountedApart w
        → (is_found ≡ true → ComesAmong w cursor (place_of place)) → is_unread (flat (slice_get desk.old cursor)) ≡ true → FetchesAtMost
        (λ u. 512 * pages_shown (shown_at (set_place w cursor (place_of place)) cursor) u)
        (H.outside host.old) (H.outside host.new) }
{
    let Some((query, _)) = open_cursor(desk, cursor) else {
        return Ok(Shown::Nil);
    };
    let shown = show(units, host, query, &place, is_found)?;
    desk.step(cursor, place);
    Ok(shown)
}

/// The key that a literal writes down, if it is one of the query's index.
fn key_given(alloc: Global, query: &Query, graph: &Graph) -> Result<Option<Key>, AllocError>
    ensures value { IfOk result (λ found. found ≡ key_from query.now.spec.index graph.now) }
    ensures of_index { IfOk result (λ found. IfSome found (IsKeyOf query.now.spec.index)) }
{
    match query.spec.index() {
        Some(index) => key_from(alloc, graph, graph.root(), index),
        None => Ok(None),
    }
}

/// The hit of this id in the soup of the query's name on a unit.
fn spot_on<C: Card, H: Host>(
    units: &mut Units<C>,
    host: &mut H,
    query: &Query,
    unit: Unit,
    uid: Uid,
) -> Result<Option<Spot>, Stop>
    requires { Stands C.place C.stands H.told units.old (H.outside host.old) }
    ensures reading { IsReading C.reads C.place C.stands (asks_texts query.now.spec) H.told
        units.old units.new (H.outside host.old) (H.outside host.new) result }
    ensures key { IfOk result (λ found. IfSome found (λ spot. IsKeyOf query.now.spec.index
        spot.key)) }
    ensures found { IsTrue H.told → let w = world_of C.reads units.old (H.outside host.old) in
        MountedApart w → (k : Cursor) → k.query ≡ query_of query.now
        → IfOk result (λ found. option_map spot_hit found ≡ hit_for w unit uid k) }
{
    let Some((store, soup)) = soup_on(units, unit, &query.name) else {
        return Ok(None);
    };
    match find_hit(units, host, query, store, soup, uid)? {
        Some(found) => Ok(Some(Spot {
            key: found.key,
            store,
            soup,
            uid,
        })),
        None => Ok(None),
    }
}

/// The signatures of the store that is mounted on a unit and of its soup of a name.
pub(crate) fn soup_on<C: Card>(units: &Units<C>, unit: Unit, name: &Name) -> Option<(Sig, Sig)>
    ensures { (outside : Outside) → Eight outside → Stands C.place C.stands true units.now outside
        → let w = world_of C.reads units.now outside in
        result ≡ option_map (λ p. (sig_of w unit, p.sig)) (soup_in w unit name.now) }
{
    match units.card(unit) {
        Some(card) => soup_of_card(card, name),
        None => None,
    }
}

/// The signatures of the store of a card and of its soup of a name.
fn soup_of_card<C: Card>(card: &C, name: &Name) -> Option<(Sig, Sig)>
    ensures { result ≡ option_map (λ n. ((C.soups card.now).sig, n))
        (option_map (λ p. p.sig) (soup_named name.now (C.soups card.now))) }
{
    match card.soup_named(name) {
        Some(soup) => Some((card.sig(), soup)),
        None => None,
    }
}
