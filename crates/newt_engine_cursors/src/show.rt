//! What a cursor shows.
ghost use Rattle.std.specs.Prelude.{◌≡◌, ◌*◌, false, true, IsTrue, IfOk, Some};
ghost use Rattle.newt_cursor.specs.Seen.{place_of, query_of};
ghost use Rattle.newt_index.specs.Spots.{spot_hit};
ghost use Rattle.newt_query.specs.Filter.{asks_texts};
ghost use Rattle.newt_spec_store.specs.Store.{Entry as Plain};
ghost use Rattle.newt_spec_query.specs.Cursor.{on};
ghost use Rattle.newt_spec_query.specs.Hits.{Query as Asked};
ghost use Rattle.newt_spec_world.specs.World.{hits_of};
ghost use Rattle.newt_laws_answers.specs.Faces.{first_showing};
ghost use Rattle.newt_laws_answers.specs.Fetched.{pages_shown};
ghost use Rattle.newt_laws_world.specs.Settled.{MountedApart};
ghost use Rattle.newt_engine_card.specs.Bounds.{FetchesAtMost};
ghost use Rattle.newt_engine_units.specs.Faces.{faces_of};
ghost use Rattle.newt_engine_units.specs.Stands.{Stands, world_of};
ghost use Rattle.newt_engine_hits.specs.Calls.{IsReading};
ghost use Rattle.newt_engine_hits.specs.Present.{IsPresent, entry_there, fetched_there};
ghost use Rattle.newt_engine_hits.specs.Present.{Present as Hit};
ghost use Rattle.newt_engine_cursors.specs.Calls.{FetchesShown};
ghost use Rattle.newt_engine_cursors.specs.Motions.{IsAmong};
ghost use Rattle.newt_engine_cursors.specs.Replies.{entry_reply, hit_reply, shown_place};
ghost use Rattle.newt_engine_cursors.specs.Replies.{shown_reply};

use newt_cursor::{Place, Query};
use newt_engine_card::Card;
use newt_engine_hits::{Present, find_hit, read_entry};
use newt_engine_units::Units;
use newt_host::{Host, Unit};
use newt_index::Spot;
use newt_pagebook::Stop;
use newt_store_change::Entry;

/// What a cursor shows.
#[derive(Drop)]
pub enum Shown {
    /// It stands before or after all hits.
    Nil,
    /// It stands on an entry that is no longer among the hits.
    Deleted,
    /// It stands on this entry of a unit.
    Entry(Unit, Entry),
}

/// The side of the hits on which a cursor stands.
#[derive(Clone, Copy, PartialEq, Eq, Debug)]
pub enum Side {
    /// Before all hits.
    Begin,
    /// After all hits.
    End,
    /// On an entry.
    Nil,
}

/// What a cursor of a query shows at a place, where the entry is read once. Where that place is
/// known to be a hit of the query, or a side, the hit is not searched.
pub(crate) fn show<C: Card, H: Host>(
    units: &mut Units<C>,
    host: &mut H,
    query: &Query,
    place: &Place,
    is_found: bool,
) -> Result<Shown, Stop>
    requires { Stands C.place C.stands H.told units.old (H.outside host.old) }
    ensures reading { IsReading C.reads C.place C.stands true H.told units.old units.new
        (H.outside host.old) (H.outside host.new) result }
    ensures pages { asks_texts query.now.spec ≡ false → IfOk result (λ shown.
        FetchesShown (shown_reply shown) (H.outside host.old) (H.outside host.new)) }
    ensures shown { IsTrue H.told → let w = world_of C.reads units.old (H.outside host.old) in
        let q = query_of query.now in MountedApart w
        → (is_found ≡ true → IsAmong (hits_of w q) (place_of place.now))
        → IfOk result (λ shown. shown_reply shown ≡ shown_place w q (place_of place.now)) }
    ensures fetches { IsTrue H.told → let w = world_of C.reads units.old (H.outside host.old) in
        let q = query_of query.now in MountedApart w
        → (is_found ≡ true → IsAmong (hits_of w q) (place_of place.now))
        → asks_texts query.now.spec ≡ false → FetchesAtMost
        (λ u. 512 * pages_shown (shown_place w q (place_of place.now)) u)
        (H.outside host.old) (H.outside host.new) }
{
    match place {
        Place::On(spot) => {
            if is_found {
                show_found(units, host, spot)
            } else {
                show_searched(units, host, query, spot)
            }
        }
        Place::Start | Place::Finish => Ok(Shown::Nil),
    }
}

/// What a cursor of a query shows on an entry, which may be no hit any more.
fn show_searched<C: Card, H: Host>(
    units: &mut Units<C>,
    host: &mut H,
    query: &Query,
    spot: &Spot,
) -> Result<Shown, Stop>
    requires { Stands C.place C.stands H.told units.old (H.outside host.old) }
    ensures reading { IsReading C.reads C.place C.stands true H.told units.old units.new
        (H.outside host.old) (H.outside host.new) result }
    ensures pages { asks_texts query.now.spec ≡ false → IfOk result (λ shown.
        FetchesShown (shown_reply shown) (H.outside host.old) (H.outside host.new)) }
    ensures shown { IsTrue H.told → let w = world_of C.reads units.old (H.outside host.old) in
        let reply = shown_place w (query_of query.now) (on (spot_hit spot.now)) in
        MountedApart w → IfOk result (λ shown. shown_reply shown ≡ reply) }
    ensures fetches { IsTrue H.told → let w = world_of C.reads units.old (H.outside host.old) in
        let reply = shown_place w (query_of query.now) (on (spot_hit spot.now)) in
        MountedApart w → asks_texts query.now.spec ≡ false → FetchesAtMost
        (λ u. 512 * pages_shown reply u) (H.outside host.old) (H.outside host.new) }
{
    match find_hit(units, host, query, spot.store, spot.soup, spot.uid)? {
        Some(hit) => show_hit(units, host, hit, spot),
        None => Ok(Shown::Deleted),
    }
}

/// What a cursor shows on an entry that is a hit of its query. It is not searched once more.
fn show_found<C: Card, H: Host>(
    units: &mut Units<C>,
    host: &mut H,
    spot: &Spot,
) -> Result<Shown, Stop>
    requires { Stands C.place C.stands H.told units.old (H.outside host.old) }
    ensures reading { IsReading C.reads C.place C.stands true H.told units.old units.new
        (H.outside host.old) (H.outside host.new) result }
    ensures pages { IfOk result (λ shown.
        FetchesShown (shown_reply shown) (H.outside host.old) (H.outside host.new)) }
    ensures shown { IsTrue H.told → let w = world_of C.reads units.old (H.outside host.old) in
        let at = on (spot_hit spot.now) in MountedApart w → (q : Asked) → IsAmong (hits_of w q) at
        → IfOk result (λ shown. shown_reply shown ≡ shown_place w q at) }
    ensures fetches { IsTrue H.told → let w = world_of C.reads units.old (H.outside host.old) in
        let at = on (spot_hit spot.now) in MountedApart w → (q : Asked) → IsAmong (hits_of w q) at
        → FetchesAtMost (λ u. 512 * pages_shown (shown_place w q at) u)
        (H.outside host.old) (H.outside host.new) }
{
    match units.unit_of(spot.store) {
        Some(unit) => read_and_show(units, host, unit, spot),
        None => Ok(Shown::Deleted),
    }
}

/// What is shown of a hit. Its entry is read where that was not done before.
fn show_hit<C: Card, H: Host>(
    units: &mut Units<C>,
    host: &mut H,
    hit: Present,
    spot: &Spot,
) -> Result<Shown, Stop>
    requires { Stands C.place C.stands H.told units.old (H.outside host.old) }
    ensures reading { IsReading C.reads C.place C.stands true H.told units.old units.new
        (H.outside host.old) (H.outside host.new) result }
    ensures pages { first_showing spot.now.store (faces_of C.soups units.old) ≡ Some hit.unit
        → IfOk result (λ shown.
        FetchesShown (shown_reply shown) (H.outside host.old) (H.outside host.new)) }
    ensures shown { IsTrue H.told → let w = world_of C.reads units.old (H.outside host.old) in
        (x : Hit) → IsPresent (Some hit) (Some x)
        → entry_there w spot.now.store spot.now.soup spot.now.uid ≡ Some x.entry
        → IfOk result (λ shown. shown_reply shown ≡ hit_reply x) }
    ensures fetches { IsTrue H.told → let w = world_of C.reads units.old (H.outside host.old) in
        FetchesAtMost (fetched_there w spot.now.store spot.now.soup spot.now.uid)
        (H.outside host.old) (H.outside host.new) }
{
    let Present { unit, entry, .. } = hit;
    match entry {
        Some(entry) => Ok(Shown::Entry(unit, entry)),
        None => read_and_show(units, host, unit, spot),
    }
}

/// What is shown of a hit on a unit whose entry was not read.
fn read_and_show<C: Card, H: Host>(
    units: &mut Units<C>,
    host: &mut H,
    unit: Unit,
    spot: &Spot,
) -> Result<Shown, Stop>
    requires { Stands C.place C.stands H.told units.old (H.outside host.old) }
    ensures reading { IsReading C.reads C.place C.stands true H.told units.old units.new
        (H.outside host.old) (H.outside host.new) result }
    ensures pages { first_showing spot.now.store (faces_of C.soups units.old) ≡ Some unit
        → IfOk result (λ shown.
        FetchesShown (shown_reply shown) (H.outside host.old) (H.outside host.new)) }
    ensures shown { IsTrue H.told → let w = world_of C.reads units.old (H.outside host.old) in
        (e : Plain) → entry_there w spot.now.store spot.now.soup spot.now.uid ≡ Some e
        → IfOk result (λ shown. shown_reply shown ≡ entry_reply unit e) }
    ensures fetches { IsTrue H.told → let w = world_of C.reads units.old (H.outside host.old) in
        FetchesAtMost (fetched_there w spot.now.store spot.now.soup spot.now.uid)
        (H.outside host.old) (H.outside host.new) }
{
    match read_entry(units, host, spot.store, spot.soup, spot.uid)? {
        Some(entry) => Ok(Shown::Entry(unit, entry)),
        None => Ok(Shown::Deleted),
    }
}
