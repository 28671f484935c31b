//! Where a cursor comes to.
ghost use Rattle.std.specs.Prelude.{◌≡◌, IsTrue, IfOk};
ghost use Rattle.newt_keys.specs.KeyForm.{IsKeyOf};
ghost use Rattle.newt_query.specs.Filter.{asks_texts};
ghost use Rattle.newt_cursor.specs.Seen.{query_of, place_of};
ghost use Rattle.newt_spec_query.specs.Cursor.{moved, place_at_key, repeated};
ghost use Rattle.newt_spec_world.specs.World.{hits_of};
ghost use Rattle.newt_laws_world.specs.Settled.{MountedApart};
ghost use Rattle.newt_engine_units.specs.Stands.{Stands, world_of};
ghost use Rattle.newt_engine_hits.specs.Fits.{PlaceFits};
ghost use Rattle.newt_engine_hits.specs.Ways.{is_at_edge, outermost, stepping};
ghost use Rattle.newt_engine_hits.specs.Calls.{IsReading};

use crate::search;
use crate::walk::walk;
use crate::ways::Way;
use newt_cursor::{Place, Query};
use newt_engine_card::Card;
use newt_engine_units::Units;
use newt_host::Host;
use newt_keys::Key;
use newt_pagebook::Stop;

/// On the hit that a way meets first, else where the way ends.
pub fn outermost<C: Card, H: Host>(
    units: &mut Units<C>,
    host: &mut H,
    query: &Query,
    way: Way,
) -> Result<Place, Stop>
    requires { Stands C.place C.stands H.told units.old (H.outside host.old) }
    ensures reading { IsReading C.reads C.place C.stands (asks_texts query.now.spec) H.told
        units.old units.new (H.outside host.old) (H.outside host.new) result }
    ensures fits { IfOk result (λ place. PlaceFits query.now.spec.index (place_of place)) }
    ensures place { IsTrue H.told → let w = world_of C.reads units.old (H.outside host.old) in
        let q = query_of query.now in MountedApart w → IfOk result
        (λ place. place_of place ≡ outermost way (hits_of w q)) }
{
    let found = search::outermost(units, query, way)?;
    walk(units, host, query, way, found)
}

/// One step on a way.
pub fn step<C: Card, H: Host>(
    units: &mut Units<C>,
    host: &mut H,
    query: &Query,
    way: Way,
    place: &Place,
) -> Result<Place, Stop>
    requires stands { Stands C.place C.stands H.told units.old (H.outside host.old) }
    requires fits { PlaceFits query.now.spec.index (place_of place.now) }
    ensures reading { IsReading C.reads C.place C.stands (asks_texts query.now.spec) H.told
        units.old units.new (H.outside host.old) (H.outside host.new) result }
    ensures fits { IfOk result (λ place. PlaceFits query.now.spec.index (place_of place)) }
    ensures place { IsTrue H.told → let w = world_of C.reads units.old (H.outside host.old) in
        let q = query_of query.now in MountedApart w → IfOk result
        (λ next. place_of next ≡ stepping way (hits_of w q) q.spec.index (place_of place.now)) }
{
    match place {
        Place::On(spot) => {
            let found = search::beyond(units, query, way, spot)?;
            walk(units, host, query, way, found)
        }
        Place::Start => match way {
            Way::On => outermost(units, host, query, way),
            Way::Back => Ok(Place::Start),
        },
        Place::Finish => match way {
            Way::On => Ok(Place::Finish),
            Way::Back => outermost(units, host, query, way),
        },
    }
}

/// So many steps on a way.
fn steps<C: Card, H: Host>(
    units: &mut Units<C>,
    host: &mut H,
    query: &Query,
    way: Way,
    count: u32,
    from: Place,
) -> Result<Place, Stop>
    requires stands { Stands C.place C.stands H.told units.old (H.outside host.old) }
    requires fits { PlaceFits query.now.spec.index (place_of from) }
    ensures reading { IsReading C.reads C.place C.stands (asks_texts query.now.spec) H.told
        units.old units.new (H.outside host.old) (H.outside host.new) result }
    ensures fits { IfOk result (λ place. PlaceFits query.now.spec.index (place_of place)) }
    ensures place { IsTrue H.told → let w = world_of C.reads units.old (H.outside host.old) in
        let q = query_of query.now in MountedApart w → IfOk result
        (λ next. place_of next ≡ repeated count (stepping way (hits_of w q) q.spec.index)
        (place_of from)) }
{
    let mut place = from;
    'steps: for _step in 0..count {
        if is_at_edge(&place, way) {
            return Ok(place);
        }
        place = step(units, host, query, way, &place)?;
    }
    Ok(place)
}

/// Whether a place is where a way ends.
fn is_at_edge(place: &Place, way: Way) -> bool
    ensures { result ≡ is_at_edge way (place_of place.now) }
{
    matches!(
        (place, way),
        (Place::Start, Way::Back) | (Place::Finish, Way::On)
    )
}

/// So many steps on, or back where the number is below zero.
pub fn moved<C: Card, H: Host>(
    units: &mut Units<C>,
    host: &mut H,
    query: &Query,
    by: i32,
    from: Place,
) -> Result<Place, Stop>
    requires stands { Stands C.place C.stands H.told units.old (H.outside host.old) }
    requires fits { PlaceFits query.now.spec.index (place_of from) }
    ensures reading { IsReading C.reads C.place C.stands (asks_texts query.now.spec) H.told
        units.old units.new (H.outside host.old) (H.outside host.new) result }
    ensures fits { IfOk result (λ place. PlaceFits query.now.spec.index (place_of place)) }
    ensures place { IsTrue H.told → let w = world_of C.reads units.old (H.outside host.old) in
        let q = query_of query.now in MountedApart w → IfOk result
        (λ next. place_of next ≡ moved by (hits_of w q) q.spec.index (place_of from)) }
{
    if by < 0 {
        steps(units, host, query, Way::Back, by.unsigned_abs(), from)
    } else {
        steps(units, host, query, Way::On, by.unsigned_abs(), from)
    }
}

/// On the first hit whose key is not before the given one, else after all.
pub fn at_key<C: Card, H: Host>(
    units: &mut Units<C>,
    host: &mut H,
    query: &Query,
    key: &Key,
) -> Result<Place, Stop>
    requires stands { Stands C.place C.stands H.told units.old (H.outside host.old) }
    requires key { IsKeyOf query.now.spec.index key.now }
    ensures reading { IsReading C.reads C.place C.stands (asks_texts query.now.spec) H.told
        units.old units.new (H.outside host.old) (H.outside host.new) result }
    ensures fits { IfOk result (λ place. PlaceFits query.now.spec.index (place_of place)) }
    ensures place { IsTrue H.told → let w = world_of C.reads units.old (H.outside host.old) in
        let q = query_of query.now in MountedApart w → IfOk result
        (λ place. place_of place ≡ place_at_key (hits_of w q) q.spec.index key.now) }
{
    let found = search::at_or_after(units, query, key)?;
    walk(units, host, query, Way::On, found)
}
