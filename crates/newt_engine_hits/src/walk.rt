//! The walk from one hit to the next that a query keeps.
ghost use Rattle.std.specs.Prelude.{◌≡◌, IsTrue, option_map, IfOk, IfSome};
ghost use Rattle.newt_keys.specs.KeyForm.{IsKeyOf};
ghost use Rattle.newt_query.specs.Filter.{asks_texts};
ghost use Rattle.newt_cursor.specs.Seen.{query_of, place_of};
ghost use Rattle.newt_spec_world.specs.World.{hits_of, mounted_stores};
ghost use Rattle.newt_laws_world.specs.Settled.{MountedApart};
ghost use Rattle.newt_laws_hits.specs.Stripped.{passing};
ghost use Rattle.newt_laws_hits.specs.Walk.{walked};
ghost use Rattle.newt_engine_units.specs.Stands.{Stands, world_of};
ghost use Rattle.newt_index.specs.Spots.{spot_hit};
ghost use Rattle.newt_engine_hits.specs.Fits.{PlaceFits};
ghost use Rattle.newt_engine_hits.specs.Searched.{IsIndexed};
ghost use Rattle.newt_engine_hits.specs.Ways.{edge, stepping};
ghost use Rattle.newt_engine_hits.specs.Calls.{IsReading};

use crate::keep::keeps;
use crate::search::beyond;
use crate::ways::Way;
use newt_cursor::{Place, Query};
use newt_engine_card::Card;
use newt_engine_units::Units;
use newt_host::Host;
use newt_index::Spot;
use newt_pagebook::Stop;

/// From a hit of the ranges, or none, to the first that the query keeps, or to where the way
/// ends. Each step leaves fewer hits before it, and there are fewer than the steps that are tried.
pub(crate) fn walk<C: Card, H: Host>(
    units: &mut Units<C>,
    host: &mut H,
    query: &Query,
    way: Way,
    start: Option<Spot>,
) -> Result<Place, Stop>
    requires stands { Stands C.place C.stands H.told units.old (H.outside host.old) }
    requires key { IfSome start (λ spot. IsKeyOf query.now.spec.index spot.key) }
    ensures reading { IsReading C.reads C.place C.stands (asks_texts query.now.spec) H.told
        units.old units.new (H.outside host.old) (H.outside host.new) result }
    ensures fits { IfOk result (λ place. PlaceFits query.now.spec.index (place_of place)) }
    ensures walked { IsTrue H.told → let w = world_of C.reads units.old (H.outside host.old) in
        let q = query_of query.now in MountedApart w
        → IfSome start (λ spot. IsIndexed w q (spot_hit spot)) → IfOk result
        (λ place. place_of place ≡ walked (passing (mounted_stores w) q) (edge way)
        (stepping way (hits_of w q) q.spec.index) (option_map spot_hit start)) }
{
    let mut found = start;
    'steps: for _step in 0..u64::MAX {
        let Some(spot) = found else {
            return Ok(edge(way));
        };
        if keeps(units, host, query, &spot)? {
            return Ok(Place::On(spot));
        }
        found = beyond(units, query, way, &spot)?;
    }
    Ok(edge(way))
}

/// Where a way ends.
pub(crate) fn edge(way: Way) -> Place
    ensures { place_of result ≡ edge way }
{
    match way {
        Way::On => Place::Finish,
        Way::Back => Place::Start,
    }
}
