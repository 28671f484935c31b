//! Whether a hit of an index alone is one of the query.
ghost use Rattle.std.specs.Prelude.{◌≡◌, ℕ, true, false, IsTrue, Some, IfOk, IsSome};
ghost use Rattle.newt_host.specs.Moments.{image};
ghost use Rattle.newt_host.specs.Outside.{Outside};
ghost use Rattle.newt_cursor.specs.Seen.{query_of};
ghost use Rattle.newt_query.specs.Filter.{asks_texts};
ghost use Rattle.newt_spec_store.specs.Store.{Store, entry_at};
ghost use Rattle.newt_spec_world.specs.World.{mounted_stores};
ghost use Rattle.newt_laws_world.specs.Settled.{MountedApart};
ghost use Rattle.newt_laws_answers.specs.There.{OnUnit};
ghost use Rattle.newt_laws_hits.specs.Stripped.{passing};
ghost use Rattle.newt_engine_units.specs.Stands.{Eight, Stands, mounted_in, world_of};
ghost use Rattle.newt_index.specs.Spots.{spot_hit};
ghost use Rattle.newt_engine_hits.specs.Searched.{IsIndexed, keeps_in};
ghost use Rattle.newt_engine_hits.specs.Calls.{IsReading};

use crate::present::table_on;
use newt_cursor::Query;
use newt_engine_card::Card;
use newt_engine_units::Units;
use newt_host::{Host, Unit};
use newt_index::Spot;
use newt_pagebook::Stop;
use newt_query::{is_kept, is_kept_unread};

/// Whether a query keeps a hit of the ranges, whose entry is there: its key is in the range, and
/// its entry passes. The entry is read only where words or texts are asked for.
pub(crate) fn keeps<C: Card, H: Host>(
    units: &mut Units<C>,
    host: &mut H,
    query: &Query,
    spot: &Spot,
) -> Result<bool, Stop>
    requires { Stands C.place C.stands H.told units.old (H.outside host.old) }
    ensures reading { IsReading C.reads C.place C.stands (asks_texts query.now.spec) H.told
        units.old units.new (H.outside host.old) (H.outside host.new) result }
    ensures kept { IsTrue H.told → let w = world_of C.reads units.old (H.outside host.old) in
        let q = query_of query.now in MountedApart w → IsIndexed w q (spot_hit spot.now)
        → IfOk result (λ kept. kept ≡ passing (mounted_stores w) q (spot_hit spot.now)) }
{
    if !query.spec.in_range(&spot.key) {
        return Ok(false);
    }
    let Some(unit) = units.unit_of(spot.store) else {
        return Ok(false);
    };
    if query.spec.needs_graph() {
        keeps_read(units, host, unit, query, spot)
    } else {
        Ok(keeps_unread(units, unit, query, spot))
    }
}

/// Whether a query keeps a hit whose entry is read.
fn keeps_read<C: Card, H: Host>(
    units: &mut Units<C>,
    host: &mut H,
    unit: Unit,
    query: &Query,
    spot: &Spot,
) -> Result<bool, Stop>
    requires stands { Stands C.place C.stands H.told units.old (H.outside host.old) }
    requires mounted { mounted_in units.old.slots.items unit ≡ true }
    ensures reading { IsReading C.reads C.place C.stands true H.told units.old units.new
        (H.outside host.old) (H.outside host.new) result }
    ensures kept { IsTrue H.told → (blocks : ℕ) (s : Store)
        → OnUnit (world_of C.reads units.old (H.outside host.old)) unit blocks s →
        IfOk result (λ kept. kept ≡ keeps_in (query_of query.now) s (spot_hit spot.now)) }
{
    match units.entry_on(host, unit, spot.soup, spot.uid)? {
        Some(entry) => {
            let table = table_on(units, unit, spot.soup);
            Ok(is_kept(units.alloc(), &query.spec, &spot.key, table, &entry.graph)?)
        }
        None => Ok(false),
    }
}

/// Whether a query keeps a hit whose entry is there and need not be read.
fn keeps_unread<C: Card>(units: &Units<C>, unit: Unit, query: &Query, spot: &Spot) -> bool
    requires { asks_texts query.now.spec ≡ false }
    ensures { (outside : Outside) → Eight outside → Stands C.place C.stands true units.now outside
        → (blocks : ℕ) (s : Store) → OnUnit (world_of C.reads units.now outside) unit blocks s
        → IsSome (entry_at spot.now.soup spot.now.uid s)
        → result ≡ keeps_in (query_of query.now) s (spot_hit spot.now) }
{
    match units.card(unit) {
        Some(card) => is_kept_on(card, query, spot),
        None => false,
    }
}

/// Whether a query keeps a hit of the store of a card, whose entry is there and need not be read.
/// Its mask is asked for only where its soup declares tags.
fn is_kept_on<C: Card>(card: &C, query: &Query, spot: &Spot) -> bool
    requires { asks_texts query.now.spec ≡ false }
    ensures { (outside : Outside) (s : Store) → C.stands true card.now outside
        → C.reads (image (C.place card.now) outside.now) ≡ Some s
        → IsSome (entry_at spot.now.soup spot.now.uid s)
        → result ≡ keeps_in (query_of query.now) s (spot_hit spot.now) }
{
    let Some(table) = card.tags(spot.soup) else {
        return is_kept_unread(&query.spec, &spot.key, None, 0);
    };
    match card.mask(spot.soup, spot.uid) {
        Some(mask) => is_kept_unread(&query.spec, &spot.key, Some(table), mask),
        None => false,
    }
}
