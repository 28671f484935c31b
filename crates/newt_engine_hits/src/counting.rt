//! The number of the hits of a query.
ghost use Rattle.std.specs.Prelude.{◌≡◌, ◌+◌, ◌^◌, ◌<◌, IsTrue, IfOk, cond, length};
ghost use Rattle.newt_query.specs.Filter.{asks_texts};
ghost use Rattle.newt_cursor.specs.Seen.{query_of};
ghost use Rattle.newt_spec_world.specs.World.{hits_of};
ghost use Rattle.newt_laws_world.specs.Settled.{MountedApart};
ghost use Rattle.newt_engine_units.specs.Stands.{Stands, world_of};
ghost use Rattle.newt_engine_hits.specs.Calls.{IsReading};

use crate::keep::keeps;
use crate::search::{beyond, outermost};
use crate::ways::Way;
use newt_cursor::Query;
use newt_engine_card::Card;
use newt_engine_units::Units;
use newt_host::Host;
use newt_pagebook::Stop;

/// How many hits a query has. Each search leaves fewer hits of the index after it, and there are
/// fewer than the searches that are tried.
pub fn count_hits<C: Card, H: Host>(
    units: &mut Units<C>,
    host: &mut H,
    query: &Query,
) -> Result<u32, Stop>
    requires { Stands C.place C.stands H.told units.old (H.outside host.old) }
    ensures reading { IsReading C.reads C.place C.stands (asks_texts query.now.spec) H.told
        units.old units.new (H.outside host.old) (H.outside host.new) result }
    ensures count { IsTrue H.told → let w = world_of C.reads units.old (H.outside host.old) in
        let q = query_of query.now in MountedApart w → IfOk result
        (λ count. count ≡ length (hits_of w q)) }
{
    let mut count = 0u32;
    let mut found = outermost(units, query, Way::On)?;
    'hits: for _hit in 0..u64::MAX {
        let Some(spot) = found else {
            return Ok(count);
        };
        let kept = keeps(units, host, query, &spot)?;
        count = one_more(count, kept);
        found = beyond(units, query, Way::On, &spot)?;
    }
    Ok(count)
}

/// A count and one more where a hit is kept.
fn one_more(count: u32, kept: bool) -> u32
    ensures { count + cond kept 1 0 < 2 ^ 32 → result ≡ count + cond kept 1 0 }
{
    if kept { count.saturating_add(1) } else { count }
}
